// The modules of the set, and their bytes.
ghost use Rattle.std.specs.Prelude.{◌≡◌, ◌<◌, ◌≤◌, IfOk, length};
ghost use Rattle.spec_reading.specs.spec_binary.Number.{IsShortest};
ghost use Rattle.spec_reading.specs.spec_binary.Modules.{SpellsModule};
ghost use Rattle.spec_reading.specs.spec_binary.WellFormed.{IsWellFormed};
ghost use Rattle.wasm_encode.specs.Weight.{weight};
ghost use Rattle.dyl_gen.specs.Generated.{member, further};
ghost use Rattle.dyl_gen.specs.Files.{IsMemberFile, IsFurtherFile};

use crate::bodies::bodies;
use crate::record::{dylink, no_dylink};
use crate::sections::{customs, datas, exports, funcs, globals, imports, types};
use dyl_section::{write_dylink, written_is_recorded};
use std::alloc::Global;
use wasm_encode::{EncodeFault, encode, light_modules_fit};
use wasm_form::{List, Memory, Module};

// A member of n whose `dylink.0` section holds these bytes.
fn member(alloc: Global, n: u32, k: u32, note: Vec<u8>) -> Result<Module, Memory>
    requires member { k < n }
    requires few { n ≤ 255 }
    ensures { IfOk result (λ m. m ≡ member n k note.items) }
{
    let customs = customs(alloc, note)?;
    let types = types(alloc, k)?;
    let imports = imports(alloc, n, k)?;
    let funcs = funcs(alloc, k)?;
    let globals = globals(alloc)?;
    let exports = exports(alloc, k)?;
    let codes = bodies(alloc, n, k)?;
    let datas = datas(alloc, k)?;
    Ok(Module {
        types,
        imports,
        funcs,
        tables: List::of(Vec::new(alloc)),
        memories: List::of(Vec::new(alloc)),
        globals,
        exports,
        start: None,
        elems: List::of(Vec::new(alloc)),
        data_count: None,
        codes,
        datas,
        customs,
    })
}

// A module that has nothing but such a section.
fn further(alloc: Global, note: Vec<u8>) -> Result<Module, Memory>
    ensures { IfOk result (λ m. m ≡ further note.items) }
{
    let customs = customs(alloc, note)?;
    Ok(Module {
        types: List::of(Vec::new(alloc)),
        imports: List::of(Vec::new(alloc)),
        funcs: List::of(Vec::new(alloc)),
        tables: List::of(Vec::new(alloc)),
        memories: List::of(Vec::new(alloc)),
        globals: List::of(Vec::new(alloc)),
        exports: List::of(Vec::new(alloc)),
        start: None,
        elems: List::of(Vec::new(alloc)),
        data_count: None,
        codes: List::of(Vec::new(alloc)),
        datas: List::of(Vec::new(alloc)),
        customs,
    })
}

// The bytes of a module of which there is little to write.
fn encoded(alloc: Global, module: &Module) -> Result<Vec<u8>, Memory>
    requires formed { IsWellFormed «module».now }
    requires light { weight «module».now ≤ 496 }
    ensures spelled { IfOk result (λ bytes. IsShortest (SpellsModule «module».now) bytes.items) }
    ensures few { IfOk result (λ bytes. length bytes.items ≤ 8192) }
{
    light_modules_fit();
    match encode(alloc, module) {
        Ok(bytes) => Ok(bytes),
        Err(EncodeFault::SectionSize { .. }) => unreachable!(),
        Err(EncodeFault::Memory) => Err(Memory),
    }
}

// The file of a member of n.
pub(crate) fn member_file(alloc: Global, n: u32, k: u32) -> Result<Vec<u8>, Memory>
    requires member { k < n }
    requires few { n ≤ 255 }
    ensures { IfOk result (λ bytes. IsMemberFile n k bytes.items) }
{
    written_is_recorded();
    let dylink = dylink(alloc, n, k)?;
    let note = write_dylink(alloc, &dylink)?;
    drop(dylink);
    let module = member(alloc, n, k, note)?;
    let bytes = encoded(alloc, &module);
    drop(module);
    bytes
}

// The further file.
pub(crate) fn further_file(alloc: Global) -> Result<Vec<u8>, Memory>
    ensures { IfOk result (λ bytes. IsFurtherFile bytes.items) }
{
    written_is_recorded();
    let dylink = no_dylink(alloc);
    let note = write_dylink(alloc, &dylink)?;
    drop(dylink);
    let module = further(alloc, note)?;
    let bytes = encoded(alloc, &module);
    drop(module);
    bytes
}
