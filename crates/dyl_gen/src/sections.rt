// The other sections of a member.
ghost use Rattle.std.specs.Prelude.{◌≡◌, ◌<◌, ◌≤◌, ◌∷◌, [], IfOk};
ghost use Rattle.dyl_gen.specs.Generated.{
  next,
  function_name,
  value_name,
  no_numbers,
  one_number,
  four_numbers,
  types,
  number_type,
  import_of,
  shared_imports,
  cell_imports,
  main_imports,
  imports,
  funcs,
  own,
  value_global,
  export_of,
  exports,
  region,
  dylink_section,
};

use crate::names::{function_name, is_main, next, text, value_name};
use std::alloc::Global;
use wasm_form::{
    Custom, Data, DataMode, Export, ExportDesc, Expr, FuncType, GlobalDef, GlobalType, Import,
    ImportDesc, Instr, Limits, List, Memory, TableType, Text, ValType,
};

// A function type of so many numbers, and as many results as are wanted.
fn no_numbers(alloc: Global) -> FuncType
    ensures { result ≡ no_numbers }
{
    FuncType {
        params: List::of(Vec::new(alloc)),
        results: List::of(Vec::new(alloc)),
    }
}

fn one_number(alloc: Global) -> Result<FuncType, Memory>
    ensures { IfOk result (λ t. t ≡ one_number) }
{
    let params = vec![in alloc; ValType::I32]?;
    let results = vec![in alloc; ValType::I32]?;
    Ok(FuncType {
        params: List::of(params),
        results: List::of(results),
    })
}

// The type of `fd_write`.
fn four_numbers(alloc: Global) -> Result<FuncType, Memory>
    ensures { IfOk result (λ t. t ≡ four_numbers) }
{
    let params = vec![in alloc; ValType::I32, ValType::I32, ValType::I32, ValType::I32]?;
    let results = vec![in alloc; ValType::I32]?;
    Ok(FuncType {
        params: List::of(params),
        results: List::of(results),
    })
}

// The types of a member.
pub(crate) fn types(alloc: Global, k: u32) -> Result<List<FuncType>, Memory>
    ensures { IfOk result (λ x. x ≡ types k) }
{
    let mut types = vec![in alloc; no_numbers(alloc), one_number(alloc)?]?;
    if is_main(k) {
        types.push(four_numbers(alloc)?)?;
    }
    Ok(List::of(types))
}

// A global of 32 bits that may be set, or may not.
fn number_type(mutable: bool) -> GlobalType
    ensures { result ≡ number_type mutable }
{
    GlobalType {
        value: ValType::I32,
        mutable,
    }
}

fn import_of(alloc: Global, module: &str, field: Text, desc: ImportDesc) -> Result<Import, Memory>
    ensures { IfOk result (λ i. i ≡ import_of «module».now field desc) }
{
    Ok(Import {
        module: text(alloc, module)?,
        field,
        desc,
    })
}

// The shared memory and table, and the address of the member's region.
fn shared_imports(alloc: Global) -> Result<Vec<Import>, Memory>
    ensures { IfOk result (λ x. x.items ≡ shared_imports) }
{
    let memory = ImportDesc::Space(Limits { min: 1, max: None });
    let table = ImportDesc::Table(TableType {
        elem: ValType::FuncRef,
        limits: Limits { min: 0, max: None },
    });
    let base = ImportDesc::Global(number_type(false));
    let mut imports = Vec::new(alloc);
    imports.push(import_of(alloc, "env", text(alloc, "memory")?, memory)?)?;
    imports.push(import_of(
        alloc,
        "env",
        text(alloc, "__indirect_function_table")?,
        table,
    )?)?;
    imports.push(import_of(alloc, "env", text(alloc, "__memory_base")?, base)?)?;
    Ok(imports)
}

// The address of the value of a member, and the slot of its function.
fn cell_imports(alloc: Global, x: u32) -> Result<Vec<Import>, Memory>
    ensures { IfOk result (λ y. y.items ≡ cell_imports x) }
{
    let cell = ImportDesc::Global(number_type(true));
    let mut imports = Vec::new(alloc);
    imports.push(import_of(alloc, "GOT.mem", value_name(alloc, x)?, cell)?)?;
    imports.push(import_of(alloc, "GOT.func", function_name(alloc, x)?, cell)?)?;
    Ok(imports)
}

// The function of a member, and `fd_write`.
fn main_imports(alloc: Global, x: u32) -> Result<Vec<Import>, Memory>
    ensures { IfOk result (λ y. y.items ≡ main_imports x) }
{
    let function = ImportDesc::Func(1);
    let put = ImportDesc::Func(2);
    let mut imports = Vec::new(alloc);
    imports.push(import_of(alloc, "env", function_name(alloc, x)?, function)?)?;
    imports.push(import_of(
        alloc,
        "wasi_snapshot_preview1",
        text(alloc, "fd_write")?,
        put,
    )?)?;
    Ok(imports)
}

// The imports of a member of n.
pub(crate) fn imports(alloc: Global, n: u32, k: u32) -> Result<List<Import>, Memory>
    requires { k < n }
    ensures { IfOk result (λ x. x ≡ imports n k) }
{
    let mut imports = shared_imports(alloc)?;
    let mut cells = cell_imports(alloc, next(n, k))?;
    imports.append(&mut cells)?;
    if is_main(k) {
        let mut functions = main_imports(alloc, next(n, k))?;
        imports.append(&mut functions)?;
    }
    Ok(List::of(imports))
}

// The numbers of the types of a member's functions.
pub(crate) fn funcs(alloc: Global, k: u32) -> Result<List<u32>, Memory>
    ensures { IfOk result (λ x. x ≡ funcs k) }
{
    let mut types = vec![in alloc; 1, 0, 0]?;
    if is_main(k) {
        types.push(0)?;
    }
    Ok(List::of(types))
}

// The number of a function that a member defines.
fn own(k: u32, i: u32) -> ExportDesc
    requires { i < 4 }
    ensures { result ≡ ExportDesc.Func (own k i) }
{
    ExportDesc::Func(if is_main(k) { i + 2 } else { i })
}

// The place of the member's value in its region.
pub(crate) fn globals(alloc: Global) -> Result<List<GlobalDef>, Memory>
    ensures { IfOk result (λ x. x ≡ value_global ∷ []) }
{
    let init = vec![in alloc; Instr::I32Const(0)]?;
    let global = GlobalDef {
        ty: number_type(false),
        init: Expr {
            list: List::of(init),
        },
    };
    Ok(List::of(vec![in alloc; global]?))
}

fn export_of(alloc: Global, name: &str, desc: ExportDesc) -> Result<Export, Memory>
    ensures { IfOk result (λ e. e ≡ export_of name.now desc) }
{
    Ok(Export {
        name: text(alloc, name)?,
        desc,
    })
}

// What a member defines for others.
fn definitions(alloc: Global, k: u32) -> Result<Vec<Export>, Memory>
    ensures { IfOk result (λ x. x.items ≡ export_of (function_name k) (ExportDesc.Func (own k 0)) ∷ export_of (value_name k) (ExportDesc.Global 3) ∷ []) }
{
    let function = Export {
        name: function_name(alloc, k)?,
        desc: own(k, 0),
    };
    let value = Export {
        name: value_name(alloc, k)?,
        desc: ExportDesc::Global(3),
    };
    Ok(vec![in alloc; function, value]?)
}

// The exports of a member.
pub(crate) fn exports(alloc: Global, k: u32) -> Result<List<Export>, Memory>
    ensures { IfOk result (λ x. x ≡ exports k) }
{
    let mut exports = definitions(alloc, k)?;
    exports.push(export_of(alloc, "__wasm_apply_data_relocs", own(k, 1))?)?;
    exports.push(export_of(alloc, "__wasm_call_ctors", own(k, 2))?)?;
    if is_main(k) {
        exports.push(export_of(alloc, "_start", own(k, 3))?)?;
    }
    Ok(List::of(exports))
}

// The member's number, and room for an address.
fn region(alloc: Global, k: u32) -> Result<Data, Memory>
    ensures { IfOk result (λ d. d ≡ region k) }
{
    let offset = vec![in alloc; Instr::Index(0x23, 0)]?;
    let mut bytes = Vec::from_slice(alloc, &k.to_le_bytes())?;
    bytes.extend_from_slice(&[0; 4])?;
    Ok(Data {
        mode: DataMode::Active {
            memory: 0,
            offset: Expr {
                list: List::of(offset),
            },
        },
        bytes: List::of(bytes),
    })
}

// The data segments of a member.
pub(crate) fn datas(alloc: Global, k: u32) -> Result<List<Data>, Memory>
    ensures { IfOk result (λ x. x ≡ region k ∷ []) }
{
    Ok(List::of(vec![in alloc; region(alloc, k)?]?))
}

// The custom sections of a module whose `dylink.0` section holds these bytes.
pub(crate) fn customs(alloc: Global, note: Vec<u8>) -> Result<List<Custom>, Memory>
    ensures { IfOk result (λ x. x ≡ dylink_section note.items ∷ []) }
{
    let section = Custom {
        rank: 0,
        name: text(alloc, "dylink.0")?,
        bytes: List::of(note),
    };
    Ok(List::of(vec![in alloc; section]?))
}
