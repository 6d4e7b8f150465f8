// Writing a record.
ghost use Rattle.std.specs.Prelude.{◌≡◌, ℕ, ◌^◌, ◌<◌, ◌≤◌, List as Listing, length, OnOk, IfOk};
ghost use Rattle.spec_reading.specs.spec_binary.Number.{IsShortest, Appends};
ghost use Rattle.spec_reading.specs.spec_binary.Name.{SpellsName};
ghost use Rattle.spec_reading.specs.spec_binary.Sequence.{SpellsEach, SpellsVec};
ghost use Rattle.spec_linking.specs.Records.{most_align, empty_record, Subsections};
ghost use Rattle.dyl_section.specs.Recorded.{record_of};
ghost use Rattle.dyl_section.specs.Written.{
  IsSpelled,
  IsShortlySpelled,
  IsWritable,
  SpellsExportInfo,
  SpellsImportInfo,
  IsFramed,
  IsRegionsWord,
  IsListWord,
  IsWritten,
};

use crate::record::{Dylink, ExportInfo, ImportInfo};
use std::alloc::Global;
use wasm_form::{Memory, Text};
use wasm_leb::{put_name, put_u32};

// What stands in a list of a record.
trait Note {
    // Which bytes spell it.
    ghost spells: { Self → Listing ℕ → Type 0 };

    // Writes its shortest spelling at the end.
    fn put(&self, alloc: Global, to: &mut Vec<u8>) -> Result<(), Memory>
        requires { IsSpelled (spells self.now) }
        ensures { OnOk result (Appends (IsShortest (spells self.now)) to.old.items to.new.items) };
}

impl Note for Text {
    ghost spells = { SpellsName };

    fn put(&self, alloc: Global, to: &mut Vec<u8>) -> Result<(), Memory> {
        put_name(alloc, to, self.as_str())
    }
}

impl Note for ExportInfo {
    ghost spells = { SpellsExportInfo };

    fn put(&self, alloc: Global, to: &mut Vec<u8>) -> Result<(), Memory> {
        put_name(alloc, to, self.name.as_str())?;
        put_u32(alloc, to, self.flags)
    }
}

impl Note for ImportInfo {
    ghost spells = { SpellsImportInfo };

    fn put(&self, alloc: Global, to: &mut Vec<u8>) -> Result<(), Memory> {
        put_name(alloc, to, self.module.as_str())?;
        put_name(alloc, to, self.field.as_str())?;
        put_u32(alloc, to, self.flags)
    }
}

// Writes each of a list, one after the other.
fn put_each<T: Note>(alloc: Global, items: &[T], to: &mut Vec<u8>) -> Result<(), Memory>
    requires { IsSpelled (SpellsEach T.spells items.now) }
    ensures { OnOk result (Appends (IsShortest (SpellsEach T.spells items.now)) to.old.items to.new.items) }
{
    for item in items {
        item.put(alloc, to)?;
    }
    Ok(())
}

// Writes the length of a list and then each of it.
fn put_vec<T: Note>(alloc: Global, items: &[T], to: &mut Vec<u8>) -> Result<(), Memory>
    requires { IsSpelled (SpellsVec T.spells items.now) }
    ensures { OnOk result (Appends (IsShortest (SpellsVec T.spells items.now)) to.old.items to.new.items) }
{
    put_u32(alloc, to, items.len() as u32)?;
    put_each(alloc, items, to)
}

// Writes a code, the size of contents, and the contents.
fn put_subsection(alloc: Global, code: u8, contents: &[u8], to: &mut Vec<u8>) -> Result<(), Memory>
    requires { length contents.now < 2 ^ 32 }
    ensures { OnOk result (Appends (IsFramed code contents.now) to.old.items to.new.items) }
{
    to.push(code)?;
    put_u32(alloc, to, contents.len() as u32)?;
    to.extend_from_slice(contents)?;
    Ok(())
}

// Writes a list into a subsection, if it isn't empty.
fn put_list<T: Note>(alloc: Global, code: u8, items: &[T], to: &mut Vec<u8>) -> Result<(), Memory>
    requires { IsShortlySpelled (SpellsVec T.spells items.now) }
    ensures { OnOk result (Appends (IsListWord T.spells code items.now) to.old.items to.new.items) }
{
    if items.is_empty() {
        return Ok(());
    }
    let mut contents = Vec::new(alloc);
    put_vec(alloc, items, &mut contents)?;
    put_subsection(alloc, code, &contents, to)
}

// Writes memory information.
fn put_regions(alloc: Global, d: &Dylink, to: &mut Vec<u8>) -> Result<(), Memory>
    ensures { OnOk result (Appends (IsRegionsWord d.now) to.old.items to.new.items) }
{
    let mut contents = Vec::new(alloc);
    put_u32(alloc, &mut contents, d.mem_size)?;
    put_u32(alloc, &mut contents, d.mem_align)?;
    put_u32(alloc, &mut contents, d.table_size)?;
    put_u32(alloc, &mut contents, d.table_align)?;
    put_subsection(alloc, 1, &contents, to)
}

/// The contents of a `dylink.0` section that says this: memory information, and then the lists that aren't empty, each
/// number in its shortest form.
pub fn write_dylink(alloc: Global, d: &Dylink) -> Result<Vec<u8>, Memory>
    requires { IsWritable d.now }
    ensures said { IfOk result (λ bytes. (count : ℕ) × Subsections empty_record count bytes.items (record_of d.now)) }
    ensures written { IfOk result (λ bytes. IsWritten d.now bytes.items) }
{
    let mut bytes = Vec::new(alloc);
    put_regions(alloc, d, &mut bytes)?;
    put_list(alloc, 2, d.needed.items(), &mut bytes)?;
    put_list(alloc, 3, d.exports.items(), &mut bytes)?;
    put_list(alloc, 4, d.imports.items(), &mut bytes)?;
    put_list(alloc, 5, d.paths.items(), &mut bytes)?;
    Ok(bytes)
}
