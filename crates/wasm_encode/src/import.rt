// Imports, globals and exports (sections 5.5.5, 5.5.9 and 5.5.10).
ghost use Rattle.std.specs.Prelude.{◌≡◌, OnOk};
ghost use Rattle.spec_reading.specs.spec_binary.Number.{IsShortest, Appends};
ghost use Rattle.spec_reading.specs.spec_binary.Parts.{
  SpellsImportDesc,
  SpellsImport,
  SpellsGlobal,
  SpellsExportDesc,
  SpellsExport,
};
ghost use Rattle.spec_reading.specs.spec_binary.WellFormed.{
  IsFormedDesc,
  IsFormedImport,
  IsFormedGlobal,
  IsFormedExport,
};

use crate::fault::PartFault;
use crate::part::{Part, put_numbered};
use std::alloc::Global;
use wasm_form::{Export, ExportDesc, GlobalDef, Import, ImportDesc, Memory};
use wasm_leb::put_name;

/// Writes the kind of what is imported, and the number of its type or its type.
impl Part for ImportDesc {
    ghost writable = { IsFormedDesc };

    ghost spells = { SpellsImportDesc };

    ghost too_long = { λ _. ⊥ };

    fn put(&self, alloc: Global, to: &mut Vec<u8>) -> Result<(), PartFault> {
        match self {
            ImportDesc::Func(number) => Ok(put_numbered(alloc, 0x00, *number, to)?),
            ImportDesc::Table(ty) => {
                to.push(0x01)?;
                ty.put(alloc, to)
            }
            ImportDesc::Space(limits) => {
                to.push(0x02)?;
                limits.put(alloc, to)
            }
            ImportDesc::Global(ty) => {
                to.push(0x03)?;
                ty.put(alloc, to)
            }
        }
    }
}

impl Part for Import {
    ghost writable = { IsFormedImport };

    ghost spells = { SpellsImport };

    ghost too_long = { λ _. ⊥ };

    fn put(&self, alloc: Global, to: &mut Vec<u8>) -> Result<(), PartFault> {
        put_name(alloc, to, self.module.as_str())?;
        put_name(alloc, to, self.field.as_str())?;
        self.desc.put(alloc, to)
    }
}

impl Part for GlobalDef {
    ghost writable = { IsFormedGlobal };

    ghost spells = { SpellsGlobal };

    ghost too_long = { λ _. ⊥ };

    fn put(&self, alloc: Global, to: &mut Vec<u8>) -> Result<(), PartFault> {
        self.ty.put(alloc, to)?;
        self.init.put(alloc, to)
    }
}

/// Writes the kind of what is exported, and its number.
fn put_desc(alloc: Global, desc: ExportDesc, to: &mut Vec<u8>) -> Result<(), Memory>
    ensures { OnOk result (Appends (IsShortest (SpellsExportDesc desc)) to.old.items to.new.items) }
{
    match desc {
        ExportDesc::Func(number) => put_numbered(alloc, 0x00, number, to),
        ExportDesc::Table(number) => put_numbered(alloc, 0x01, number, to),
        ExportDesc::Space(number) => put_numbered(alloc, 0x02, number, to),
        ExportDesc::Global(number) => put_numbered(alloc, 0x03, number, to),
    }
}

impl Part for Export {
    ghost writable = { IsFormedExport };

    ghost spells = { SpellsExport };

    ghost too_long = { λ _. ⊥ };

    fn put(&self, alloc: Global, to: &mut Vec<u8>) -> Result<(), PartFault> {
        put_name(alloc, to, self.name.as_str())?;
        put_desc(alloc, self.desc, to)?;
        Ok(())
    }
}
