// Notes on exports and imports, at the front of bytes.
ghost use Rattle.std.specs.Prelude.{◌≡◌, ℕ, ◌≤◌, length, IfOk};
ghost use Rattle.wasm_read.specs.Given.{Gives};
ghost use Rattle.dyl_section.specs.Reading.{export_info_at, import_info_at};

use crate::record::{ExportInfo, ImportInfo};
use std::alloc::Global;
use wasm_read::{Break, Item, name_of, u32_of};

// A name and flags.
#[tactic(auto, unfolding(crate::specs::Reading::export_info_at))]
fn export_info_of(alloc: Global, bytes: &[u8]) -> Result<(ExportInfo, &[u8]), Break>
    ensures reads { Gives (λ x. (x.0, x.1.now)) result (export_info_at bytes.now) }
    ensures shorter { IfOk result (λ x. length x.1.now ≤ length bytes.now) }
{
    let (name, rest) = name_of(alloc, bytes)?;
    let (flags, rest) = u32_of(rest)?;
    Ok((ExportInfo { name, flags }, rest))
}

impl Item for ExportInfo {
    ghost at = { export_info_at };

    fn read(alloc: Global, bytes: &[u8]) -> Result<(ExportInfo, &[u8]), Break> {
        export_info_of(alloc, bytes)
    }
}

// The name of a module, the name of what is imported from it, and flags.
#[tactic(auto, unfolding(crate::specs::Reading::import_info_at))]
fn import_info_of(alloc: Global, bytes: &[u8]) -> Result<(ImportInfo, &[u8]), Break>
    ensures reads { Gives (λ x. (x.0, x.1.now)) result (import_info_at bytes.now) }
    ensures shorter { IfOk result (λ x. length x.1.now ≤ length bytes.now) }
{
    let (module, rest) = name_of(alloc, bytes)?;
    let (field, rest) = name_of(alloc, rest)?;
    let (flags, rest) = u32_of(rest)?;
    Ok((
        ImportInfo {
            module,
            field,
            flags,
        },
        rest,
    ))
}

impl Item for ImportInfo {
    ghost at = { import_info_at };

    fn read(alloc: Global, bytes: &[u8]) -> Result<(ImportInfo, &[u8]), Break> {
        import_info_of(alloc, bytes)
    }
}
