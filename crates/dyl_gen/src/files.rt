// The files of the set.
ghost use Rattle.std.specs.Prelude.{◌≡◌, ◌⊎◌, ◌↔◌, ◌<◌, ◌≤◌, ℕ, IfOk, OnOk, Err};
ghost use Rattle.std.specs.FinMap.{empty};
ghost use Rattle.dyl_gen.specs.declared.fault.GenFault.TheVariants as faults;
ghost use Rattle.dyl_gen.specs.Generated.{file_name, further_name};
ghost use Rattle.dyl_gen.specs.Files.{IsMemberFile, IsFurtherFile, AreGenerated, fresh, HasFirst, Adds};

use crate::fault::GenFault;
use crate::member::{further_file, member_file};
use crate::names::file_name;
use dyl_outside::MemFiles;
use std::alloc::Global;
use wasm_form::Memory;

/// The most members.
const MOST: u32 = 255;

// Adds the file of a member of n.
fn add_member(alloc: Global, n: u32, k: u32, files: &mut MemFiles) -> Result<(), Memory>
    requires member { k < n }
    requires few { n ≤ 255 }
    ensures { OnOk result (Adds (file_name k) (IsMemberFile n k) files.old files.new) }
{
    let name = file_name(alloc, k)?;
    let bytes = member_file(alloc, n, k)?;
    files.add(alloc, name.as_str(), &bytes)
}

// Adds those of all members of n.
fn add_members(alloc: Global, n: u32, files: &mut MemFiles) -> Result<(), Memory>
    requires few { n ≤ 255 }
    requires fresh { files.old ≡ fresh empty }
    ensures { OnOk result (HasFirst n n files.new) }
{
    for k in 0..n {
        add_member(alloc, n, k, files)?;
    }
    Ok(())
}

// Adds the further file.
fn add_further(alloc: Global, files: &mut MemFiles) -> Result<(), Memory>
    ensures { OnOk result (Adds further_name IsFurtherFile files.old files.new) }
{
    let bytes = further_file(alloc)?;
    files.add(alloc, "e.so", &bytes)
}

// The files of the set of n members.
fn generated(alloc: Global, n: u32) -> Result<MemFiles, Memory>
    requires some { 0 < n }
    requires few { n ≤ 255 }
    ensures files { IfOk result (λ s. AreGenerated n s.files) }
    ensures fresh { IfOk result (λ s. s ≡ fresh s.files) }
{
    let mut files = MemFiles::new(alloc);
    add_members(alloc, n, &mut files)?;
    add_further(alloc, &mut files)?;
    Ok(files)
}

/// The files of the set of n members: `m0.wasm`, the main module, `m1.so` and so on, and `e.so`, which defines nothing. No call on them is
/// to fail.
///
/// `Range` comes exactly where n is 0 or above 255; `Memory` where no memory could be had.
pub fn make(alloc: Global, n: u32) -> Result<MemFiles, GenFault>
    ensures files { IfOk result (λ s. AreGenerated n s.files) }
    ensures fresh { IfOk result (λ s. s ≡ fresh s.files) }
    ensures range { (result ≡ Err faults.Range) ↔ ((n ≡ 0) ⊎ (255 < n)) }
{
    if n == 0 || n > MOST {
        return Err(GenFault::Range);
    }
    let files = generated(alloc, n)?;
    Ok(files)
}
