// Reading a module's record.
ghost use Rattle.std.specs.Prelude.{◌≡◌, ℕ, ◌≤◌, length, IfOk, IfSome, IfNone, List as Listing, Result as Answer};
ghost use Rattle.wasm_form.specs.declared.module.Module.{Module};
ghost use Rattle.spec_linking.specs.Records.{DylinkRecord, HasSection, RecordAnswer};
ghost use Rattle.spec_linking.specs.declared.fault.RecordFault.{RecordFault as Fault};
ghost use Rattle.wasm_read.specs.Given.{Gives};
ghost use Rattle.dyl_section.specs.Recorded.{Records, Yields};
ghost use Rattle.dyl_section.specs.Reading.{part_at, subsections_at, nothing_said, seen, Tells};

use crate::fault::fault_after;
use crate::record::Dylink;
use crate::said::Said;
use spec_linking::RecordFault;
use std::alloc::Global;
use wasm_form::Module;
use wasm_read::{Break, contents_of};

// The size and the contents of the subsection with this code.
#[tactic(auto, unfolding(crate::specs::Reading::part_at))]
fn part_of(alloc: Global, said: Said, code: u8, bytes: &[u8]) -> Result<(Said, &[u8]), Break>
    ensures reads { Gives (λ x. (seen x.0, x.1.now)) result (part_at (seen said) code bytes.now) }
    ensures shorter { IfOk result (λ x. length x.1.now ≤ length bytes.now) }
{
    let (contents, rest) = contents_of(bytes)?;
    Ok((said.with_subsection(alloc, code, contents)?, rest))
}

// Subsections up to the end of the bytes.
fn subsections_of(alloc: Global, bytes: &[u8]) -> Result<Dylink, RecordFault>
    ensures { (k : ℕ) → length bytes.now ≤ k → Tells result (subsections_at k 0 nothing_said bytes.now) }
{
    let mut said = Said::new(alloc);
    let mut rest = bytes;
    let mut count: u32 = 0;
    while let [code, after @ ..] = rest {
        match part_of(alloc, said, *code, after) {
            Ok((more, next)) => {
                said = more;
                rest = next;
            }
            Err(e) => return Err(fault_after(count, e)),
        }
        count = count.saturating_add(1);
    }
    Ok(said.finish())
}

// The contents of the module's `dylink.0` section.
fn section_of(m: &Module) -> Option<&[u8]>
    ensures found { IfSome result (λ bytes. HasSection m.now bytes.now) }
    ensures none { IfNone result ((bytes : Listing ℕ) → HasSection m.now bytes → ⊥) }
{
    let [custom, ..] = m.customs.items() else {
        return None;
    };
    if custom.rank == 0 && custom.name.as_str() == "dylink.0" {
        Some(custom.bytes.items())
    } else {
        None
    }
}

/// The record of a module: what its `dylink.0` section says, where that is the first custom section and stands before
/// every section with contents.
///
/// Each subsection is a code, a size of 32 bits, and so many bytes, which a known code's contents fill; of several
/// memory informations the last one counts, lists are joined, and other codes are passed over.
pub fn read_dylink(alloc: Global, m: &Module) -> Result<Dylink, RecordFault>
    ensures answer { Records m.now result }
    ensures only { (answer : Answer DylinkRecord Fault) → RecordAnswer m.now answer → Yields answer result }
{
    match section_of(m) {
        Some(bytes) => subsections_of(alloc, bytes),
        None => Err(RecordFault::NoDylink),
    }
}
