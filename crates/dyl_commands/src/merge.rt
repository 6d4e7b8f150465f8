// Merging a set.
ghost use Rattle.std.specs.Prelude.{◌≡◌, ℕ, Ok};
ghost use Rattle.host_calls.specs.Embedders.{names_of};
ghost use Rattle.dyl_front.specs.Orders.{IsLinkInRange};
ghost use Rattle.dyl_commands.specs.Counts.{StoresFor, Counts};
ghost use Rattle.dyl_commands.specs.Served.{Serves, StoreCounts, WritesMerged, merge_outcome};

use crate::sets::linked_set;
use crate::store::store_output;
use dyl_front::{Order, Outcome};
use dyl_link::dyl_search::SetOptions;
use dyl_link::host_table::HostTable;
use dyl_link::{LinkOptions, Linked};
use merge_whole::merge;
use spec_hosts::dyl_outside::Files;
use spec_merging::MergeFault;
use std::alloc::Global;

/// What is answered where nothing is merged.
fn unmerged(fault: MergeFault) -> Outcome
    ensures { result ≡ merge_outcome fault }
{
    match fault {
        MergeFault::Memory => Outcome::Memory,
        fault => Outcome::Merge(fault),
    }
}

/// Writes the merged module of a linked set.
fn write_merged<F: Files>(alloc: Global, linked: &Linked, out: &str, files: &mut F) -> Outcome
    ensures written { WritesMerged linked.now out.now result (F.seen files.old) (F.seen files.new) }
    ensures counts { StoreCounts (StoresFor result) (F.seen files.old) (F.seen files.new) }
{
    match merge(alloc, linked) {
        Ok(bytes) => match store_output(alloc, out, &bytes, files) {
            Ok(()) => Outcome::done(alloc),
            Err(outcome) => outcome,
        },
        Err(fault) => unmerged(fault),
    }
}

/// Merges the set that is asked for, and writes the merged module.
pub fn merge_main<F: Files>(
    alloc: Global,
    set: &SetOptions,
    link: &LinkOptions,
    out: &str,
    files: &mut F,
    host: &HostTable,
) -> Outcome
    requires { IsLinkInRange link.now }
    ensures serves { (before now : ℕ) → Serves (names_of host.now) (Ok (Order.Merge set.now link.now out.now)) result (F.seen files.old) (F.seen files.new) before now }
    ensures counts { Counts (Ok (Order.Merge set.now link.now out.now)) result (F.seen files.old) (F.seen files.new) }
{
    match linked_set(alloc, set, link, files, host) {
        Ok(linked) => {
            let outcome = write_merged(alloc, &linked, out, files);
            drop(linked);
            outcome
        }
        Err(outcome) => outcome,
    }
}
