// Writing the snapshot of a set.
ghost use Rattle.std.specs.Prelude.{◌≡◌, ◌≤◌, ℕ, Ok};
ghost use Rattle.host_calls.specs.Embedders.{names_of};
ghost use Rattle.dyl_front.specs.Orders.{IsLinkInRange};
ghost use Rattle.dyl_commands.specs.Counts.{StoresFor, Counts};
ghost use Rattle.dyl_commands.specs.Served.{Serves, StoreCounts, WritesSnapshot, snap_outcome};

use crate::sets::linked_set;
use crate::store::store_output;
use dyl_front::{Order, Outcome};
use dyl_link::dyl_search::SetOptions;
use dyl_link::host_table::HostTable;
use dyl_link::{LinkOptions, Linked};
use snap_merge::{SnapFault, snapshot};
use spec_hosts::dyl_outside::Files;
use std::alloc::Global;

/// What is answered where there is no snapshot.
fn without_snapshot(fault: SnapFault) -> Outcome
    ensures { result ≡ snap_outcome fault }
{
    match fault {
        SnapFault::Memory => Outcome::Memory,
        fault => Outcome::Snap(fault),
    }
}

/// Writes the snapshot of a linked set after its start-up, of which at most so many steps are made.
fn write_snapshot<F: Files>(
    alloc: Global,
    linked: &Linked,
    steps: u64,
    out: &str,
    files: &mut F,
) -> Outcome
    requires steps { steps ≤ 9223372036854775807 }
    ensures written { WritesSnapshot linked.now steps out.now result (F.seen files.old) (F.seen files.new) }
    ensures counts { StoreCounts (StoresFor result) (F.seen files.old) (F.seen files.new) }
{
    match snapshot(alloc, linked, steps) {
        Ok(bytes) => match store_output(alloc, out, &bytes, files) {
            Ok(()) => Outcome::done(alloc),
            Err(outcome) => outcome,
        },
        Err(fault) => without_snapshot(fault),
    }
}

/// Runs the set that is asked for up to the call of its entry, for at most so many steps, and writes the module that goes on from there.
pub fn snap_main<F: Files>(
    alloc: Global,
    set: &SetOptions,
    link: &LinkOptions,
    steps: u64,
    out: &str,
    files: &mut F,
    host: &HostTable,
) -> Outcome
    requires link { IsLinkInRange link.now }
    requires steps { steps ≤ 9223372036854775807 }
    ensures serves { (before now : ℕ) → Serves (names_of host.now) (Ok (Order.Snap set.now link.now steps out.now)) result (F.seen files.old) (F.seen files.new) before now }
    ensures counts { Counts (Ok (Order.Snap set.now link.now steps out.now)) result (F.seen files.old) (F.seen files.new) }
{
    match linked_set(alloc, set, link, files, host) {
        Ok(linked) => {
            let outcome = write_snapshot(alloc, &linked, steps, out, files);
            drop(linked);
            outcome
        }
        Err(outcome) => outcome,
    }
}
