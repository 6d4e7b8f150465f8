// Listing a set.
ghost use Rattle.std.specs.Prelude.{Ok};
ghost use Rattle.host_calls.specs.Embedders.{names_of};
ghost use Rattle.dyl_link.specs.dyl_search.Gathers.{options_of};
ghost use Rattle.dyl_link.specs.Sets as links;
ghost use Rattle.dyl_front.specs.Orders.{IsLinkInRange};
ghost use Rattle.dyl_commands.specs.Runs.{PlanWorks};
ghost use Rattle.dyl_commands.specs.Counts.{Counts};
ghost use Rattle.dyl_commands.specs.Served.{Serves, Lists};

use crate::sets::linked_set;
use dyl_front::{Order, Outcome, listing};
use dyl_link::dyl_search::SetOptions;
use dyl_link::host_table::HostTable;
use dyl_link::{LinkOptions, Linked};
use spec_hosts::dyl_outside::{Files, IoFault, Sink};
use std::alloc::Global;

/// Puts the listing of a linked set.
fn put_listing<O: Sink>(alloc: Global, linked: &Linked, output: &mut O) -> Outcome
    ensures { Lists linked.now result (O.seen output.old) (O.seen output.new) }
{
    let Ok(text) = listing(alloc, linked) else {
        return Outcome::Memory;
    };
    match output.put(alloc, &text) {
        Ok(()) => Outcome::done(alloc),
        Err(IoFault::Failed) => Outcome::WriteFault,
        Err(IoFault::Memory) => Outcome::Memory,
    }
}

/// Puts the listing of the set that is asked for.
pub fn plan_main<F: Files, O: Sink>(
    alloc: Global,
    set: &SetOptions,
    link: &LinkOptions,
    files: &mut F,
    output: &mut O,
    host: &HostTable,
) -> Outcome
    requires { IsLinkInRange link.now }
    ensures serves { Serves (names_of host.now) (Ok (Order.Plan set.now link.now)) result (F.seen files.old) (F.seen files.new) (O.seen output.old).faults (O.seen output.new).faults }
    ensures counts { Counts (Ok (Order.Plan set.now link.now)) result (F.seen files.old) (F.seen files.new) }
    ensures works { PlanWorks (F.seen files.old).told (names_of host.now) (options_of set.now) (links.options_of link.now) result (O.seen output.old) (O.seen output.new) }
{
    match linked_set(alloc, set, link, files, host) {
        Ok(linked) => {
            let outcome = put_listing(alloc, &linked, output);
            drop(linked);
            outcome
        }
        Err(outcome) => outcome,
    }
}
