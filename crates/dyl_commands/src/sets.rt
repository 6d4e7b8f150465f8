// Sets that are asked for: gathered and linked.
ghost use Rattle.std.specs.Prelude.{◌≡◌, [], IfOk};
ghost use Rattle.spec_loading.specs.spec_linking.Sets.{default_options};
ghost use Rattle.spec_loading.specs.spec_linking.Gathering.{IsSet};
ghost use Rattle.host_calls.specs.Embedders.{names_of};
ghost use Rattle.dyl_link.specs.dyl_search.Gathers.{options_of, set_of};
ghost use Rattle.dyl_link.specs.Sets as links;
ghost use Rattle.dyl_front.specs.Orders.{IsLinkInRange};
ghost use Rattle.dyl_commands.specs.Linking.{linked};
ghost use Rattle.dyl_commands.specs.Served.{Gets, GetsNext, GetsAll, all_linked, LinksTo, set_outcome, link_outcome};

use dyl_front::Outcome;
use dyl_link::dyl_search::{ClosedSet, SetOptions, gather};
use dyl_link::host_table::HostTable;
use dyl_link::{LinkOptions, Linked, link};
use spec_hosts::dyl_outside::Files;
use spec_loading::spec_linking::{LinkFault, SetFault};
use std::alloc::Global;
use wasm_exec::host_names;
use wasm_form::{List, Memory, Text};

/// What is answered where no set is gathered.
pub fn refused(fault: SetFault) -> Outcome
    ensures { result ≡ set_outcome fault }
{
    match fault {
        SetFault::Memory => Outcome::Memory,
        fault => Outcome::Set(fault),
    }
}

/// What is answered where a set doesn't link.
fn unlinked(fault: LinkFault) -> Outcome
    ensures { result ≡ link_outcome fault }
{
    match fault {
        LinkFault::Memory => Outcome::Memory,
        fault => Outcome::Link(fault),
    }
}

/// Links a set that was gathered, or tells why it doesn't link.
fn link_set(
    alloc: Global,
    set: ClosedSet,
    o: &LinkOptions,
    host: &HostTable,
) -> Result<Linked, Outcome>
    requires shape { IsSet (set_of set) }
    requires range { IsLinkInRange o.now }
    ensures { LinksTo (linked (names_of host.now) (links.options_of o.now) (set_of set)) result }
{
    let Ok(names) = host_names(alloc, host) else {
        drop(set);
        return Err(Outcome::Memory);
    };
    match link(alloc, set, o, &names) {
        Ok(linked) => Ok(linked),
        Err(refused) => {
            drop(refused.set);
            Err(unlinked(refused.fault))
        }
    }
}

/// Gathers and links the set that is asked for, or tells why there is none.
pub fn linked_set<F: Files>(
    alloc: Global,
    set: &SetOptions,
    o: &LinkOptions,
    files: &mut F,
    host: &HostTable,
) -> Result<Linked, Outcome>
    requires { IsLinkInRange o.now }
    ensures { Gets (names_of host.now) (options_of set.now) (links.options_of o.now) result (F.seen files.old) (F.seen files.new) }
{
    match gather(alloc, files, set) {
        Ok(gathered) => link_set(alloc, gathered, o, host),
        Err(fault) => Err(refused(fault)),
    }
}

/// How the set of a main module alone is gathered.
pub(crate) fn main_alone(alloc: Global, main: &str) -> Result<SetOptions, Memory>
    ensures { IfOk result (λ o. options_of o ≡ default_options main.now) }
{
    Ok(SetOptions {
        main: Text::copied(alloc, main)?,
        dl: List::of(Vec::new(alloc)),
        paths: List::of(Vec::new(alloc)),
    })
}

/// Gathers and links the set of a main module alone.
fn linked_main<F: Files>(
    alloc: Global,
    main: &str,
    o: &LinkOptions,
    files: &mut F,
    host: &HostTable,
) -> Result<Linked, Outcome>
    requires { IsLinkInRange o.now }
    ensures { Gets (names_of host.now) (default_options main.now) (links.options_of o.now) result (F.seen files.old) (F.seen files.new) }
{
    match main_alone(alloc, main) {
        Ok(set) => linked_set(alloc, &set, o, files, host),
        Err(Memory) => Err(Outcome::Memory),
    }
}

/// Gathers and links the set of one more main module, behind those that are linked. The room for it is had first.
fn link_next<F: Files>(
    alloc: Global,
    main: &str,
    o: &LinkOptions,
    files: &mut F,
    host: &HostTable,
    sets: &mut Vec<Linked>,
) -> Result<(), Outcome>
    requires { IsLinkInRange o.now }
    ensures { GetsNext (names_of host.now) main.now (links.options_of o.now) result sets.old.items sets.new.items (F.seen files.old) (F.seen files.new) }
{
    let Ok(()) = sets.reserve(1) else {
        return Err(Outcome::Memory);
    };
    match linked_main(alloc, main, o, files, host) {
        Ok(linked) => {
            sets.push_reserved(linked);
            Ok(())
        }
        Err(outcome) => Err(outcome),
    }
}

/// Gathers and links the set of each main module, one after the other, up to the first that has a fault.
fn link_each<F: Files>(
    alloc: Global,
    mains: &[Text],
    o: &LinkOptions,
    files: &mut F,
    host: &HostTable,
    sets: &mut Vec<Linked>,
) -> Result<(), Outcome>
    requires link { IsLinkInRange o.now }
    requires none { sets.old.items ≡ [] }
    ensures { GetsAll (names_of host.now) mains.now (links.options_of o.now) (all_linked result sets.new.items) (F.seen files.old) (F.seen files.new) }
{
    for main in mains {
        link_next(alloc, main.as_str(), o, files, host, sets)?;
    }
    Ok(())
}

/// Gathers and links the set of each main module, one after the other, or tells why the first that has none has none. There are no names to be
/// opened later, and no further directories to search.
pub(crate) fn linked_sets<F: Files>(
    alloc: Global,
    mains: &[Text],
    o: &LinkOptions,
    files: &mut F,
    host: &HostTable,
) -> Result<List<Linked>, Outcome>
    requires { IsLinkInRange o.now }
    ensures { GetsAll (names_of host.now) mains.now (links.options_of o.now) result (F.seen files.old) (F.seen files.new) }
{
    let mut sets = Vec::new(alloc);
    match link_each(alloc, mains, o, files, host, &mut sets) {
        Ok(()) => Ok(List::of(sets)),
        Err(outcome) => {
            drop(sets);
            Err(outcome)
        }
    }
}
