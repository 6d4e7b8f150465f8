// The host call that a program of a board waits for.
ghost use Rattle.std.specs.Prelude.{◌≡◌, ◌&&◌, false};
ghost use Rattle.spec_hosts.specs.Devices.{devices};
ghost use Rattle.spec_hosts.specs.Ends.{are_many};
ghost use Rattle.spec_hosts.specs.spec_runtime.Courses.{IsAt, is_waiting};
ghost use Rattle.dyl_store.specs.Stores.{set_course};
ghost use Rattle.slice_exec.specs.Playing.{written_by, IsAsking, Asks, Serves, IsServing};

use crate::tally::Tally;
use dyl_store::{Event, Store};
use host_calls::Hosts;
use run_limits::{are_many, bytes_written};
use run_loaded::host_at;
use slice_board::Board;
use spec_hosts::dyl_outside::{Ambient, Sink, Source};
use spec_hosts::wasm_form::{Answer, Memory};
use std::alloc::Global;

/// The answer of the host to the call that a run waits for.
fn ask<I: Source, O: Sink, E: Sink, A: Ambient>(
    alloc: Global,
    store: &Store,
    hosts: &Hosts,
    input: &mut I,
    output: &mut O,
    errors: &mut E,
    ambient: &mut A,
) -> Result<Answer, Memory>
    requires { IsAsking hosts.now store.now }
    ensures { Asks hosts.now store.now result (devices (I.seen input.old) (O.seen output.old) (E.seen errors.old) (A.seen ambient.old)) (devices (I.seen input.new) (O.seen output.new) (E.seen errors.new) (A.seen ambient.new)) }
{
    store.links();
    let Event::Waits(asked) = store.state() else {
        unreachable!()
    };
    let host = host_at(store.hosts(), asked.entry);
    hosts.ask(
        alloc,
        host,
        asked,
        store.memory(),
        input,
        output,
        errors,
        ambient,
    )
}

/// Whether no further host call of a program is answered, which stands where its steps led.
pub(crate) fn is_full(store: &Store, written: u128) -> bool
    requires { written ≡ written_by store.now.run.answers }
    ensures value { result ≡ are_many store.now.run.answers }
    ensures stands { store.now.run.lost ≡ false → IsAt (set_course store.now.linked) store.now.run }
{
    let _steps = store.steps();
    are_many(store.answers(), written)
}

/// Whether a program waits for a host call, and no further one is answered.
pub(crate) fn waits_in_vain(store: &Store, written: u128) -> bool
    requires found { store.now.run.lost ≡ false }
    requires written { written ≡ written_by store.now.run.answers }
    ensures { result ≡ (is_waiting (set_course store.now.linked) store.now.run && are_many store.now.run.answers) }
{
    let full = is_full(store, written);
    store.waiting() && full
}

/// Answers the call that a program waits for.
pub(crate) fn answer<I: Source, O: Sink, E: Sink, A: Ambient>(
    alloc: Global,
    board: &mut Board,
    p: u32,
    hosts: &Hosts,
    tally: &mut Tally,
    input: &mut I,
    output: &mut O,
    errors: &mut E,
    ambient: &mut A,
) -> Result<(), Memory>
    requires { IsServing hosts.now p board.old.seats.items tally.old.written.items }
    ensures served { Serves hosts.now p result board.old.seats.items tally.old.written.items board.new.seats.items tally.new.written.items (devices (I.seen input.old) (O.seen output.old) (E.seen errors.old) (A.seen ambient.old)) (devices (I.seen input.new) (O.seen output.new) (E.seen errors.new) (A.seen ambient.new)) }
    ensures picks { tally.new.picks ≡ tally.old.picks }
    ensures turn { board.new.turn ≡ board.old.turn }
    ensures picker { board.new.picker ≡ board.old.picker }
{
    let given = ask(alloc, board.store(p), hosts, input, output, errors, ambient)?;
    tally.written[p as usize] += bytes_written(&given);
    board.answer(alloc, p, given)
}
