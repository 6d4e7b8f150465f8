// The steps of a turn.
ghost use Rattle.std.specs.Prelude.{◌≡◌, ◌≤◌, Some, None, false, IfOk, OnErr};
ghost use Rattle.spec_loading.specs.spec_runtime.Courses.{is_waiting};
ghost use Rattle.dyl_store.specs.Stores.{set_course};
ghost use Rattle.slice_board.specs.Taken.{MadeTurn, LostTurn};
ghost use Rattle.slice_board.specs.Steps.{first_stop, stop_seen, deep_stop, GoesOn, GetsLost};

use crate::board::Seat;
use dyl_store::{Event, Store};
use spec_boards::Stop;
use spec_loading::wasm_form::Memory;
use std::alloc::Global;

// The first cause to stop of those that are seen before a step.
fn first_stop(ended: bool, limited: bool, waits: bool, spent: bool) -> Option<Stop>
    ensures { result ≡ first_stop ended limited waits spent }
{
    if ended {
        Some(Stop::Ended)
    } else if limited {
        Some(Stop::StepLimit)
    } else if waits {
        Some(Stop::Waits)
    } else if spent {
        Some(Stop::Spent)
    } else {
        None
    }
}

// The cause to stop before the next step, unless that step is too deep. Where there is none the run doesn't wait.
fn stop_of(store: &Store, most: u64, until: u64) -> Option<Stop>
    ensures seen { store.now.run.lost ≡ false → result ≡ stop_seen (set_course store.now.linked) most until store.now.run }
    ensures answered { result ≡ None → store.now.run.lost ≡ false → is_waiting (set_course store.now.linked) store.now.run ≡ false }
{
    let steps = store.steps();
    first_stop(
        store.has_ended(),
        steps == most,
        store.waiting(),
        steps == until,
    )
}

// The stop of a step that is too deep.
fn deep_stop(event: &Event) -> Option<Stop>
    ensures { result ≡ deep_stop event.now }
{
    match event {
        Event::Deep => Some(Stop::Deep),
        _ => None,
    }
}

// Makes steps of code, and then tells the stop that is due, or makes one step more.
fn go_on(store: &mut Store, alloc: Global, most: u64, until: u64) -> Result<Option<Stop>, Memory>
    requires few { store.old.run.steps ≤ until }
    requires limit { until ≤ most }
    ensures goes { IfOk result (λ why. GoesOn most until why store.old store.new) }
    ensures lost { OnErr result (GetsLost most until store.old store.new) }
    ensures linked { store.new.linked ≡ store.old.linked }
{
    store.advance(alloc, until)?;
    if let Some(why) = stop_of(store, most, until) {
        return Ok(Some(why));
    }
    let event = store.run_step(alloc)?;
    let why = deep_stop(&event);
    drop(event);
    Ok(why)
}

// Makes steps until a stop is due.
fn make_steps(store: &mut Store, alloc: Global, most: u64, until: u64) -> Result<Stop, Memory>
    requires few { store.old.run.steps ≤ until }
    requires limit { until ≤ most }
    ensures stops { IfOk result (λ why. GoesOn most until (Some why) store.old store.new) }
    ensures lost { OnErr result (GetsLost most until store.old store.new) }
    ensures linked { store.new.linked ≡ store.old.linked }
{
    loop {
        if let Some(why) = go_on(store, alloc, most, until)? {
            return Ok(why);
        }
    }
}

// Takes a turn of the program of a seat: how many steps it made, and why it stopped.
pub(crate) fn take_turn(seat: &mut Seat, alloc: Global, slice: u32) -> Result<(u32, Stop), Memory>
    requires few { seat.old.store.run.steps ≤ seat.old.most }
    ensures made { IfOk result (λ t. MadeTurn slice seat.old seat.new t.0 t.1) }
    ensures lost { OnErr result (LostTurn slice seat.old seat.new) }
    ensures few { seat.new.store.run.steps ≤ seat.new.most }
    ensures linked { seat.new.store.linked ≡ seat.old.store.linked }
    ensures most { seat.new.most ≡ seat.old.most }
{
    let start = seat.store.steps();
    let until = seat.most.min(start.saturating_add(slice as u64));
    let why = make_steps(&mut seat.store, alloc, seat.most, until)?;
    Ok(((seat.store.steps() - start) as u32, why))
}
