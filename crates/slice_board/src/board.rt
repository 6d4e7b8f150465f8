// A board: the programs, what picks one, and the number of the next turn.
ghost use Rattle.std.specs.Prelude.{◌≡◌, ◌<◌, ◌≤◌, ◌++◌, ◌∷◌, [], length, IfOk, IfErr, OnErr, OnOk, slice_get, Some};
ghost use Rattle.std.specs.List.{All};
ghost use Rattle.spec_loading.specs.spec_runtime.Courses.{no_steps};
ghost use Rattle.wasm_machine.specs.Steps.{Awaits};
ghost use Rattle.dyl_store.specs.Stores.{set_course};
ghost use Rattle.slice_board.specs.Taken.{most_programs, next_turn, picks_of, TakesTurn, Answers, IsFull};

use crate::picker::Picker;
use crate::steps::take_turn;
use dyl_store::{Answer, Store};
use spec_boards::{Stop, Turn};
use spec_loading::wasm_form::Memory;
use std::alloc::{AllocFailed, Global};

// The most programs of a board.
const MOST_PROGRAMS: usize = 64;

/// A program on a board, with the most steps that it may make.
#[derive(Drop)]
pub struct Seat<'m> {
    pub store: Store<'m>,
    pub most: u64,
}

/// At most 64 programs in their order, the number of the next turn, and what picks the program of a turn.
#[derive(Drop)]
pub struct Board<'m> {
    picker: &'m Picker,
    seats: Vec<Seat<'m>>,
    turn: u64,
    ghost few: { length seats.items ≤ most_programs },
    ghost within: { All (λ seat. seat.store.run.steps ≤ seat.most) seats.items },
}

/// Why a program wasn't added. An earlier one goes first.
#[derive(Clone, Copy, Debug, PartialEq, Eq)]
pub enum BoardFault {
    /// There are 64 programs.
    Full,
    /// No memory could be had.
    Memory,
}

/// A program that wasn't added, and why.
#[derive(Drop)]
pub struct BoardRefused<'m> {
    pub fault: BoardFault,
    pub store: Store<'m>,
}

impl<'m> Board<'m> {
    /// A board without programs, before its first turn, which is that of number 0.
    pub fn new(alloc: Global, picker: &'m Picker) -> Board<'m>
        ensures picker { result.picker.now ≡ picker.now }
        ensures turn { result.turn ≡ 0 }
        ensures none { result.seats.items ≡ [] }
    {
        Board {
            picker,
            seats: Vec::new(alloc),
            turn: 0,
        }
    }

    /// How many programs there are.
    pub fn count(&self) -> u32
        ensures value { result ≡ length self.now.seats.items }
        ensures few { result ≤ most_programs }
    {
        self.seats.len() as u32
    }

    /// The program of a number as it stands.
    pub fn store(&self, p: u32) -> &Store<'m>
        requires { p < length self.now.seats.items }
        ensures { (seat : Seat) × (slice_get self.now.seats.items p ≡ Some seat) × (result.now ≡ seat.store) }
    {
        &self.seats[p as usize].store
    }

    /// Adds a program that has made no step, which may make so many; its number. It is given back as `Full` exactly where there are 64 programs,
    /// else for want of memory; the board then stays as it is.
    pub fn add(
        &mut self,
        alloc: Global,
        store: Store<'m>,
        steps: u64,
    ) -> Result<u32, BoardRefused<'m>>
        requires { store.run ≡ no_steps }
        ensures number { IfOk result (λ p. p ≡ length self.old.seats.items) }
        ensures added { OnOk result (self.new.seats.items ≡ self.old.seats.items ++ (record { store = store.entry; most = steps }) ∷ []) }
        ensures full { IfErr result (λ r. IsFull r.fault (length self.old.seats.items)) }
        ensures back { IfErr result (λ r. r.store ≡ store.entry) }
        ensures same { OnErr result (self.new.seats.items ≡ self.old.seats.items) }
        ensures turn { self.new.turn ≡ self.old.turn }
        ensures picker { self.new.picker ≡ self.old.picker }
    {
        if self.seats.len() == MOST_PROGRAMS {
            return Err(BoardRefused {
                fault: BoardFault::Full,
                store,
            });
        }
        let number = self.seats.len() as u32;
        match self.seats.push(Seat { store, most: steps }) {
            Ok(()) => Ok(number),
            Err(AllocFailed { value: seat }) => Err(BoardRefused {
                fault: BoardFault::Memory,
                store: seat.store,
            }),
        }
    }

    /// Takes the next turn: a program is picked, and makes at most so many steps. Before each one these stops are looked for in their order, and
    /// the first that applies ends the turn: it has ended, its limit of steps is reached, it waits for an answer, the turn is spent, the step would
    /// pass a limit of depth. Memory may be wanting where a step of the program wants it: then that program makes no step any more, and answers
    /// `Memory` at each of its turns. All others stay as they are.
    pub fn turn(&mut self, alloc: Global, slice: u32) -> Result<Turn, Memory>
        requires { 0 < length self.old.seats.items }
        ensures taken { TakesTurn (picks_of self.old.picker.now) slice result self.old.turn self.old.seats.items self.new.seats.items }
        ensures next { self.new.turn ≡ next_turn self.old.turn }
        ensures picker { self.new.picker ≡ self.old.picker }
    {
        let picked = self.picker.pick(self.turn, self.seats.len() as u64);
        self.turn = self.turn.saturating_add(1);
        let (steps, stop) = take_turn(&mut self.seats[picked as usize], alloc, slice)?;
        Ok(Turn {
            program: picked as u32,
            steps,
            stop,
        })
    }

    /// Records the answer to the host call that a program waits for. At want of memory that program makes no step any more, and answers `Memory` at
    /// each of its turns.
    pub fn answer(&mut self, alloc: Global, p: u32, a: Answer) -> Result<(), Memory>
        requires { (seat : Seat) × (slice_get self.old.seats.items p ≡ Some seat) × Awaits (set_course seat.store.linked) seat.store.run a }
        ensures answered { Answers p a result self.old.seats.items self.new.seats.items }
        ensures turn { self.new.turn ≡ self.old.turn }
        ensures picker { self.new.picker ≡ self.old.picker }
    {
        self.seats[p as usize].store.answer(alloc, a)
    }

    /// The programs themselves, in order.
    pub fn into_seats(self) -> Vec<Seat<'m>>
        ensures { result.items ≡ self.entry.seats.items }
    {
        self.seats
    }
}
