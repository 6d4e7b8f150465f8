// A run without what is recorded of it.
ghost use Rattle.std.specs.Prelude.{◌≡◌, ◌≢◌, ◌<◌, map, IfOk, OnOk, OnErr};
ghost use Rattle.host_table.specs.Names.{host_name_of};
ghost use Rattle.wasm_recorder.specs.Bares.{Bares};
ghost use Rattle.wasm_recorder.specs.Runs.{StepsFrom, WantsFrom, Asks, IsSomewhere, RunsFrom, MayTake, TakesFrom, Tells, Shows};

use host_table::HostName;
use std::alloc::Global;
use wasm_form::Memory;
use wasm_machine::{Answer, Done, Event, Standing};
use wasm_space::Space;

/// The run of one `K`, of which nothing is counted or recorded. Contracts see it by a record of definitions.
pub trait Bare<K>: Drop {
    ghost runs: { Bares Self K };

    /// One step of a run that goes on by itself.
    fn step(&mut self, alloc: Global) -> Result<Event, Memory>
        requires whole { runs.IsWhole self.old }
        requires sound { runs.IsSound self.old }
        requires stands { IsSomewhere runs self.old }
        requires moving { runs.standing self.old ≡ Standing.Moving }
        ensures stepped { IfOk result (λ e. StepsFrom runs e self.old self.new) }
        ensures arguments { IfOk result (λ e. Asks runs e self.old) }
        ensures wanting { OnErr result (WantsFrom runs self.old) }
        ensures sound { OnOk result (runs.IsSound self.new) }
        ensures whole { runs.IsWhole self.new }
        ensures key { runs.key self.new ≡ runs.key self.old };

    /// Steps of code, so many or fewer, where the machine can tell them in few bytes: how many were made, and what the next one came to.
    fn run(&mut self, alloc: Global, most: u64) -> (u64, Done)
        requires whole { runs.IsWhole self.old }
        requires sound { runs.IsSound self.old }
        requires moving { runs.standing self.old ≡ Standing.Moving }
        requires some { 0 < most }
        ensures ran { RunsFrom runs result.0 result.1 self.old self.new }
        ensures sound { result.1 ≢ Done.NoMemory → runs.IsSound self.new }
        ensures most { result.1 ≡ Done.Goes → result.0 ≡ most }
        ensures fewer { result.1 ≢ Done.Goes → result.0 < most }
        ensures whole { runs.IsWhole self.new }
        ensures key { runs.key self.new ≡ runs.key self.old };

    /// Takes the answer of the host function that is waited for.
    fn take(&mut self, a: &Answer)
        requires whole { runs.IsWhole self.old }
        requires sound { runs.IsSound self.old }
        requires fits { MayTake runs self.old a.now }
        ensures taken { TakesFrom runs a.now self.old self.new }
        ensures sound { runs.IsSound self.new }
        ensures whole { runs.IsWhole self.new }
        ensures key { runs.key self.new ≡ runs.key self.old };

    /// How its machine stands.
    fn standing(&self) -> Standing
        ensures is { result ≡ runs.standing self.now }
        ensures tells { Tells runs self.now };

    /// Its memory.
    fn memory(&self) -> &Space
        ensures { Shows runs self.now result.now };

    /// The host functions, by their entries.
    fn hosts(&self) -> &[HostName]
        requires { runs.IsWhole self.now }
        ensures { map host_name_of result.now ≡ runs.hosts (runs.key self.now) };
}
