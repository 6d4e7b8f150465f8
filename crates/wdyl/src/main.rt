//! `wdyl run MAIN` runs a main WebAssembly module with the libraries that it needs, `wdyl merge MAIN OUT` makes one module of them,
//! `wdyl plan MAIN` lists how they are placed and linked, `wdyl exec FILE` runs one module, `wdyl gen N` makes a set and runs it as
//! loaded and as merged, `wdyl trace MAIN OUT` writes what a run was, `wdyl replay TRACE MAIN` checks that, `wdyl snap MAIN OUT` writes
//! one module that goes on where start-up ended, and `wdyl board MAIN ..` runs the sets of several main modules in turns.
#![tactic(auto)]

ghost use Rattle.std.specs.Prelude.{◌≡◌, ◌<◌, ◌%◌};

use dyl_app::{Outcome, Picker, serve_to_end, tell_to_end};
use dyl_front::collected;
use dyl_outside::{DiskFiles, HostAmbient, StreamSink, StreamSource};
use host_table::HostTable;
use std::env;
use std::process::ExitCode;

/// Each program of a board in its turn.
fn in_turns(turn: u64, count: u64) -> u64
    requires { 0 < count }
    ensures below { result < count }
    ensures in_turn { result ≡ turn % count }
{
    turn % count
}

fn main(rt: HostRuntime) -> ExitCode {
    let alloc = rt.alloc();
    let mut files = DiskFiles::new(&rt);
    let mut input = StreamSource::new(rt.stdin());
    let mut output = StreamSink::new(rt.stdout());
    let mut errors = StreamSink::new(rt.stderr());
    let mut ambient = HostAmbient::new(&rt);
    let host = HostTable::new(alloc);
    let (outcome, code) = match collected(alloc, env::args(&rt)) {
        Ok(words) => match Box::new(alloc, in_turns) {
            Ok(pick) => serve_to_end(
                alloc,
                &words,
                &mut files,
                &mut input,
                &mut output,
                &mut errors,
                &mut ambient,
                &host,
                &Picker::new(pick),
            ),
            Err(_) => tell_to_end(alloc, Outcome::Memory, &mut errors),
        },
        Err(outcome) => tell_to_end(alloc, outcome, &mut errors),
    };
    drop(outcome);
    code
}
