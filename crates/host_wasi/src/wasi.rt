// The answer to a call.
ghost use Rattle.std.specs.Prelude.{◌≡◌};
ghost use Rattle.std.specs.Option.{option_map};
ghost use Rattle.spec_hosts.specs.Calls.{wanted};
ghost use Rattle.spec_hosts.specs.Devices.{devices};
ghost use Rattle.spec_hosts.specs.Hosted.{ComesTo};
ghost use Rattle.host_wasi.specs.Uses.{ComesToWhere};
ghost use Rattle.host_wasi.specs.Wants.{ArgumentsFit, FitWhere, meant};

use crate::calls::{Call, call_named};
use crate::fulfil::fulfil;
use crate::want::want_of;
use spec_hosts::dyl_outside::{Ambient, Sink, Source};
use spec_hosts::wasm_form::{Answer, Asked, List, Memory, Text};
use std::alloc::Global;
use std::marker::Model;
use wasm_space::Space;

/// The calls of WASI preview 1 for one program. Contracts see it as the texts of the program's arguments.
#[derive(Drop)]
pub struct Wasi {
    texts: List<Text>,
}

impl Model for Wasi {
    ghost use Rattle.std.specs.Prelude.{ℕ, List};

    ghost Value = { List (List ℕ) };

    ghost view = { λ w. w.texts };
}

impl Wasi {
    /// The calls for a program with these arguments, of which the first one is its name.
    pub fn new(_alloc: Global, args: List<Text>) -> Wasi
        ensures { result ≡ args }
    {
        Wasi { texts: args }
    }

    /// The answer to one call of a name of `wasi_snapshot_preview1`, over the memory at the call. Errno 29 comes only where the
    /// count of faults of the object that the call used rose in this call. At want of memory what the call wants of the devices may
    /// have been begun.
    pub fn ask<I: Source, O: Sink, E: Sink, A: Ambient>(
        &self,
        alloc: Global,
        name: &str,
        asked: &Asked,
        memory: &Space,
        input: &mut I,
        output: &mut O,
        errors: &mut E,
        ambient: &mut A,
    ) -> Result<Answer, Memory>
        requires { ArgumentsFit name.now asked.now.args }
        ensures { ComesTo (wanted self.now memory.now name.now asked.now.args) result (devices (I.seen input.old) (O.seen output.old) (E.seen errors.old) (A.seen ambient.old)) (devices (I.seen input.new) (O.seen output.new) (E.seen errors.new) (A.seen ambient.new)) }
    {
        self.answer(
            alloc,
            call_named(name),
            asked,
            memory,
            input,
            output,
            errors,
            ambient,
        )
    }

    /// The same where it is known which call the name is that of, or that it is that of none.
    pub fn answer<I: Source, O: Sink, E: Sink, A: Ambient>(
        &self,
        alloc: Global,
        call: Option<Call>,
        asked: &Asked,
        memory: &Space,
        input: &mut I,
        output: &mut O,
        errors: &mut E,
        ambient: &mut A,
    ) -> Result<Answer, Memory>
        requires { FitWhere (option_map meant call) asked.now.args }
        ensures { ComesToWhere self.now memory.now call asked.now.args result (devices (I.seen input.old) (O.seen output.old) (E.seen errors.old) (A.seen ambient.old)) (devices (I.seen input.new) (O.seen output.new) (E.seen errors.new) (A.seen ambient.new)) }
    {
        let want = want_of(alloc, self.texts.items(), memory, call, asked.args.items())?;
        fulfil(alloc, want, input, output, errors, ambient)
    }
}
