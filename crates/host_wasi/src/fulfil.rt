// One use of a device.
ghost use Rattle.std.specs.Prelude.{◌<◌, ◌+◌, ◌/◌, ◌++◌, [], length, take, IfOk, OnErr};
ghost use Rattle.spec_hosts.specs.spec_runtime.Memories.{little};
ghost use Rattle.spec_hosts.specs.Calls as calls;
ghost use Rattle.spec_hosts.specs.Devices.{devices};
ghost use Rattle.spec_hosts.specs.Hosted.{IsAnswered, MayBegin, Draws, DrawsSome};
ghost use Rattle.host_wasi.specs.Wants.{wanted_by, pairs, Asks};
ghost use Rattle.host_wasi.specs.Uses.{PutAnswered, TakeAnswered, TimeAnswered, Drawn};

use crate::replies::{counted, one_number, random, refused, taken};
use crate::want::{Buffer, Want};
use spec_hosts::dyl_outside::{Ambient, IoFault, Sink, Source};
use spec_hosts::wasm_form::{Answer, Memory};
use std::alloc::Global;

/// The errno of a device that failed.
const IO: u64 = 29;

/// Does what is wanted, and answers what came of it: errno 29 only where the object that was used failed.
pub(crate) fn fulfil<I: Source, O: Sink, E: Sink, A: Ambient>(
    alloc: Global,
    want: Want,
    input: &mut I,
    output: &mut O,
    errors: &mut E,
    ambient: &mut A,
) -> Result<Answer, Memory>
    requires { Asks want }
    ensures answered { IfOk result (λ a. IsAnswered (wanted_by want) a (devices (I.seen input.old) (O.seen output.old) (E.seen errors.old) (A.seen ambient.old)) (devices (I.seen input.new) (O.seen output.new) (E.seen errors.new) (A.seen ambient.new))) }
    ensures begun { OnErr result (MayBegin (wanted_by want) (devices (I.seen input.old) (O.seen output.old) (E.seen errors.old) (A.seen ambient.old)) (devices (I.seen input.new) (O.seen output.new) (E.seen errors.new) (A.seen ambient.new))) }
{
    match want {
        Want::Says(answer) => Ok(answer),
        Want::PutsOut { bytes, out } => put(alloc, bytes.items(), out, output),
        Want::PutsError { bytes, out } => put(alloc, bytes.items(), out, errors),
        Want::Takes { most, buffers, out } => take(alloc, most, buffers.items(), out, input),
        Want::Times { out } => tell_time(alloc, out, ambient),
        Want::Draws { at, len } => draw(alloc, at, len, ambient),
    }
}

/// Puts bytes to a sink, and answers by their number.
fn put<S: Sink>(alloc: Global, bytes: &[u8], out: u32, sink: &mut S) -> Result<Answer, Memory>
    ensures { PutAnswered bytes.now (calls.success (calls.word_at out (length bytes.now))) result (S.seen sink.old) (S.seen sink.new) }
{
    match sink.put(alloc, bytes) {
        Ok(()) => counted(alloc, out, bytes.len() as u64),
        Err(IoFault::Failed) => refused(alloc, IO),
        Err(IoFault::Memory) => Err(Memory),
    }
}

/// Takes bytes from a source, and answers by them in the buffers and by their number.
fn take<S: Source>(
    alloc: Global,
    most: usize,
    buffers: &[Buffer],
    out: u32,
    source: &mut S,
) -> Result<Answer, Memory>
    requires { 0 < most }
    ensures { TakeAnswered most (λ bytes. calls.success (calls.filled (pairs buffers.now) bytes ++ calls.word_at out (length bytes))) result (S.seen source.old) (S.seen source.new) }
{
    match source.take(alloc, most) {
        Ok(bytes) => taken(alloc, buffers, &bytes, out),
        Err(IoFault::Failed) => refused(alloc, IO),
        Err(IoFault::Memory) => Err(Memory),
    }
}

/// Answers by the time.
fn tell_time<A: Ambient>(alloc: Global, out: u32, ambient: &mut A) -> Result<Answer, Memory>
    ensures { TimeAnswered (λ t. calls.success (calls.bytes_at out (little 8 t))) result (A.seen ambient.old) (A.seen ambient.new) }
{
    match ambient.now(alloc) {
        Ok(time) => one_number(alloc, out, time),
        Err(IoFault::Failed) => refused(alloc, IO),
        Err(IoFault::Memory) => Err(Memory),
    }
}

/// Answers by so many random bytes.
fn draw<A: Ambient>(alloc: Global, at: u32, len: u32, ambient: &mut A) -> Result<Answer, Memory>
    ensures answered { IfOk result (λ a. Draws ((len + 7) / 8) [] (λ words. calls.success (calls.bytes_at at (take len (calls.word_bytes words)))) a (A.seen ambient.old) (A.seen ambient.new)) }
    ensures begun { DrawsSome ((len + 7) / 8) (A.seen ambient.old) (A.seen ambient.new) }
{
    // A word has eight bytes.
    match draw_words(alloc, (len as u64 + 7) / 8, ambient) {
        Ok(words) => random(alloc, at, len, &words),
        Err(IoFault::Failed) => refused(alloc, IO),
        Err(IoFault::Memory) => Err(Memory),
    }
}

/// Draws so many random words, up to the first that fails.
fn draw_words<A: Ambient>(alloc: Global, count: u64, ambient: &mut A) -> Result<Vec<u64>, IoFault>
    ensures drawn { Drawn count result (A.seen ambient.old) (A.seen ambient.new) }
    ensures begun { DrawsSome count (A.seen ambient.old) (A.seen ambient.new) }
{
    let mut words = Vec::new(alloc);
    for _ in 0..count {
        match ambient.word(alloc) {
            Ok(word) => {
                if words.push(word).is_err() {
                    return Err(IoFault::Memory);
                }
            }
            Err(fault) => return Err(fault),
        }
    }
    Ok(words)
}
