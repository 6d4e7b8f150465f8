// What a call wants of the devices, with what the memory holds before it.
ghost use Rattle.std.specs.Prelude.{◌≡◌, ℕ, List, ◌∷◌, [], IfOk, IsTrue};
ghost use Rattle.std.specs.Option.{option_map};
ghost use Rattle.spec_hosts.specs.spec_runtime.Hosts.{numbers_fit};
ghost use Rattle.spec_hosts.specs.spec_runtime.Memories.{MemoryInstance};
ghost use Rattle.spec_hosts.specs.Calls as calls;
ghost use Rattle.host_wasi.specs.Wants.{wanted_by, meant, FitWhere, Asks};

use crate::access::is_in;
use crate::arguments::{args_get, args_sizes_get};
use crate::buffers::{MOST_BYTES, fd_read, fd_write};
use crate::calls::Call;
use crate::descriptors::{fd_close, fd_fdstat_get, fd_seek};
use crate::replies::{refused, success};
use spec_hosts::wasm_form::{Answer, List, Memory, Text, Write};
use std::alloc::Global;
use wasm_space::Space;

/// The errno of a descriptor that can't be used so.
pub(crate) const BADF: u64 = 8;

/// The errno of bytes that don't lie in the memory.
pub(crate) const FAULT: u64 = 21;

/// The errno of an argument that can't be.
pub(crate) const INVAL: u64 = 28;

/// The errno of a call that isn't there.
const NOSYS: u64 = 52;

/// The errno of a descriptor in which there is no place to seek.
pub(crate) const SPIPE: u64 = 70;

/// Bytes of the memory: so many from an address on.
#[derive(Clone, Copy)]
pub(crate) struct Buffer {
    pub at: u32,
    pub len: u32,
}

/// An answer at once; or one use of a device, and where to write what comes of it.
#[derive(Drop)]
pub(crate) enum Want {
    Says(Answer),
    /// These bytes are put to the output, and their number is written.
    PutsOut {
        bytes: List<u8>,
        out: u32,
    },
    PutsError {
        bytes: List<u8>,
        out: u32,
    },
    /// At most so many bytes are taken and written into the buffers in order, and then their number.
    Takes {
        most: usize,
        buffers: List<Buffer>,
        out: u32,
    },
    /// The time is written.
    Times {
        out: u32,
    },
    /// So many random bytes are written.
    Draws {
        at: u32,
        len: u32,
    },
}

/// What a call wants, if the name is that of one, with the texts of the program's arguments and its own arguments.
pub(crate) fn want_of(
    alloc: Global,
    texts: &[Text],
    memory: &Space,
    call: Option<Call>,
    args: &[u64],
) -> Result<Want, Memory>
    requires { FitWhere (option_map meant call) args.now }
    ensures wanted { IfOk result (λ w. wanted_by w ≡ calls.wanted_where texts.now memory.now (option_map meant call) args.now) }
    ensures asks { IfOk result Asks }
{
    match call {
        Some(call) => want_of_call(alloc, texts, memory, call, args),
        None => refuse(alloc, NOSYS),
    }
}

/// What a call wants.
fn want_of_call(
    alloc: Global,
    texts: &[Text],
    memory: &Space,
    call: Call,
    args: &[u64],
) -> Result<Want, Memory>
    requires { IsTrue (numbers_fit (calls.params_of (meant call)) args.now) }
    ensures { IfOk result (λ w. wanted_by w ≡ calls.wanted_of texts.now memory.now (meant call) args.now) }
{
    match args {
        [a] => want_one(alloc, call, *a as u32),
        [a, b] => want_two(alloc, texts, memory, call, *a as u32, *b as u32),
        [a, b, c] => want_three(alloc, memory, call, *a as u32, *b, *c as u32),
        [a, b, c, d] => want_four(alloc, memory, call, *a as u32, *b, *c as u32, *d as u32),
        _ => refuse(alloc, NOSYS),
    }
}

/// What a call of one argument wants.
fn want_one(alloc: Global, call: Call, a: u32) -> Result<Want, Memory>
    requires { IsTrue (numbers_fit (calls.params_of (meant call)) (a ∷ [])) }
    ensures { (texts : List (List ℕ)) (memory : MemoryInstance) → IfOk result (λ w. wanted_by w ≡ calls.wanted_of texts memory (meant call) (a ∷ [])) }
{
    match call {
        Call::FdClose => fd_close(alloc, a),
        Call::ProcExit => Ok(Want::Says(Answer::Exit(a))),
        _ => refuse(alloc, NOSYS),
    }
}

/// What a call of two arguments wants.
fn want_two(
    alloc: Global,
    texts: &[Text],
    memory: &Space,
    call: Call,
    a: u32,
    b: u32,
) -> Result<Want, Memory>
    requires { IsTrue (numbers_fit (calls.params_of (meant call)) (a ∷ b ∷ [])) }
    ensures { IfOk result (λ w. wanted_by w ≡ calls.wanted_of texts.now memory.now (meant call) (a ∷ b ∷ [])) }
{
    match call {
        Call::ArgsSizesGet => args_sizes_get(alloc, texts, memory, a, b),
        Call::ArgsGet => args_get(alloc, texts, memory, a, b),
        Call::EnvironSizesGet => args_sizes_get(alloc, &[], memory, a, b),
        Call::EnvironGet => succeed(alloc, Vec::new(alloc)),
        Call::FdFdstatGet => fd_fdstat_get(alloc, memory, a, b),
        Call::FdPrestatGet => refuse(alloc, BADF),
        Call::RandomGet => random_get(alloc, memory, a, b),
        _ => refuse(alloc, NOSYS),
    }
}

/// What a call of three arguments wants.
fn want_three(
    alloc: Global,
    memory: &Space,
    call: Call,
    a: u32,
    b: u64,
    c: u32,
) -> Result<Want, Memory>
    requires { IsTrue (numbers_fit (calls.params_of (meant call)) (a ∷ b ∷ c ∷ [])) }
    ensures { (texts : List (List ℕ)) → IfOk result (λ w. wanted_by w ≡ calls.wanted_of texts memory.now (meant call) (a ∷ b ∷ c ∷ [])) }
{
    match call {
        Call::FdPrestatDirName => refuse(alloc, BADF),
        Call::ClockTimeGet => clock_time_get(alloc, memory, a, c),
        _ => refuse(alloc, NOSYS),
    }
}

/// What a call of four arguments wants.
fn want_four(
    alloc: Global,
    memory: &Space,
    call: Call,
    a: u32,
    b: u64,
    c: u32,
    d: u32,
) -> Result<Want, Memory>
    requires { IsTrue (numbers_fit (calls.params_of (meant call)) (a ∷ b ∷ c ∷ d ∷ [])) }
    ensures { (texts : List (List ℕ)) → IfOk result (λ w. wanted_by w ≡ calls.wanted_of texts memory.now (meant call) (a ∷ b ∷ c ∷ d ∷ [])) }
{
    match call {
        Call::FdWrite => fd_write(alloc, memory, a, b as u32, c, d),
        Call::FdRead => fd_read(alloc, memory, a, b as u32, c, d),
        Call::FdSeek => fd_seek(alloc, a),
        _ => refuse(alloc, NOSYS),
    }
}

/// What clock_time_get wants: the time of one of the two clocks is written.
fn clock_time_get(alloc: Global, memory: &Space, id: u32, out: u32) -> Result<Want, Memory>
    ensures { IfOk result (λ w. wanted_by w ≡ calls.time_wanted memory.now id out) }
{
    if id > 1 {
        return refuse(alloc, INVAL);
    }
    if !is_in(memory, out, 8) {
        return refuse(alloc, FAULT);
    }
    Ok(Want::Times { out })
}

/// What random_get wants: random bytes are written.
fn random_get(alloc: Global, memory: &Space, at: u32, len: u32) -> Result<Want, Memory>
    ensures { IfOk result (λ w. wanted_by w ≡ calls.random_wanted memory.now at len) }
{
    if !is_in(memory, at, u128::from(len)) {
        return refuse(alloc, FAULT);
    }
    if len > MOST_BYTES {
        return refuse(alloc, INVAL);
    }
    Ok(Want::Draws { at, len })
}

/// The answer of an errno at once.
pub(crate) fn refuse(alloc: Global, errno: u64) -> Result<Want, Memory>
    ensures { IfOk result (λ w. wanted_by w ≡ calls.Says (calls.refused errno)) }
{
    Ok(Want::Says(refused(alloc, errno)?))
}

/// The answer of a success at once, with what it writes.
pub(crate) fn succeed(alloc: Global, writes: Vec<Write>) -> Result<Want, Memory>
    ensures { IfOk result (λ w. wanted_by w ≡ calls.Says (calls.success writes.items)) }
{
    Ok(Want::Says(success(alloc, writes)?))
}
