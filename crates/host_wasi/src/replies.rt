// Answers, and what they write.
ghost use Rattle.std.specs.Prelude.{◌≡◌, ◌++◌, length, take, IfOk, OnOk};
ghost use Rattle.spec_hosts.specs.spec_runtime.Memories.{little};
ghost use Rattle.spec_hosts.specs.Calls as calls;
ghost use Rattle.host_wasi.specs.Wants.{pairs};

use crate::want::Buffer;
use spec_hosts::wasm_form::{Answer, List, Memory, Write};
use std::alloc::Global;

/// The answer of an errno other than 0, which writes nothing.
pub(crate) fn refused(alloc: Global, errno: u64) -> Result<Answer, Memory>
    ensures { IfOk result (λ a. a ≡ calls.refused errno) }
{
    let results = vec![in alloc; errno; 1]?;
    Ok(Answer::Reply {
        results: List::of(results),
        writes: List::of(Vec::new(alloc)),
    })
}

/// The answer of a call that did what it is for.
pub(crate) fn success(alloc: Global, writes: Vec<Write>) -> Result<Answer, Memory>
    ensures { IfOk result (λ a. a ≡ calls.success writes.items) }
{
    let results = vec![in alloc; 0; 1]?;
    Ok(Answer::Reply {
        results: List::of(results),
        writes: List::of(writes),
    })
}

/// So many bytes of a number, the lowest first.
#[tactic(auto, using(crate::proofs::Bytes::little_next))]
pub fn little_bytes(alloc: Global, len: u8, value: u64) -> Result<Vec<u8>, Memory>
    ensures { IfOk result (λ bytes. bytes.items ≡ little len value) }
{
    let mut bytes = Vec::new(alloc);
    let mut rest = value;
    for _ in 0..len {
        bytes.push((rest % 256) as u8)?;
        rest /= 256;
    }
    Ok(bytes)
}

/// Adds a write of bytes, unless there are none.
pub(crate) fn add_bytes(writes: &mut Vec<Write>, at: u32, bytes: Vec<u8>) -> Result<(), Memory>
    ensures { OnOk result (writes.new.items ≡ writes.old.items ++ calls.bytes_at at bytes.items) }
{
    if bytes.is_empty() {
        return Ok(());
    }
    writes.push(Write {
        at,
        bytes: List::of(bytes),
    })?;
    Ok(())
}

/// Adds a write of a number of 32 bits.
pub(crate) fn add_word(
    alloc: Global,
    writes: &mut Vec<Write>,
    at: u32,
    n: u64,
) -> Result<(), Memory>
    ensures { OnOk result (writes.new.items ≡ writes.old.items ++ calls.word_at at n) }
{
    let bytes = little_bytes(alloc, 4, n)?;
    writes.push(Write {
        at,
        bytes: List::of(bytes),
    })?;
    Ok(())
}

/// The answer that writes a number of 32 bits.
pub(crate) fn counted(alloc: Global, out: u32, count: u64) -> Result<Answer, Memory>
    ensures { IfOk result (λ a. a ≡ calls.success (calls.word_at out count)) }
{
    let mut writes = Vec::new(alloc);
    add_word(alloc, &mut writes, out, count)?;
    success(alloc, writes)
}

/// The answer that writes a number of 64 bits.
pub(crate) fn one_number(alloc: Global, out: u32, value: u64) -> Result<Answer, Memory>
    ensures { IfOk result (λ a. a ≡ calls.success (calls.bytes_at out (little 8 value))) }
{
    let bytes = little_bytes(alloc, 8, value)?;
    one_write(alloc, out, bytes)
}

/// The answer that writes bytes, unless there are none.
fn one_write(alloc: Global, at: u32, bytes: Vec<u8>) -> Result<Answer, Memory>
    ensures { IfOk result (λ a. a ≡ calls.success (calls.bytes_at at bytes.items)) }
{
    let mut writes = Vec::new(alloc);
    add_bytes(&mut writes, at, bytes)?;
    success(alloc, writes)
}

/// The answer that writes bytes into buffers, in order, and then their number.
pub(crate) fn taken(
    alloc: Global,
    buffers: &[Buffer],
    bytes: &[u8],
    out: u32,
) -> Result<Answer, Memory>
    ensures { IfOk result (λ a. a ≡ calls.success (calls.filled (pairs buffers.now) bytes.now ++ calls.word_at out (length bytes.now))) }
{
    let mut writes = filled(alloc, buffers, bytes)?;
    add_word(alloc, &mut writes, out, bytes.len() as u64)?;
    success(alloc, writes)
}

/// The writes of bytes into buffers, in order.
fn filled(alloc: Global, buffers: &[Buffer], bytes: &[u8]) -> Result<Vec<Write>, Memory>
    ensures { IfOk result (λ writes. writes.items ≡ calls.filled (pairs buffers.now) bytes.now) }
{
    let mut writes = Vec::new(alloc);
    let mut rest = bytes;
    for buffer in buffers {
        let (part, after) = rest.split_at(rest.len().min(buffer.len as usize));
        add_bytes(&mut writes, buffer.at, part.to_vec(alloc)?)?;
        rest = after;
    }
    Ok(writes)
}

/// The answer that writes the first bytes of random words.
pub(crate) fn random(alloc: Global, at: u32, len: u32, words: &[u64]) -> Result<Answer, Memory>
    ensures { IfOk result (λ a. a ≡ calls.success (calls.bytes_at at (take len (calls.word_bytes words.now)))) }
{
    let mut bytes = word_bytes(alloc, words)?;
    bytes.truncate(len as usize);
    one_write(alloc, at, bytes)
}

/// The bytes of words, the lowest of each first.
fn word_bytes(alloc: Global, words: &[u64]) -> Result<Vec<u8>, Memory>
    ensures { IfOk result (λ bytes. bytes.items ≡ calls.word_bytes words.now) }
{
    let mut bytes = Vec::new(alloc);
    for word in words {
        bytes.extend_from_slice(&word.to_le_bytes())?;
    }
    Ok(bytes)
}
