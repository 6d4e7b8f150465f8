// The buffers of a call, which vectors in the memory name: pairs of a pointer and a length.
ghost use Rattle.std.specs.Prelude.{◌≡◌, ◌≤◌, ◌+◌, ◌*◌, ◌<◌, ◌++◌, length, take, IfOk, OnOk, MatchOption, IsTrue};
ghost use Rattle.spec_hosts.specs.Calls as calls;
ghost use Rattle.host_wasi.specs.Wants.{wanted_by, pairs};
ghost use Rattle.host_wasi.specs.Buffers.{AreFit, IsRefused, bytes_of};

use crate::access::{byte_at, is_in, number_at};
use crate::replies::add_word;
use crate::want::{BADF, Buffer, FAULT, INVAL, Want, refuse, succeed};
use spec_hosts::wasm_form::{List, Memory};
use std::alloc::Global;
use wasm_space::Space;

/// The most vectors that one call may name.
const MOST_VECTORS: u32 = 1024;

/// The most bytes that one call moves.
pub(crate) const MOST_BYTES: u32 = 65_536;

/// What fd_write wants: the bytes of the buffers are put out.
pub(crate) fn fd_write(
    alloc: Global,
    memory: &Space,
    fd: u32,
    vectors: u32,
    n: u32,
    out: u32,
) -> Result<Want, Memory>
    ensures { IfOk result (λ w. wanted_by w ≡ calls.write_wanted memory.now fd vectors n out) }
{
    if fd != 1 && fd != 2 {
        return refuse(alloc, BADF);
    }
    if let Some(errno) = refusal(memory, vectors, n, out) {
        return refuse(alloc, errno);
    }
    let buffers = buffers_at(alloc, memory, vectors, n)?;
    let bytes = joined(alloc, memory, &buffers)?;
    written_out(alloc, fd, out, bytes)
}

/// What fd_read wants: bytes are taken into the buffers.
pub(crate) fn fd_read(
    alloc: Global,
    memory: &Space,
    fd: u32,
    vectors: u32,
    n: u32,
    out: u32,
) -> Result<Want, Memory>
    ensures { IfOk result (λ w. wanted_by w ≡ calls.read_wanted memory.now fd vectors n out) }
{
    if fd != 0 {
        return refuse(alloc, BADF);
    }
    if let Some(errno) = refusal(memory, vectors, n, out) {
        return refuse(alloc, errno);
    }
    let buffers = buffers_at(alloc, memory, vectors, n)?;
    read_in(alloc, out, buffers)
}

/// The errno of a call whose vectors or whose place for a number are not as they have to be.
fn refusal(memory: &Space, vectors: u32, n: u32, out: u32) -> Option<u64>
    ensures { MatchOption result (AreFit memory.now vectors n out) (IsRefused memory.now vectors n out) }
{
    if n > MOST_VECTORS {
        return Some(INVAL);
    }
    if !is_in(memory, vectors, 8 * u128::from(n))
        || !are_in(memory, vectors, n)
        || !is_in(memory, out, 4)
    {
        return Some(FAULT);
    }
    None
}

/// Whether the buffers of so many vectors lie inside the memory.
#[tactic(auto, using(crate::proofs::Vectors::are_in_more))]
fn are_in(memory: &Space, vectors: u32, n: u32) -> bool
    requires few { n ≤ calls.most_vectors }
    requires vectors_in { vectors + 8 * n ≤ length memory.now.bytes }
    ensures { result ≡ calls.are_in memory.now (calls.vectors_at memory.now vectors n) }
{
    for k in 0..n {
        let buffer = buffer_at(memory, vectors, k);
        if !is_in(memory, buffer.at, u128::from(buffer.len)) {
            return false;
        }
    }
    true
}

/// The buffer of the vector at place `k`.
fn buffer_at(memory: &Space, vectors: u32, k: u32) -> Buffer
    requires few { k < calls.most_vectors }
    requires vectors_in { vectors + 8 * k + 8 ≤ length memory.now.bytes }
    ensures at { result.at ≡ calls.number_at memory.now (vectors + 8 * k) }
    ensures len { result.len ≡ calls.number_at memory.now (vectors + 8 * k + 4) }
{
    Buffer {
        at: number_at(memory, vectors, 8 * k),
        len: number_at(memory, vectors, 8 * k + 4),
    }
}

/// The buffers of so many vectors.
#[tactic(auto, using(crate::proofs::Vectors::buffers_more))]
fn buffers_at(alloc: Global, memory: &Space, vectors: u32, n: u32) -> Result<Vec<Buffer>, Memory>
    requires few { n ≤ calls.most_vectors }
    requires vectors_in { vectors + 8 * n ≤ length memory.now.bytes }
    ensures { IfOk result (λ buffers. pairs buffers.items ≡ calls.vectors_at memory.now vectors n) }
{
    let mut buffers = Vec::new(alloc);
    for k in 0..n {
        buffers.push(buffer_at(memory, vectors, k))?;
    }
    Ok(buffers)
}

/// The first bytes of the buffers, joined, as many as one call moves at the most.
fn joined(alloc: Global, memory: &Space, buffers: &[Buffer]) -> Result<Vec<u8>, Memory>
    requires { IsTrue (calls.are_in memory.now (pairs buffers.now)) }
    ensures { IfOk result (λ bytes. bytes.items ≡ take calls.most_bytes (calls.joined memory.now (pairs buffers.now))) }
{
    let mut bytes = Vec::new(alloc);
    for buffer in buffers {
        add_front(memory, *buffer, &mut bytes)?;
    }
    Ok(bytes)
}

/// Adds the bytes of a buffer, as far as there is room for them.
fn add_front(memory: &Space, buffer: Buffer, bytes: &mut Vec<u8>) -> Result<(), Memory>
    requires few { length bytes.old.items ≤ calls.most_bytes }
    requires is_in { buffer.at + buffer.len ≤ length memory.now.bytes }
    ensures { OnOk result (bytes.new.items ≡ take calls.most_bytes (bytes.old.items ++ bytes_of memory.now buffer)) }
{
    let room = MOST_BYTES - bytes.len() as u32;
    for k in 0..buffer.len.min(room) {
        bytes.push(byte_at(memory, buffer.at, k))?;
    }
    Ok(())
}

/// Bytes are put out, unless there are none.
fn written_out(alloc: Global, fd: u32, out: u32, bytes: Vec<u8>) -> Result<Want, Memory>
    ensures { IfOk result (λ w. wanted_by w ≡ calls.written_out fd out bytes.items) }
{
    if bytes.is_empty() {
        return none_moved(alloc, out);
    }
    let bytes = List::of(bytes);
    if fd == 1 {
        Ok(Want::PutsOut { bytes, out })
    } else {
        Ok(Want::PutsError { bytes, out })
    }
}

/// Bytes are taken into buffers, unless these are empty.
fn read_in(alloc: Global, out: u32, buffers: Vec<Buffer>) -> Result<Want, Memory>
    requires { length buffers.items ≤ calls.most_vectors }
    ensures { IfOk result (λ w. wanted_by w ≡ calls.read_in out (pairs buffers.items) (calls.sizes (pairs buffers.items))) }
{
    let most = sizes(&buffers).min(u64::from(MOST_BYTES));
    if most == 0 {
        return none_moved(alloc, out);
    }
    Ok(Want::Takes {
        most: most as usize,
        buffers: List::of(buffers),
        out,
    })
}

/// How many bytes the buffers hold.
fn sizes(buffers: &[Buffer]) -> u64
    requires { length buffers.now ≤ calls.most_vectors }
    ensures { result ≡ calls.sizes (pairs buffers.now) }
{
    let mut sum = 0;
    for buffer in buffers {
        sum += u64::from(buffer.len);
    }
    sum
}

/// No byte was moved.
fn none_moved(alloc: Global, out: u32) -> Result<Want, Memory>
    ensures { IfOk result (λ w. wanted_by w ≡ calls.Says (calls.success (calls.word_at out 0))) }
{
    let mut writes = Vec::new(alloc);
    add_word(alloc, &mut writes, out, 0)?;
    succeed(alloc, writes)
}
