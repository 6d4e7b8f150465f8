// What is written of a memory.
ghost use Rattle.std.specs.Prelude.{◌≡◌, ◌≤◌, ◌<◌, ◌+◌, ◌^◌, ◌++◌, length, map, take, drop, slice_index, IfOk, OnOk};
ghost use Rattle.std.specs.List.{All};
ghost use Rattle.snap_module.specs.Held.{memory_data, offset_expr};
ghost use Rattle.snap_parts.specs.Found.{cut, EndsBy, AreFound};
ghost use Rattle.spec_snapshots.specs.Stretches.{memory_gap};

use crate::pieces::{Piece, note};
use merge_pieces::number;
use std::alloc::Global;
use wasm_form::{Data, DataMode, Expr, List, Memory};
use wasm_space::Space;

// The bytes of a page.
const PAGE: usize = 65_536;

// The longest run of zeros that is written.
pub(crate) fn memory_gap(memory: &Space) -> usize
    ensures gap { result ≡ memory_gap memory.now }
    ensures few { result ≤ 65536 }
{
    let pages = memory.size() as usize;
    if pages < 16 { 16 } else { pages }
}

// Notes a byte, if it isn't zero.
#[inline(always)]
fn note_byte(
    pieces: &mut Vec<Piece>,
    memory: &Space,
    gap: usize,
    i: usize,
    byte: u8,
) -> Result<(), Memory>
    requires gap { gap < 2 ^ 40 }
    requires few { length memory.now.bytes ≤ 2 ^ 32 }
    requires inside { i < length memory.now.bytes }
    requires is { byte ≡ slice_index memory.now.bytes i }
    requires found { AreFound 0 gap memory.now.bytes i pieces.old.items }
    ensures { OnOk result (AreFound 0 gap memory.now.bytes (i + 1) pieces.new.items) }
{
    if byte == 0 {
        return Ok(());
    }
    note(pieces, gap, i)?;
    Ok(())
}

// Notes the bytes from an address on to the end of its page, and gives the address behind them.
fn find_in_page(
    pieces: &mut Vec<Piece>,
    memory: &Space,
    gap: usize,
    at: usize,
) -> Result<usize, Memory>
    requires gap { gap < 2 ^ 40 }
    requires few { length memory.now.bytes ≤ 2 ^ 32 }
    requires inside { at < length memory.now.bytes }
    requires found { AreFound 0 gap memory.now.bytes at pieces.old.items }
    ensures found { IfOk result (λ end. AreFound 0 gap memory.now.bytes end pieces.new.items) }
    ensures more { IfOk result (λ end. at < end) }
    ensures inside { IfOk result (λ end. end ≤ length memory.now.bytes) }
{
    let rest = memory.rest_of_page(at);
    let mut i = at;
    for byte in rest {
        note_byte(pieces, memory, gap, i, *byte)?;
        i += 1;
    }
    Ok(i)
}

// The address past the last byte.
fn end_of(memory: &Space) -> usize
    ensures value { result ≡ length memory.now.bytes }
    ensures few { result ≤ 2 ^ 32 }
{
    memory.size() as usize * PAGE
}

// The places of bytes that aren't zero, with short runs of zeros between them.
pub(crate) fn memory_pieces(alloc: Global, memory: &Space, gap: usize) -> Result<Vec<Piece>, Memory>
    requires { gap < 2 ^ 40 }
    ensures found { IfOk result (λ v. AreFound 0 gap memory.now.bytes (length memory.now.bytes) v.items) }
    ensures few { length memory.now.bytes ≤ 2 ^ 32 }
{
    let end = end_of(memory);
    let mut pieces = Vec::new(alloc);
    let mut at = 0;
    while at < end {
        let next = find_in_page(&mut pieces, memory, gap, at)?;
        at = next;
    }
    Ok(pieces)
}

// The bytes at a place.
fn bytes_at(alloc: Global, memory: &Space, piece: Piece) -> Result<Vec<u8>, Memory>
    requires few { length memory.now.bytes ≤ 2 ^ 32 }
    requires within { EndsBy (length memory.now.bytes) piece }
    ensures { IfOk result (λ v. v.items ≡ take piece.len (drop piece.at memory.now.bytes)) }
{
    let mut bytes = Vec::with_capacity(alloc, piece.len)?;
    let mut done = 0;
    while done < piece.len {
        let rest = memory.rest_of_page(piece.at + done);
        let n = rest.len().min(piece.len - done);
        bytes.extend_from_slice(&rest[..n])?;
        done += n;
    }
    Ok(bytes)
}

// An address as a constant expression.
pub(crate) fn offset_expr(alloc: Global, at: u32) -> Result<Expr, Memory>
    ensures { IfOk result (λ e. e ≡ offset_expr at) }
{
    Ok(Expr {
        list: List::of(vec![in alloc; number(at)]?),
    })
}

// The segment of the bytes at a place.
fn memory_data(alloc: Global, memory: &Space, piece: Piece) -> Result<Data, Memory>
    requires few { length memory.now.bytes ≤ 2 ^ 32 }
    requires within { EndsBy (length memory.now.bytes) piece }
    ensures { IfOk result (λ d. d ≡ memory_data (cut memory.now.bytes piece)) }
{
    let bytes = bytes_at(alloc, memory, piece)?;
    let offset = offset_expr(alloc, piece.at as u32)?;
    Ok(Data {
        mode: DataMode::Active { memory: 0, offset },
        bytes: List::of(bytes),
    })
}

// The segments of all places.
pub(crate) fn put_memory(
    to: &mut Vec<Data>,
    alloc: Global,
    memory: &Space,
    pieces: &[Piece],
) -> Result<(), Memory>
    requires few { length memory.now.bytes ≤ 2 ^ 32 }
    requires within { All (EndsBy (length memory.now.bytes)) pieces.now }
    ensures { OnOk result (to.new.items ≡ to.old.items ++ map memory_data (map (cut memory.now.bytes) pieces.now)) }
{
    for piece in pieces {
        to.push(memory_data(alloc, memory, *piece)?)?;
    }
    Ok(())
}
