// What is written of tables.
ghost use Rattle.std.specs.Prelude.{◌≡◌, ◌≤◌, ◌<◌, ◌+◌, ◌++◌, ◌^◌, length, map, take, drop, None, slice_index_or, sum_by, IfOk, OnOk};
ghost use Rattle.std.specs.List.{All};
ghost use Rattle.merge_match.specs.Renumbering as renumbering;
ghost use Rattle.merge_match.specs.Renumbering.{entry, table_instance};
ghost use Rattle.merge_index.specs.Kept.{numbers_in};
ghost use Rattle.snap_module.specs.Held.{entry_expr, table_elem};
ghost use Rattle.snap_parts.specs.Found.{cut, EndsBy, AreFound};
ghost use Rattle.spec_snapshots.specs.Stretches.{entries, tables_gap};
ghost use Rattle.snap_parts.specs.Segments.{TableWritten, TablesWritten};

use crate::constants::{entry, expr_of, reference_instr};
use crate::memory::offset_expr;
use crate::pieces::{Piece, note};
use merge_index::Numbers;
use std::alloc::Global;
use wasm_form::{Elem, ElemItems, ElemMode, Expr, List, Memory, Ref, ValType};
use wasm_space::Slots;

// ---- how long a run of null entries is written

// The entries of all tables.
fn entries_of(tables: &[Slots]) -> u64
    requires { length tables.now ≤ 2 ^ 30 }
    ensures is { result ≡ sum_by entries tables.now }
    ensures few { result ≤ 2 ^ 50 }
{
    let mut sum: u64 = 0;
    for table in tables {
        sum += u64::from(table.size());
    }
    sum
}

/// The longest run of null entries that is written.
pub(crate) fn tables_gap(tables: &[Slots]) -> usize
    requires { length tables.now ≤ 2 ^ 30 }
    ensures gap { result ≡ tables_gap tables.now }
    ensures few { result < 2 ^ 40 }
{
    let share = (entries_of(tables) / 16_384) as usize;
    if share < 16 { 16 } else { share }
}

// ---- the places of entries

fn entry_at(table: &Slots, i: u32) -> Option<Ref>
    ensures { result ≡ slice_index_or table.now.entries i None }
{
    match table.get(i) {
        Ok(r) => r,
        Err(_) => None,
    }
}

fn note_entry(pieces: &mut Vec<Piece>, table: &Slots, gap: usize, i: u32) -> Result<(), Memory>
    requires gap { gap < 2 ^ 40 }
    requires inside { i < length table.now.entries }
    requires found { (n : renumbering.Numbers) → AreFound None gap (map (entry n) table.now.entries) i pieces.old.items }
    ensures { OnOk result ((n : renumbering.Numbers) → AreFound None gap (map (entry n) table.now.entries) (i + 1) pieces.new.items) }
{
    match entry_at(table, i) {
        None => Ok(()),
        Some(_r) => {
            note(pieces, gap, i as usize)?;
            Ok(())
        }
    }
}

// The places of functions, with short runs of null entries between them.
fn table_pieces(alloc: Global, table: &Slots, gap: usize) -> Result<Vec<Piece>, Memory>
    requires { gap < 2 ^ 40 }
    ensures { IfOk result (λ v. (n : renumbering.Numbers) → AreFound None gap (map (entry n) table.now.entries) (length table.now.entries) v.items) }
{
    let mut pieces = Vec::new(alloc);
    for i in 0..table.size() {
        note_entry(&mut pieces, table, gap, i)?;
    }
    Ok(pieces)
}

// ---- their segments

fn entry_expr(alloc: Global, numbers: &Numbers, r: Option<Ref>) -> Result<Expr, Memory>
    ensures { IfOk result (λ e. e ≡ entry_expr (entry (numbers_in numbers.now) r)) }
{
    let e = expr_of(alloc, reference_instr(entry(numbers, r)))?;
    Ok(e)
}

// The entries at a place.
fn entries_at(
    alloc: Global,
    numbers: &Numbers,
    table: &Slots,
    piece: Piece,
) -> Result<List<Expr>, Memory>
    requires few { length table.now.entries < 2 ^ 32 }
    requires within { EndsBy (length table.now.entries) piece }
    ensures { IfOk result (λ es. es ≡ map entry_expr (take piece.len (drop piece.at (map (entry (numbers_in numbers.now)) table.now.entries)))) }
{
    let mut list = Vec::new(alloc);
    for i in piece.at..piece.at + piece.len {
        list.push(entry_expr(alloc, numbers, entry_at(table, i as u32))?)?;
    }
    Ok(List::of(list))
}

// The segment of the entries at a place of table t.
fn table_elem(
    alloc: Global,
    numbers: &Numbers,
    t: u32,
    table: &Slots,
    piece: Piece,
) -> Result<Elem, Memory>
    requires few { length table.now.entries < 2 ^ 32 }
    requires within { EndsBy (length table.now.entries) piece }
    ensures { IfOk result (λ e. e ≡ table_elem t (cut (map (entry (numbers_in numbers.now)) table.now.entries) piece)) }
{
    let items = entries_at(alloc, numbers, table, piece)?;
    let offset = offset_expr(alloc, piece.at as u32)?;
    Ok(Elem {
        mode: ElemMode::Active { table: t, offset },
        items: ElemItems::Exprs {
            elem: ValType::FuncRef,
            items,
        },
    })
}

fn put_pieces(
    to: &mut Vec<Elem>,
    alloc: Global,
    numbers: &Numbers,
    t: u32,
    table: &Slots,
    pieces: &[Piece],
) -> Result<(), Memory>
    requires few { length table.now.entries < 2 ^ 32 }
    requires within { All (EndsBy (length table.now.entries)) pieces.now }
    ensures { OnOk result (to.new.items ≡ to.old.items ++ map (table_elem t) (map (cut (map (entry (numbers_in numbers.now)) table.now.entries)) pieces.now)) }
{
    for piece in pieces {
        to.push(table_elem(alloc, numbers, t, table, *piece)?)?;
    }
    Ok(())
}

// The segments of table t.
fn put_table(
    to: &mut Vec<Elem>,
    alloc: Global,
    numbers: &Numbers,
    t: u32,
    table: &Slots,
    gap: usize,
) -> Result<(), Memory>
    requires { gap < 2 ^ 40 }
    ensures { OnOk result (TableWritten gap t (table_instance (numbers_in numbers.now) table.now) to.old.items to.new.items) }
{
    let _size = table.size();
    let pieces = table_pieces(alloc, table, gap)?;
    put_pieces(to, alloc, numbers, t, table, &pieces)?;
    Ok(())
}

/// The segments of all tables.
pub(crate) fn put_tables(
    to: &mut Vec<Elem>,
    alloc: Global,
    numbers: &Numbers,
    tables: &[Slots],
    gap: usize,
) -> Result<(), Memory>
    requires gap { gap < 2 ^ 40 }
    requires few { length tables.now ≤ 2 ^ 30 }
    ensures { OnOk result (TablesWritten gap (map (table_instance (numbers_in numbers.now)) tables.now) to.old.items to.new.items) }
{
    let mut t: u32 = 0;
    for table in tables {
        put_table(to, alloc, numbers, t, table, gap)?;
        t += 1;
    }
    Ok(())
}
