// The places of what is written of a long list.
ghost use Rattle.std.specs.Prelude.{◌≡◌, ◌≤◌, ◌<◌, ◌+◌, ◌++◌, ◌^◌, OnOk};
ghost use Rattle.std.specs.List.{All};
ghost use Rattle.snap_parts.specs.Found.{EndsBy, after_last, noted};

use wasm_form::Memory;

/// So many items from a place on.
#[derive(Clone, Copy)]
pub(crate) struct Piece {
    pub at: usize,
    pub len: usize,
}

// The last place again, with an item that is near behind it, or a new one for that item.
fn put_after(pieces: &mut Vec<Piece>, last: Piece, gap: usize, i: usize) -> Result<(), Memory>
    requires gap { gap < 2 ^ 40 }
    requires far { i ≤ 2 ^ 32 }
    requires last { EndsBy i last }
    ensures { OnOk result (pieces.new.items ≡ pieces.old.items ++ after_last gap i last) }
{
    if i <= last.at + last.len + gap {
        pieces.push(Piece {
            at: last.at,
            len: i + 1 - last.at,
        })?;
        return Ok(());
    }
    pieces.push(last)?;
    pieces.push(Piece { at: i, len: 1 })?;
    Ok(())
}

/// Notes the next item that isn't blank. A run of at most `gap` blank ones is written, where items stand before and behind it.
pub(crate) fn note(pieces: &mut Vec<Piece>, gap: usize, i: usize) -> Result<(), Memory>
    requires gap { gap < 2 ^ 40 }
    requires far { i ≤ 2 ^ 32 }
    requires before { All (EndsBy i) pieces.old.items }
    ensures { OnOk result (pieces.new.items ≡ noted gap i pieces.old.items) }
{
    match pieces.pop() {
        None => {
            pieces.push(Piece { at: i, len: 1 })?;
            Ok(())
        }
        Some(last) => {
            put_after(pieces, last, gap, i)?;
            Ok(())
        }
    }
}
