// Things one after the other, and with their number before them (WebAssembly Core 2.0, section 5.1.3).
ghost use Rattle.std.specs.Prelude.{◌≡◌, ℕ, ◌≤◌, length, IfOk, List as Listing};
ghost use Rattle.spec_reading.specs.Steps.{Read, whole};
ghost use Rattle.spec_reading.specs.Values.{number_at, name_at, items_at, vec_at};
ghost use Rattle.wasm_read.specs.Given.{Gives};

use crate::broken::Break;
use crate::number::{name_of, u32_of};
use std::alloc::Global;
use wasm_form::{List, Text};

/// What is read at the front of bytes, as what vectors and sections hold.
pub trait Item: Drop {
    /// How one is read.
    ghost at: { Listing ℕ → Read Self };

    /// Reads the one at the front of the bytes, and gives with it the bytes that follow.
    fn read(alloc: Global, bytes: &[u8]) -> Result<(Self, &[u8]), Break>
        ensures reads { Gives (λ x. (x.0, x.1.now)) result (at bytes.now) }
        ensures shorter { IfOk result (λ x. length x.1.now ≤ length bytes.now) };
}

impl Item for u32 {
    ghost at = { number_at 32 };

    fn read(_alloc: Global, bytes: &[u8]) -> Result<(u32, &[u8]), Break> {
        u32_of(bytes)
    }
}

impl Item for Text {
    ghost at = { name_at };

    fn read(alloc: Global, bytes: &[u8]) -> Result<(Text, &[u8]), Break> {
        name_of(alloc, bytes)
    }
}

impl<T: Item> Item for List<T> {
    ghost at = { vec_at T.at };

    fn read(alloc: Global, bytes: &[u8]) -> Result<(List<T>, &[u8]), Break> {
        vec_of(alloc, bytes)
    }
}

/// So many things.
pub fn items_of<T: Item>(alloc: Global, count: u32, bytes: &[u8]) -> Result<(Vec<T>, &[u8]), Break>
    ensures reads { Gives (λ x. (x.0.items, x.1.now)) result (items_at T.at count bytes.now) }
    ensures shorter { IfOk result (λ x. length x.1.now ≤ length bytes.now) }
{
    let mut items = Vec::new(alloc);
    let mut rest = bytes;
    for _ in 0..count {
        let (x, after) = T::read(alloc, rest)?;
        items.push(x)?;
        rest = after;
    }
    Ok((items, rest))
}

/// The number of things, and the things.
#[tactic(auto, unfolding(spec_reading::specs::Values::vec_at))]
pub fn vec_of<T: Item>(alloc: Global, bytes: &[u8]) -> Result<(List<T>, &[u8]), Break>
    ensures reads { Gives (λ x. (x.0, x.1.now)) result (vec_at T.at bytes.now) }
    ensures shorter { IfOk result (λ x. length x.1.now ≤ length bytes.now) }
{
    let (count, rest) = u32_of(bytes)?;
    let (items, rest) = items_of(alloc, count, rest)?;
    Ok((List::of(items), rest))
}

/// What takes all of the bytes.
pub fn whole_of<T: Item>(alloc: Global, bytes: &[u8]) -> Result<T, Break>
    ensures { Gives (λ x. x) result (whole (T.at bytes.now)) }
{
    let (x, rest) = T::read(alloc, bytes)?;
    if rest.is_empty() {
        Ok(x)
    } else {
        Err(Break::Broken)
    }
}

/// The number of things, and the things, which take all of the bytes.
#[tactic(auto, unfolding(spec_reading::specs::Values::vec_at))]
pub fn whole_vec_of<T: Item>(alloc: Global, bytes: &[u8]) -> Result<Vec<T>, Break>
    ensures { Gives (λ x. x.items) result (whole (vec_at T.at bytes.now)) }
{
    let (count, rest) = u32_of(bytes)?;
    let (items, rest) = items_of(alloc, count, rest)?;
    if rest.is_empty() {
        Ok(items)
    } else {
        Err(Break::Broken)
    }
}
