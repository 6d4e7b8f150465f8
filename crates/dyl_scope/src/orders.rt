// The orders in which members are gone through.
ghost use Rattle.std.specs.Prelude.{◌≡◌, [], IfOk, OnOk, length, slice_get};
ghost use Rattle.spec_linking.specs.Orders.{with_numbers};
ghost use Rattle.dyl_scope.specs.Orders.{needed_in, needed_at, closure_by, walk_by, walk_value, post_order_by};

use crate::maker::Told;
use dyl_names::DistinctNumbers;
use std::alloc::Global;
use wasm_form::{List, Memory};

// What a member needs.
fn needed_in(members: &[Told], m: u32) -> &[u32]
    ensures { result.now ≡ needed_in members.now m }
{
    match members.get(m as usize) {
        Some(told) => told.needed.items(),
        None => &[],
    }
}

// Adds what the known member at a place needs.
fn add_needed(
    alloc: Global,
    members: &[Told],
    known: &mut DistinctNumbers,
    k: usize,
) -> Result<(), Memory>
    ensures { OnOk result (known.new ≡ with_numbers known.old (needed_at (needed_in members.now) (slice_get known.old k))) }
{
    match known.get(k) {
        Some(m) => known.add_all(alloc, needed_in(members, m)),
        None => Ok(()),
    }
}

// The closure of a member: the member and what it reaches, breadth first.
pub(crate) fn closure_of(alloc: Global, members: &[Told], m: u32) -> Result<DistinctNumbers, Memory>
    ensures { IfOk result (λ l. l ≡ closure_by (needed_in members.now) (length members.now) m) }
{
    let mut known = DistinctNumbers::new(alloc, members.len())?;
    known.add(alloc, m)?;
    for k in 0..members.len() {
        add_needed(alloc, members, &mut known, k)?;
    }
    Ok(known)
}

// The members that were entered, and those that were left, in order.
#[derive(Drop)]
pub(crate) struct Walk {
    entered: DistinctNumbers,
    left: Vec<u32>,
}

// Goes through the members from m on in depth-first post-order.
fn go_through(
    alloc: Global,
    members: &[Told],
    depth: usize,
    m: u32,
    w: &mut Walk,
) -> Result<(), Memory>
    ensures { OnOk result (walk_value w.new ≡ walk_by (needed_in members.now) depth m (walk_value w.old)) }
{
    if depth == 0 || w.entered.contains(m) {
        return Ok(());
    }
    w.entered.add(alloc, m)?;
    for k in needed_in(members, m) {
        go_through(alloc, members, depth - 1, *k, w)?;
    }
    w.left.push(m)?;
    Ok(())
}

// What a member reaches, each after what it needs itself.
pub(crate) fn post_order_of(alloc: Global, members: &[Told], m: u32) -> Result<List<u32>, Memory>
    ensures { IfOk result (λ l. l ≡ post_order_by (needed_in members.now) (length members.now) m) }
{
    let entered = DistinctNumbers::new(alloc, members.len())?;
    let mut w = Walk {
        entered,
        left: Vec::new(alloc),
    };
    go_through(alloc, members, members.len(), m, &mut w)?;
    Ok(List::of(w.left))
}
