// Names, and the code that is done for them.
ghost use Rattle.std.specs.Prelude.{◌≡◌, ◌++◌, ◌∷◌, [], length, IfOk, OnOk};
ghost use Rattle.std.specs.List.{All};
ghost use Rattle.merge_find.specs.Decisions.{is_below, lower, upper, strings};
ghost use Rattle.merge_find.specs.Building.{name_of, names_of, HasText};

use crate::key::{Key, value_of};
use std::alloc::Global;
use wasm_form::{Instr, List, Memory};

/// A name, and the code that is done once the string is found to be this name. The code returns.
#[derive(Drop)]
pub struct Named {
    pub name: List<u8>,
    pub code: Vec<Instr>,
}

/// One name more. A name that no string is isn't added: one of 2^32 bytes or more, since no memory has so many. `Memory` where no memory could be
/// had.
pub fn put_named(
    to: &mut Vec<Named>,
    alloc: Global,
    name: &[u8],
    code: Vec<Instr>,
) -> Result<(), Memory>
    requires texts { All HasText to.old.items }
    ensures names { OnOk result (names_of to.new.items ≡ names_of to.old.items ++ strings ((name.now, code.items) ∷ [])) }
    ensures texts { OnOk result (All HasText to.new.items) }
{
    if name.len() > u32::MAX as usize {
        drop(code);
        return Ok(());
    }
    let name = List::of(Vec::from_slice(alloc, name)?);
    to.push(Named { name, code })?;
    Ok(())
}

fn is_below(key: Key, bound: u32, n: &Named) -> bool
    requires { HasText n.now }
    ensures { result ≡ is_below key bound (name_of n.now) }
{
    value_of(key, n.name.items()) < bound
}

// How many names are below a number.
pub(crate) fn count_below(key: Key, bound: u32, names: &[Named]) -> usize
    requires { All HasText names.now }
    ensures { result ≡ length (lower key bound (names_of names.now)) }
{
    let mut count: usize = 0;
    for n in names {
        if is_below(key, bound, n) {
            count += 1;
        }
    }
    count
}

// The names below a number, and the others.
pub(crate) fn split(
    alloc: Global,
    key: Key,
    bound: u32,
    names: Vec<Named>,
) -> Result<(Vec<Named>, Vec<Named>), Memory>
    requires { All HasText names.items }
    ensures low { IfOk result (λ x. names_of x.0.items ≡ lower key bound (names_of names.items)) }
    ensures high { IfOk result (λ x. names_of x.1.items ≡ upper key bound (names_of names.items)) }
    ensures texts_low { IfOk result (λ x. All HasText x.0.items) }
    ensures texts_high { IfOk result (λ x. All HasText x.1.items) }
{
    let mut low = Vec::new(alloc);
    let mut high = Vec::new(alloc);
    for n in names {
        if is_below(key, bound, &n) {
            low.push(n)?;
        } else {
            high.push(n)?;
        }
    }
    Ok((low, high))
}
