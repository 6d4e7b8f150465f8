// Where all bytes were compared.
ghost use Rattle.std.specs.Prelude.{◌≡◌, ◌++◌, OnOk};
ghost use Rattle.merge_find.specs.Decisions.{found_code};
ghost use Rattle.merge_find.specs.Building.{goal_of, names_of};

use crate::named::Named;
use crate::search::Search;
use std::alloc::Global;
use wasm_form::{Instr, Memory};

// The string is the first of these names.
pub(crate) fn put_found(
    to: &mut Vec<Instr>,
    alloc: Global,
    search: &Search,
    names: Vec<Named>,
) -> Result<(), Memory>
    ensures { OnOk result (to.new.items ≡ to.old.items ++ found_code (goal_of search.now) (names_of names.items)) }
{
    let mut code = match names.into_iter().next() {
        Some(n) => n.code,
        None => search.missed(alloc)?,
    };
    to.append(&mut code)?;
    Ok(())
}
