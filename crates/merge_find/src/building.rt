// The whole code of a search.
ghost use Rattle.std.specs.Prelude.{◌≡◌, ◌++◌, ◌∷◌, ◌<◌, ◌≤◌, ◌^◌, ◌+◌, ◌-◌, length, true, IfOk};
ghost use Rattle.std.specs.List.{All};
ghost use Rattle.wasm_form.specs.declared.instr.BlockType.TheVariants.{Empty};
ghost use Rattle.wasm_form.specs.declared.instr.Instr.{Block};
ghost use Rattle.merge_find.specs.Decisions.{search_code, lower, upper};
ghost use Rattle.merge_find.specs.Building.{goal_of, names_of, place_code, rest_code, is_asking, key_at, HasText, IsPlace, IsRest, rank};

use crate::asking::{put_asked, put_exact};
use crate::found::put_found;
use crate::named::{Named, count_below, split};
use crate::place::{Place, Stage, deeper, halved, is_asking, key_at, next_place};
use crate::search::Search;
use merge_pieces::opcodes;
use std::alloc::Global;
use wasm_form::{BlockType, Expr, Instr, List, Memory};

/// Where a search stands, and the names among which it searches.
#[derive(Drop)]
pub(crate) struct Rest {
    pub place: Place,
    pub names: Vec<Named>,
}

// Half of so many values.
fn half(width: u32) -> u32
    requires some { 0 < width }
    requires few { width ≤ 32 }
    ensures { result ≡ 2 ^ (width - 1) }
{
    1 << (width - 1)
}

// One value alone is possible: it is compared.
fn next_key(to: &mut Vec<Instr>, search: &Search, rest: Rest) -> Result<Rest, Memory>
    requires sound { IsRest rest }
    requires asking { is_asking rest.place ≡ true }
    requires one { rest.place.width ≡ 0 }
    ensures code { IfOk result (λ q. to.new.items ++ rest_code (goal_of search.now) q ≡ to.old.items ++ rest_code (goal_of search.now) rest) }
    ensures sound { IfOk result (λ q. IsRest q) }
    ensures less { IfOk result (λ q. rank q.place < rank rest.place) }
{
    let here = rest.place;
    put_exact(to, search.len, key_at(here), here.least, here.deep)?;
    Ok(Rest {
        place: next_place(here),
        names: rest.names,
    })
}

// There are names on either side: the code of the side with fewer stands in a block, and the search goes on among the others.
#[cycle(search)]
fn ask(
    to: &mut Vec<Instr>,
    alloc: Global,
    search: &Search,
    rest: Rest,
    bound: u32,
) -> Result<Rest, Memory>
    requires sound { IsRest rest }
    requires asking { is_asking rest.place ≡ true }
    requires many { 0 < rest.place.width }
    requires bound { bound ≡ rest.place.least + 2 ^ (rest.place.width - 1) }
    requires below { 0 < length (lower (key_at rest.place) bound (names_of rest.names.items)) }
    requires above { 0 < length (upper (key_at rest.place) bound (names_of rest.names.items)) }
    ensures code { IfOk result (λ q. to.new.items ++ rest_code (goal_of search.now) q ≡ to.old.items ++ rest_code (goal_of search.now) rest) }
    ensures sound { IfOk result (λ q. IsRest q) }
    ensures less { IfOk result (λ q. rank q.place < rank rest.place) }
{
    let key = key_at(rest.place);
    let low_place = halved(rest.place, rest.place.least);
    let high_place = halved(rest.place, bound);
    let (low, high) = split(alloc, key, bound, rest.names)?;
    if low.len() <= high.len() {
        let inner = Rest {
            place: deeper(low_place),
            names: low,
        };
        let code = code_from(alloc, search, inner)?;
        put_asked(to, search.len, key, opcodes::I32_LT_U, bound, code)?;
        return Ok(Rest {
            place: high_place,
            names: high,
        });
    }
    let inner = Rest {
        place: deeper(high_place),
        names: high,
    };
    let code = code_from(alloc, search, inner)?;
    put_asked(to, search.len, key, opcodes::I32_GE_U, bound, code)?;
    Ok(Rest {
        place: low_place,
        names: low,
    })
}

// The values are halved. A question with names on one side alone is left out.
#[cycle(search)]
fn halve(to: &mut Vec<Instr>, alloc: Global, search: &Search, rest: Rest) -> Result<Rest, Memory>
    requires sound { IsRest rest }
    requires asking { is_asking rest.place ≡ true }
    requires many { 0 < rest.place.width }
    ensures code { IfOk result (λ q. to.new.items ++ rest_code (goal_of search.now) q ≡ to.old.items ++ rest_code (goal_of search.now) rest) }
    ensures sound { IfOk result (λ q. IsRest q) }
    ensures less { IfOk result (λ q. rank q.place < rank rest.place) }
{
    let bound = rest.place.least + half(rest.place.width);
    let count = count_below(key_at(rest.place), bound, &rest.names);
    if count == 0 {
        return Ok(Rest {
            place: halved(rest.place, bound),
            names: rest.names,
        });
    }
    if count == rest.names.len() {
        return Ok(Rest {
            place: halved(rest.place, rest.place.least),
            names: rest.names,
        });
    }
    ask(to, alloc, search, rest, bound)
}

#[cycle(search)]
fn code_from(alloc: Global, search: &Search, rest: Rest) -> Result<Vec<Instr>, Memory>
    requires sound { IsRest rest }
    ensures { IfOk result (λ x. x.items ≡ rest_code (goal_of search.now) rest) }
{
    let mut code = Vec::new(alloc);
    let mut rest = rest;
    while is_asking(rest.place) {
        if rest.place.width == 0 {
            rest = next_key(&mut code, search, rest)?;
        } else {
            rest = halve(&mut code, alloc, search, rest)?;
        }
    }
    put_found(&mut code, alloc, search, rest.names)?;
    Ok(code)
}

// Some code in a block, and other code behind it.
fn in_block(alloc: Global, code: Vec<Instr>, after: Vec<Instr>) -> Result<Vec<Instr>, Memory>
    ensures { IfOk result (λ x. x.items ≡ Block Empty (record { list = code.items }) ∷ after.items) }
{
    let mut after = after;
    let body = Expr {
        list: List::of(code),
    };
    let mut whole = vec![in alloc; Instr::Block(BlockType::Empty, body)]?;
    whole.append(&mut after)?;
    Ok(whole)
}

/// The code of a search among names. `Memory` where no memory could be had.
#[tactic(auto, unfolding(crate::specs::Decisions::search_code, crate::specs::Building::place_code))]
pub fn search_code(alloc: Global, search: &Search, names: Vec<Named>) -> Result<Vec<Instr>, Memory>
    requires texts { All HasText names.items }
    ensures { IfOk result (λ x. x.items ≡ search_code (goal_of search.now) (names_of names.items)) }
{
    if names.len() == 0 {
        return search.missed(alloc);
    }
    let place = Place {
        stage: Stage::Lengths,
        width: 32,
        least: 0,
        deep: 0,
    };
    let code = code_from(alloc, search, Rest { place, names })?;
    in_block(alloc, code, search.missed(alloc)?)
}
