// Where a search stands.
ghost use Rattle.std.specs.Prelude.{◌≡◌, ◌<◌, ◌≤◌, ◌+◌, ◌-◌, ◌*◌, ◌^◌, List, ◌++◌, length, true};
ghost use Rattle.std.specs.List.{All};
ghost use Rattle.merge_find.specs.Decisions.{Goal, Named, exact_code, by_bytes};
ghost use Rattle.merge_find.specs.Finding.{IsText};
ghost use Rattle.merge_find.specs.Building.{place_code, is_asking, key_at, IsPlace, rank};

use crate::key::Key;

/// What is asked next: lengths, or the byte at a place, behind which so many are left, or nothing.
#[derive(Clone, Copy, Drop)]
pub(crate) enum Stage {
    Lengths,
    Bytes(u32, u32),
    Done,
}

/// Where a search stands: 2^width values are possible, from the least on. The code stands in so many blocks inside that of the search.
#[derive(Clone, Copy, Drop)]
pub(crate) struct Place {
    pub stage: Stage,
    pub width: u32,
    pub least: u32,
    pub deep: u32,
}

// Where so many bytes are left, from place i on.
#[tactic(auto, unfolding(crate::specs::Building::place_code))]
pub(crate) fn at_byte(i: u32, left: u32, deep: u32) -> Place
    requires { i + left < 2 ^ 32 }
    ensures code { (g : Goal) (xs : List Named) → 0 < length xs → All (λ x. IsText x.0) xs → place_code g result xs ≡ by_bytes g left i xs deep }
    ensures place { IsPlace result }
    ensures deep { result.deep ≡ deep }
    ensures rank { rank result ≤ 9 * left }
{
    if left == 0 {
        return Place {
            stage: Stage::Done,
            width: 0,
            least: 0,
            deep,
        };
    }
    Place {
        stage: Stage::Bytes(i, left - 1),
        width: 8,
        least: 0,
        deep,
    }
}

// Where one value alone is possible, it is compared: what is asked behind that.
#[tactic(auto, unfolding(crate::specs::Building::place_code))]
pub(crate) fn next_place(place: Place) -> Place
    requires asking { is_asking place ≡ true }
    requires one { place.width ≡ 0 }
    requires sound { IsPlace place }
    ensures code { (g : Goal) (xs : List Named) → 0 < length xs → All (λ x. IsText x.0) xs
        → exact_code g.len (key_at place) place.least place.deep ++ place_code g result xs ≡ place_code g place xs }
    ensures place { IsPlace result }
    ensures deep { result.deep ≡ place.deep }
    ensures rank { rank result < rank place }
{
    match place.stage {
        Stage::Lengths => at_byte(0, place.least, place.deep),
        Stage::Bytes(i, left) => at_byte(i + 1, left, place.deep),
        Stage::Done => place,
    }
}

// Whether anything is asked still.
pub(crate) fn is_asking(place: Place) -> bool
    ensures { result ≡ is_asking place }
{
    match place.stage {
        Stage::Done => false,
        _ => true,
    }
}

// What the questions are about.
pub(crate) fn key_at(place: Place) -> Key
    ensures { result ≡ key_at place }
{
    match place.stage {
        Stage::Bytes(i, _) => Key::Byte(i),
        _ => Key::Size,
    }
}

// The same place with half as many values, from this one on.
pub(crate) fn halved(place: Place, least: u32) -> Place
    requires { 0 < place.width }
    ensures { result ≡ record place { width = place.width - 1; least = least } }
{
    Place {
        stage: place.stage,
        width: place.width - 1,
        least,
        deep: place.deep,
    }
}

// The same place, one block further in.
pub(crate) fn deeper(place: Place) -> Place
    requires { place.deep < 2 ^ 32 - 1 }
    ensures { result ≡ record place { deep = place.deep + 1 } }
{
    Place {
        stage: place.stage,
        width: place.width,
        least: place.least,
        deep: place.deep + 1,
    }
}
