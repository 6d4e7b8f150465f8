// The first of some members that defines a name.
ghost use Rattle.std.specs.Prelude.{◌≡◌, ◌∷◌, []};
ghost use Rattle.dyl_scope.specs.Definers.{AreOnly};
ghost use Rattle.dyl_scope.specs.Scopes.{meaning_of, list_at, by_first, in_scope, IsInside};

use dyl_names::{Def, DistinctNumbers, Names, by_first, by_member};

// The one definer, if it is among some members.
fn by_one(names: &[Names], definer: u32, members: &DistinctNumbers, name: &str) -> Def
    requires { AreOnly names.now (definer ∷ []) name.now }
    ensures meaning { meaning_of result ≡ by_first names.now members.now name.now }
    ensures inside { IsInside result }
{
    if members.contains(definer) {
        by_member(names, definer, name)
    } else {
        Def::Nothing
    }
}

// The first of some members, which is fast where few define the name.
fn among(names: &[Names], definers: &[u32], members: &DistinctNumbers, name: &str) -> Def
    requires { AreOnly names.now definers.now name.now }
    ensures meaning { meaning_of result ≡ by_first names.now members.now name.now }
    ensures inside { IsInside result }
{
    match definers {
        [] => Def::Nothing,
        [definer] => by_one(names, *definer, members, name),
        _ => by_first(names, definers, members.list(), name),
    }
}

// The first in the closure of a member.
fn in_closure(
    names: &[Names],
    definers: &[u32],
    closures: &[DistinctNumbers],
    m: u32,
    name: &str,
) -> Def
    requires { AreOnly names.now definers.now name.now }
    ensures meaning { meaning_of result ≡ by_first names.now (list_at closures.now m) name.now }
    ensures inside { IsInside result }
{
    match closures.get(m as usize) {
        Some(closure) => among(names, definers, closure, name),
        None => Def::Nothing,
    }
}

// In the startup list, which is the closure of the first member, or else in the closure of member m.
pub(crate) fn in_scope(
    names: &[Names],
    definers: &[u32],
    closures: &[DistinctNumbers],
    m: u32,
    name: &str,
) -> Def
    requires { AreOnly names.now definers.now name.now }
    ensures meaning { meaning_of result ≡ in_scope names.now (list_at closures.now 0) (list_at closures.now m) name.now }
    ensures inside { IsInside result }
{
    match in_closure(names, definers, closures, 0, name) {
        Def::Nothing => in_closure(names, definers, closures, m, name),
        found => found,
    }
}
