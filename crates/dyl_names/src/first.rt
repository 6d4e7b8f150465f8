// The first of some members that defines a name.
ghost use Rattle.std.specs.Prelude.{◌≡◌};
ghost use Rattle.dyl_names.specs.First.{meaning_of, by_member, by_first, AreOnly, IsInside};

use crate::def::Def;
use crate::names::Names;
use crate::symbol::Symbol;

/// What a member defines a name as.
pub fn by_member(names: &[Names], m: u32, name: &str) -> Def
    ensures meaning { meaning_of result ≡ by_member names.now m name.now }
    ensures inside { IsInside result }
{
    match names.get(m as usize) {
        Some(defined) => match defined.get(name) {
            Some(Symbol::Function(func)) => Def::Function { module: m, func },
            Some(Symbol::Datum(offset)) => Def::Datum { module: m, offset },
            None => Def::Nothing,
        },
        None => Def::Nothing,
    }
}

/// What the first of some members that defines a name defines it as, where no others than the definers define it.
#[tactic(auto, using(crate::proofs::Only::not_among))]
pub fn by_first(names: &[Names], definers: &[u32], members: &[u32], name: &str) -> Def
    requires { AreOnly names.now definers.now name.now }
    ensures meaning { meaning_of result ≡ by_first names.now members.now name.now }
    ensures inside { IsInside result }
{
    for m in members {
        if definers.contains(m) {
            match by_member(names, *m, name) {
                Def::Nothing => {}
                found => return found,
            }
        }
    }
    Def::Nothing
}
