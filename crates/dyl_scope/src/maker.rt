// What is told of members.
ghost use Rattle.std.specs.Prelude.{◌≡◌, ◌<◌, ◌≤◌, ◌++◌, ◌∷◌, [], length, map, IfOk, OnOk, OnErr};
ghost use Rattle.std.specs.List.{range_with_len};
ghost use Rattle.spec_linking.specs.Sets.{ClosedSet};
ghost use Rattle.dyl_scope.specs.Orders.{needed_in, closure_by, post_order_by};
ghost use Rattle.dyl_scope.specs.Scopes.{AreOf, IsTold, told_by, told_value};
ghost use Rattle.dyl_scope.specs.Kept.{names_by, kept_of};

use crate::definers::definers_of;
use crate::exports::definitions_of;
use crate::orders::{closure_of, post_order_of};
use crate::symbols::Symbols;
use dyl_names::{Definition, DistinctNumbers, Names, distinct};
use std::alloc::Global;
use std::marker::Model;
use wasm_check::Checked;
use wasm_form::{List, Memory};

// What is told of a member: what its exports define, and the numbers of the members that it needs, each once.
#[derive(Drop)]
pub(crate) struct Told {
    pub definitions: List<Definition>,
    pub needed: List<u32>,
}

/// What is told of members, in order: what each defines, and which it needs.
#[derive(Drop)]
pub struct Maker {
    members: Vec<Told>,
}

impl Model for Maker {
    ghost use Rattle.std.specs.Prelude.{List, map, length, ◌≤◌};
    ghost use Rattle.dyl_scope.specs.Scopes.{Told, told_value};

    ghost Value = { List Told };

    ghost view = { λ m. map told_value m.members.items };

    ghost invariant = { λ m. length m.members.items ≤ 256 };
}

fn tell(alloc: Global, checked: &Checked, needed: &[u32]) -> Result<Told, Memory>
    ensures { IfOk result (λ t. told_value t ≡ told_by checked.now needed.now) }
{
    let definitions = definitions_of(alloc, checked.module())?;
    let needed = distinct(alloc, needed)?;
    Ok(Told {
        definitions: List::of(definitions),
        needed,
    })
}

fn names_of(alloc: Global, members: &[Told]) -> Result<Vec<Names>, Memory>
    ensures { IfOk result (λ names. names.items ≡ map names_by members.now) }
{
    let mut names = Vec::new(alloc);
    for member in members {
        let defined = Names::of(alloc, member.definitions.items())?;
        names.push(defined)?;
    }
    Ok(names)
}

fn closures_of(alloc: Global, members: &[Told]) -> Result<Vec<DistinctNumbers>, Memory>
    requires { length members.now ≤ 256 }
    ensures { IfOk result (λ v. v.items ≡ map (closure_by (needed_in members.now) (length members.now)) (range_with_len 0 (length members.now))) }
{
    let mut closures = Vec::new(alloc);
    for m in 0..members.len() {
        let found = closure_of(alloc, members, m as u32)?;
        closures.push(found)?;
    }
    Ok(closures)
}

fn orders_of(alloc: Global, members: &[Told]) -> Result<Vec<List<u32>>, Memory>
    requires { length members.now ≤ 256 }
    ensures { IfOk result (λ v. v.items ≡ map (post_order_by (needed_in members.now) (length members.now)) (range_with_len 0 (length members.now))) }
{
    let mut orders = Vec::new(alloc);
    for m in 0..members.len() {
        let found = post_order_of(alloc, members, m as u32)?;
        orders.push(found)?;
    }
    Ok(orders)
}

fn kept(alloc: Global, members: &[Told]) -> Result<Symbols, Memory>
    requires { length members.now ≤ 256 }
    ensures { IfOk result (λ symbols. symbols ≡ kept_of members.now) }
{
    let names = names_of(alloc, members)?;
    let definers = definers_of(alloc, members)?;
    let closures = closures_of(alloc, members)?;
    let orders = orders_of(alloc, members)?;
    Ok(Symbols::of(names, definers, closures, orders))
}

impl Maker {
    /// Nothing is told.
    pub fn new(alloc: Global) -> Maker
        ensures { result ≡ [] }
    {
        Maker {
            members: Vec::new(alloc),
        }
    }

    /// Tells of the next member: its module, and the numbers of the members that it needs. At want of memory nothing is changed.
    pub fn add(&mut self, alloc: Global, checked: &Checked, needed: &[u32]) -> Result<(), Memory>
        requires { length self.old < 256 }
        ensures told { OnOk result (self.new ≡ self.old ++ told_by checked.now needed.now ∷ []) }
        ensures same { OnErr result (self.new ≡ self.old) }
    {
        let member = tell(alloc, checked, needed)?;
        self.members.push(member)?;
        Ok(())
    }

    /// The names and the orders of the members: those of any set of which this was told, be it one that files give or not. `Memory` where
    /// no memory could be had.
    pub fn finish(&self, alloc: Global) -> Result<Symbols, Memory>
        ensures count { IfOk result (λ symbols. length symbols.names ≡ length self.now) }
        ensures exact { IfOk result (λ symbols. (S : ClosedSet) → IsTold S self.now → AreOf S symbols) }
    {
        let symbols = kept(alloc, self.members.as_slice())?;
        Ok(symbols)
    }
}
