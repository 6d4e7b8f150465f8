// The definition of a name for a member.
ghost use Rattle.std.specs.Prelude.{◌≡◌, ℕ, ◌<◌, length, is_some, Some};
ghost use Rattle.spec_linking.specs.Sets.{ClosedSet};
ghost use Rattle.spec_linking.specs.Definitions as defined;
ghost use Rattle.spec_linking.specs.Orders.{closure, post_order};
ghost use Rattle.dyl_scope.specs.Definers.{AreDefiners};
ghost use Rattle.dyl_scope.specs.Scopes.{meaning_of, outside, in_scope, resolved_in, list_at, by_first, AreOf, IsInside};
ghost use Rattle.dyl_names.specs.declared.def.Def.TheVariants as def;

use crate::definers::Definers;
use crate::search::in_scope;
use dyl_names::{Def, DistinctNumbers, Names, by_first};
use std::marker::Model;
use wasm_form::{List, LoaderCall};

/// The names that the members of a set define, and the orders in which members are gone through.
#[derive(Drop)]
pub struct Symbols {
    names: Vec<Names>,
    definers: Definers,
    closures: Vec<DistinctNumbers>,
    orders: Vec<List<u32>>,
}

impl Model for Symbols {
    ghost use Rattle.dyl_scope.specs.Scopes.{Scopes};
    ghost use Rattle.dyl_scope.specs.Definers.{AreDefiners};

    ghost Value = { Scopes };

    ghost view = { λ s. record { names = s.names.items; closures = s.closures.items; orders = s.orders.items } };

    ghost invariant = { λ s. AreDefiners s.names.items s.definers };
}

fn of_loader(name: &str) -> Def
    ensures meaning { meaning_of result ≡ defined.named_in defined.loader_names name.now }
    ensures inside { IsInside result }
{
    match name {
        "dlopen" => Def::Loader(LoaderCall::Dlopen),
        "dlsym" => Def::Loader(LoaderCall::Dlsym),
        "dlclose" => Def::Loader(LoaderCall::Dlclose),
        "dlerror" => Def::Loader(LoaderCall::Dlerror),
        "__heap_base" => Def::HeapBase,
        "__heap_end" => Def::HeapEnd,
        _ => Def::Nothing,
    }
}

fn outside(host: Option<u32>, weak: bool) -> Def
    ensures meaning { meaning_of result ≡ outside (is_some host) weak }
    ensures host { (n : ℕ) → result ≡ def.Host n → host ≡ Some n }
{
    match host {
        Some(n) => Def::Host(n),
        None if weak => Def::Weak,
        None => Def::Nothing,
    }
}

fn closure_at(closures: &[DistinctNumbers], m: u32) -> &[u32]
    ensures { result.now ≡ list_at closures.now m }
{
    match closures.get(m as usize) {
        Some(closure) => closure.list(),
        None => &[],
    }
}

fn order_at(orders: &[List<u32>], m: u32) -> &[u32]
    ensures { result.now ≡ list_at orders.now m }
{
    match orders.get(m as usize) {
        Some(order) => order.items(),
        None => &[],
    }
}

impl Symbols {
    pub(crate) fn of(
        names: Vec<Names>,
        definers: Definers,
        closures: Vec<DistinctNumbers>,
        orders: Vec<List<u32>>,
    ) -> Symbols
        requires { AreDefiners names.items definers }
        ensures { result ≡ record { names = names.items; closures = closures.items; orders = orders.items } }
    {
        Symbols {
            names,
            definers,
            closures,
            orders,
        }
    }

    // In the scope of member m.
    fn found(&self, m: u32, name: &str) -> Def
        ensures meaning { meaning_of result ≡ in_scope self.now.names (list_at self.now.closures 0) (list_at self.now.closures m) name.now }
        ensures inside { IsInside result }
    {
        in_scope(
            &self.names,
            self.definers.get(name),
            &self.closures,
            m,
            name,
        )
    }

    fn resolved(&self, m: u32, name: &str, host: Option<u32>, weak: bool) -> Def
        ensures meaning { meaning_of result ≡ resolved_in self.now m name.now (is_some host) weak }
        ensures host { (n : ℕ) → result ≡ def.Host n → host ≡ Some n }
    {
        match of_loader(name) {
            Def::Nothing => match self.found(m, name) {
                Def::Nothing => outside(host, weak),
                found => found,
            },
            found => found,
        }
    }

    /// The definition of a name for member m: the loader's, that in its scope, the host's where there is one, nothing where it is weak.
    /// `host` is the number of the host function of that name, if there is one.
    #[tactic(auto, using(crate::proofs::Resolved::resolved_exact))]
    pub fn resolve(&self, m: u32, name: &str, host: Option<u32>, weak: bool) -> Def
        requires { m < length self.now.names }
        ensures meaning { (S : ClosedSet) → AreOf S self.now → meaning_of result ≡ defined.resolved S m name.now (is_some host) weak }
        ensures host { (n : ℕ) → result ≡ def.Host n → host ≡ Some n }
    {
        self.resolved(m, name, host, weak)
    }

    fn first(&self, list: &[u32], name: &str) -> Def
        ensures { meaning_of result ≡ by_first self.now.names list.now name.now }
    {
        by_first(&self.names, self.definers.get(name), list, name)
    }

    /// The function or the place of data that the first of some members defines a name as, or nothing.
    #[tactic(auto, using(crate::proofs::Resolved::first_exact))]
    pub fn search(&self, list: &[u32], name: &str) -> Def
        ensures { (S : ClosedSet) → AreOf S self.now → meaning_of result ≡ defined.searched S list.now name.now }
    {
        self.first(list, name)
    }

    fn closure_at(&self, m: u32) -> &[u32]
        ensures { result.now ≡ list_at self.now.closures m }
    {
        closure_at(&self.closures, m)
    }

    /// The closure of member m: the member and what it reaches through needed names, breadth first.
    pub fn closure(&self, m: u32) -> &[u32]
        requires { m < length self.now.names }
        ensures { (S : ClosedSet) → AreOf S self.now → result.now ≡ closure S m }
    {
        self.closure_at(m)
    }

    fn order_at(&self, m: u32) -> &[u32]
        ensures { result.now ≡ list_at self.now.orders m }
    {
        order_at(&self.orders, m)
    }

    /// What member m reaches through needed names, in depth-first post-order: each member after those that it needs.
    pub fn post_order(&self, m: u32) -> &[u32]
        requires { m < length self.now.names }
        ensures { (S : ClosedSet) → AreOf S self.now → result.now ≡ post_order S m }
    {
        self.order_at(m)
    }
}
