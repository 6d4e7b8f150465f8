// The promoted members.
ghost use Rattle.std.specs.Prelude.{◌≡◌, ◌<◌, [], length, IfOk};
ghost use Rattle.spec_loading.specs.spec_linking.Orders.{with_number};
ghost use Rattle.spec_loading.specs.LoaderAnswers.{promoted_with};

use dyl_link::Linked;
use spec_loading::wasm_form::Memory;
use std::alloc::Global;
use std::marker::Model;

/// The promoted members of a set, which `dlsym` searches behind those of the startup list. Contracts see them as a list of numbers, with how
/// many there may be: as many as the set has members.
#[derive(Drop)]
pub struct Promoted {
    members: Vec<u32>,
    count: usize,
}

impl Model for Promoted {
    ghost use Rattle.std.specs.Prelude.{length, take};
    ghost use Rattle.dyl_world.specs.Promoted.{PromotedMembers, ArePromoted};

    ghost Value = { PromotedMembers };

    ghost view = { λ p. record { list = take p.count p.members.items; room = length p.members.items } };

    ghost invariant = { λ p. ArePromoted p.members.items p.count };
}

impl Promoted {
    /// Room for so many members, of which none is promoted. `Memory` where no memory could be had.
    pub fn new(alloc: Global, n: u32) -> Result<Promoted, Memory>
        ensures { IfOk result (λ p. p ≡ record { list = []; room = n }) }
    {
        let mut members = Vec::new(alloc);
        members.resize(n as usize, 0)?;
        Ok(Promoted { members, count: 0 })
    }

    /// The promoted members, in the order in which they were promoted.
    pub fn list(&self) -> &[u32]
        ensures { result.now ≡ self.now.list }
    {
        &self.members[..self.count]
    }

    // Promotes a member as the last one, unless it is promoted.
    fn add_one(&mut self, m: u32)
        requires { m < self.old.room }
        ensures { self.new ≡ record self.old { list = with_number self.old.list m } }
    {
        if self.list().contains(&m) {
            return;
        }
        self.members[self.count] = m;
        self.count += 1;
    }

    /// Promotes, in breadth-first order, each member of the closure of member m that is neither in the startup list nor promoted.
    pub fn add(&mut self, linked: &Linked, m: u32)
        requires member { m < length linked.now.set.members }
        requires room { self.old.room ≡ length linked.now.set.members }
        ensures list { self.new.list ≡ promoted_with linked.now.set m self.old.list }
        ensures room { self.new.room ≡ self.old.room }
    {
        linked.links();
        let startup = linked.startup();
        let closure = linked.closure(m);
        for k in closure {
            if !startup.contains(k) {
                self.add_one(*k);
            }
        }
    }
}
