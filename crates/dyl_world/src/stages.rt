// The stages of members.
ghost use Rattle.std.specs.Prelude.{◌≡◌, ◌<◌, ◌≤◌, length, replicate, slice_get, slice_set, Some, IfOk, IfSome};
ghost use Rattle.spec_loading.specs.LoaderAnswers.{is_placed};

use spec_loading::wasm_form::Memory;
use std::alloc::Global;
use std::marker::Model;

/// The stage of each member of a set, by its number: 0 before it is placed, and then the number of the last phase that it has come
/// through, from 1 for placed to 4 for constructed. Contracts see it as the list of the stages.
#[derive(Drop)]
pub struct Stages {
    members: Vec<u8>,
}

impl Model for Stages {
    ghost use Rattle.std.specs.Prelude.{ℕ, List};

    ghost Value = { List ℕ };

    ghost view = { λ s. s.members.items };
}

impl Stages {
    /// The stages of so many members, none of which has come through a phase. `Memory` where no memory could be had.
    pub fn new(alloc: Global, n: u32) -> Result<Stages, Memory>
        ensures { IfOk result (λ s. s ≡ replicate n 0) }
    {
        let mut members = Vec::new(alloc);
        members.resize(n as usize, 0)?;
        Ok(Stages { members })
    }

    /// The stage of member m.
    pub fn get(&self, m: u32) -> u8
        requires { m < length self.now }
        ensures { slice_get self.now m ≡ Some result }
    {
        self.members[m as usize]
    }

    // Whether a member of this number has been placed.
    pub(crate) fn is_placed(&self, m: u32) -> bool
        ensures { result ≡ is_placed (slice_get self.now m) }
    {
        match self.members.get(m as usize) {
            Some(stage) => *stage > 0,
            None => false,
        }
    }

    /// Member m has come through phase p, which is above its stage. No other stage changes.
    pub fn raise(&mut self, m: u32, p: u8)
        requires member { m < length self.old }
        requires phase { 1 ≤ p }
        requires last { p ≤ 4 }
        requires above { IfSome (slice_get self.old m) (λ stage. stage < p) }
        ensures { self.new ≡ slice_set self.old m p }
    {
        self.members[m as usize] = p;
    }
}
