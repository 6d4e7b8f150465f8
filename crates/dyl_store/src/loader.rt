// The functions of the loader, which code of a loaded set calls.
ghost use Rattle.std.specs.Prelude.{◌≡◌, ◌<◌, ◌≤◌, [], ◌∷◌, length, false, IfOk, OnOk};
ghost use Rattle.wasm_form.specs.declared.runtime.LoaderCall.TheVariants as calls;
ghost use Rattle.spec_loading.specs.Phases.{open_frame};
ghost use Rattle.spec_loading.specs.Loading.{Opens, Traps};
ghost use Rattle.dyl_frames.specs.Cores.{loader_arguments, gives_number, GivesHandle, IsHandle};
ghost use Rattle.dyl_store.specs.Runs.{IsRunning};
ghost use Rattle.dyl_store.specs.Calls.{is_loader, AnswersWith, Answers};

use crate::running::Running;
use crate::tasks::member_tasks;
use dyl_frames::After;
use dyl_world::{Errors, close_answer, error_answer, open_answer, symbol_answer};
use spec_loading::{Finding, Opening};
use std::alloc::Global;
use wasm_form::{LoaderCall, Memory, Trap};
use wasm_machine::{Event, Standing, View};

// What `dlclose` answers to a handle that isn't one, and its error.
const NOT_CLOSED: u32 = 4_294_967_295;

const BAD_CLOSE: u8 = 5;

// An error that is set.
fn error_of(e: u8) -> Errors
    requires some { 1 ≤ e }
    requires last { e ≤ 5 }
    ensures { result ≡ e }
{
    let mut errors = Errors::new();
    errors.set(e);
    errors
}

impl<'m> Running<'m> {
    // Answers a call of a function of the loader with these arguments, or with the first of them.
    pub fn answer(
        &mut self,
        alloc: Global,
        call: LoaderCall,
        first: u32,
        second: u32,
    ) -> Result<Event, Memory>
        requires running { IsRunning self.old }
        requires loading { self.old.core.machine.standing ≡ Standing.Loading }
        ensures answers { IfOk result (λ e. Answers self.old.linked.now call (loader_arguments call first second) e self.old self.new) }
        ensures answered { IfOk result (λ e. is_loader e ≡ false) }
        ensures running { OnOk result (IsRunning self.new) }
        ensures linked { self.new.linked ≡ self.old.linked }
    {
        match call {
            LoaderCall::Dlopen => self.open_module(alloc, first, second),
            LoaderCall::Dlsym => Ok(self.find_symbol(first, second)),
            LoaderCall::Dlclose => Ok(self.close_module(first)),
            LoaderCall::Dlerror => Ok(self.tell_error()),
        }
    }

    // The answer of `dlopen`, whose name stands at an address.
    fn open_module(&mut self, alloc: Global, name: u32, flags: u32) -> Result<Event, Memory>
        requires running { IsRunning self.old }
        requires loading { self.old.core.machine.standing ≡ Standing.Loading }
        ensures answers { IfOk result (λ e. Answers self.old.linked.now calls.Dlopen (name ∷ flags ∷ []) e self.old self.new) }
        ensures answered { IfOk result (λ e. is_loader e ≡ false) }
        ensures running { OnOk result (IsRunning self.new) }
        ensures linked { self.new.linked ≡ self.old.linked }
    {
        match open_answer(self.linked, self.world.memory(), name, flags) {
            Opening::Main => Ok(self.give(1)),
            Opening::Trapped => Ok(self.trap(Trap::MemoryBounds)),
            Opening::Refused(e) => Ok(self.refuse(0, e)),
            Opening::Begin(m) => self.open_member(alloc, m, After::GiveHandle(m)),
            Opening::BeginGlobal(m) => self.open_member(alloc, m, After::GiveAndPromote(m)),
        }
    }

    // The answer of `dlsym`, whose name stands at an address.
    fn find_symbol(&mut self, handle: u32, name: u32) -> Event
        requires running { IsRunning self.old }
        requires loading { self.old.core.machine.standing ≡ Standing.Loading }
        ensures answers { Answers self.old.linked.now calls.Dlsym (handle ∷ name ∷ []) result self.old self.new }
        ensures answered { is_loader result ≡ false }
        ensures running { IsRunning self.new }
        ensures linked { self.new.linked ≡ self.old.linked }
    {
        match symbol_answer(
            self.linked,
            self.core.stages(),
            self.core.promoted(),
            self.world.memory(),
            handle,
            name,
        ) {
            Finding::Trapped => self.trap(Trap::MemoryBounds),
            Finding::Refused(e) => self.refuse(0, e),
            Finding::Address(n) => self.give(n),
        }
    }

    // The answer of `dlclose`.
    fn close_module(&mut self, handle: u32) -> Event
        requires running { IsRunning self.old }
        requires loading { self.old.core.machine.standing ≡ Standing.Loading }
        ensures answers { Answers self.old.linked.now calls.Dlclose (handle ∷ []) result self.old self.new }
        ensures answered { is_loader result ≡ false }
        ensures running { IsRunning self.new }
        ensures linked { self.new.linked ≡ self.old.linked }
    {
        if close_answer(self.linked, self.core.stages(), handle) {
            self.give(0)
        } else {
            self.refuse(NOT_CLOSED, BAD_CLOSE)
        }
    }

    // The answer of `dlerror`.
    fn tell_error(&mut self) -> Event
        requires running { IsRunning self.old }
        requires loading { self.old.core.machine.standing ≡ Standing.Loading }
        ensures answers { Answers self.old.linked.now calls.Dlerror [] result self.old self.new }
        ensures answered { is_loader result ≡ false }
        ensures running { IsRunning self.new }
        ensures linked { self.new.linked ≡ self.old.linked }
    {
        let mut errors = self.core.errors();
        let address = error_answer(self.linked, &mut errors);
        self.give_with(address, errors)
    }

    // A member is opened: a frame with its tasks, which are followed by a handle, is put over what called.
    fn open_member(&mut self, alloc: Global, m: u32, after: After) -> Result<Event, Memory>
        requires running { IsRunning self.old }
        requires loading { self.old.core.machine.standing ≡ Standing.Loading }
        requires member { m < length self.old.linked.now.set.members }
        requires hands { GivesHandle after }
        requires handle { IsHandle (length self.old.linked.now.set.members) after }
        ensures answers { IfOk result (λ e. AnswersWith self.old.linked.now (Opens (record (open_frame self.old.linked.now.set m) { after = after })) e self.old self.new) }
        ensures answered { IfOk result (λ e. is_loader e ≡ false) }
        ensures running { OnOk result (IsRunning self.new) }
        ensures linked { self.new.linked ≡ self.old.linked }
    {
        let tasks = member_tasks(alloc, self.linked, m)?;
        self.core.open(alloc, &self.world, tasks, after)?;
        Ok(Event::Moved)
    }

    // Gives a number to what called, and keeps the last error.
    fn give(&mut self, n: u32) -> Event
        requires running { IsRunning self.old }
        requires loading { self.old.core.machine.standing ≡ Standing.Loading }
        ensures answers { AnswersWith self.old.linked.now (gives_number self.old.core n self.old.core.error) result self.old self.new }
        ensures answered { is_loader result ≡ false }
        ensures running { IsRunning self.new }
        ensures linked { self.new.linked ≡ self.old.linked }
    {
        let errors = self.core.errors();
        self.give_with(n, errors)
    }

    // Gives a number to what called, and sets an error.
    fn refuse(&mut self, n: u32, e: u8) -> Event
        requires running { IsRunning self.old }
        requires loading { self.old.core.machine.standing ≡ Standing.Loading }
        requires some { 1 ≤ e }
        requires last { e ≤ 5 }
        ensures answers { AnswersWith self.old.linked.now (gives_number self.old.core n e) result self.old self.new }
        ensures answered { is_loader result ≡ false }
        ensures running { IsRunning self.new }
        ensures linked { self.new.linked ≡ self.old.linked }
    {
        self.give_with(n, error_of(e))
    }

    // Gives a number to what called, after which this is the last error.
    fn give_with(&mut self, n: u32, errors: Errors) -> Event
        requires running { IsRunning self.old }
        requires loading { self.old.core.machine.standing ≡ Standing.Loading }
        ensures answers { AnswersWith self.old.linked.now (gives_number self.old.core n errors) result self.old self.new }
        ensures answered { is_loader result ≡ false }
        ensures running { IsRunning self.new }
        ensures linked { self.new.linked ≡ self.old.linked }
    {
        self.core.give(&self.world, n, errors);
        Event::Moved
    }

    // Ends the run by a trap.
    fn trap(&mut self, why: Trap) -> Event
        requires running { IsRunning self.old }
        requires loading { self.old.core.machine.standing ≡ Standing.Loading }
        ensures answers { AnswersWith self.old.linked.now (Traps why) result self.old self.new }
        ensures answered { is_loader result ≡ false }
        ensures running { IsRunning self.new }
        ensures linked { self.new.linked ≡ self.old.linked }
    {
        self.core.trap(&self.world, why);
        Event::Trapped(why)
    }
}
