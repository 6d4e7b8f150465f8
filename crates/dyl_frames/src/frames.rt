// The run without what is counted and recorded of it.
ghost use Rattle.std.specs.Prelude.{◌≡◌, ◌≢◌, ◌<◌, ◌≤◌, ◌+◌, [], length, reverse, true, false, Some, None, IfOk, OnOk, IfSome, slice_get, OnErr};
ghost use Rattle.std.specs.List.{All};
ghost use Rattle.spec_loading.specs.spec_binary.Indices.{nullary};
ghost use Rattle.spec_loading.specs.spec_execution.Views.{type_of as type_seen};
ghost use Rattle.spec_loading.specs.spec_safety.TypedViews.{HoldTypes, IsSoundView};
ghost use Rattle.spec_loading.specs.spec_safety.ValueTypes.{IsMemory, IsOfBytes};
ghost use Rattle.wasm_view.specs.Seen.{Seen};
ghost use Rattle.wasm_machine.specs.Machines.{IsMarked};
ghost use Rattle.spec_loading.specs.Phases.{stage_of};
ghost use Rattle.spec_loading.specs.declared.task.Phase.TheVariants as phases;
ghost use Rattle.spec_loading.specs.declared.task.After.TheVariants as follows;
ghost use Rattle.spec_loading.specs.Loading.{Loading};
ghost use Rattle.spec_loading.specs.Loading as loading;
ghost use Rattle.dyl_frames.specs.Cores.{IsCore, StepsFrom, RunsFrom, TakenFrom, PlacesFrom, OpensAt, IsMarkTold, IsLoaded, is_deep_event};
ghost use Rattle.spec_loading.specs.LoaderAnswers.{promoted_with};
ghost use Rattle.dyl_frames.specs.Cores.{IsHandle, GivesHandle, AreFrames, first_task, top_frame, TakesTask, Finishes, is_behind, raised_stages, is_mark, IsOwn, FitsHost};
ghost use Rattle.dyl_frames.specs.Cores.{AnsweredFrom, WantsFrom, TellsDeep, TellsStarted, first_calls, gives_number, opens_member, Drops};
ghost use Rattle.spec_keeping.specs.Started.{calls_entry};

use dyl_link::Linked;
use dyl_world::{Errors, Promoted, Stages};
use spec_loading::wasm_form::{Memory, Ref, Trap};
use spec_loading::{After, Phase, Task};
use std::alloc::Global;
use wasm_machine::{Answer, Done, Event, Machine, StackTop, Standing, View};

// A frame of the loader: the tasks that are left, the next one last, and what follows them.
#[derive(Drop)]
pub(crate) struct Pending {
    pub tasks: Vec<Task>,
    pub after: After,
}

/// A machine, the frames of the loader on its call stack, the latest last, how far each member has come, which members are promoted, and the
/// last error of the loader.
#[derive(Drop)]
pub struct Core<'m> {
    pub(crate) machine: Machine<'m>,
    pub(crate) frames: Vec<Pending>,
    pub(crate) stages: Stages,
    pub(crate) promoted: Promoted,
    pub(crate) error: Errors,
}

// The stage of a member that has come through a phase.
fn stage_of(phase: Phase) -> u8
    ensures stage { result ≡ stage_of phase }
    ensures least { 1 ≤ result }
    ensures most { result ≤ 4 }
{
    match phase {
        Phase::Place => 1,
        Phase::Start => 2,
        Phase::Relocate => 3,
        Phase::Construct => 4,
    }
}

/// Whether a phase places its member.
pub fn is_place(phase: Phase) -> bool
    ensures places { result ≡ true → phase ≡ phases.Place }
    ensures calls { result ≡ false → phase ≢ phases.Place }
{
    matches!(phase, Phase::Place)
}

// Whether a call would be too deep.
fn is_deep(event: &Event) -> bool
    ensures { result ≡ is_deep_event event.now }
{
    matches!(event, Event::Deep)
}

// Whether the entry follows the tasks of a frame.
fn calls_entry(after: After) -> bool
    ensures { result ≡ calls_entry after }
{
    matches!(after, After::CallEntry)
}

// Whether the first frame is the one that calls the entry.
fn first_calls(frames: &[Pending]) -> bool
    ensures { result ≡ first_calls (slice_get frames.now 0) }
{
    match frames.first() {
        Some(frame) => calls_entry(frame.after),
        None => false,
    }
}

// Takes the next task away.
fn take_task(frame: &mut Pending)
    ensures { TakesTask frame.old frame.new }
{
    let _ = frame.tasks.pop();
}

// The number of the mark of a frame that comes after so many.
fn as_tag(n: usize) -> u32
    requires { n < 4294967296 }
    ensures { result ≡ n }
{
    n as u32
}

impl<'m> Core<'m> {
    /// A run of so many members, whose first frame has these tasks, the next one last, and is followed by the entry.
    pub fn new<V: View<'m>>(
        alloc: Global,
        view: &V,
        members: u32,
        tasks: Vec<Task>,
    ) -> Result<Core<'m>, Memory>
        requires sound { IsSoundView (V.seen view.now).fixed }
        requires holds { HoldTypes (V.seen view.now).fixed (V.seen view.now).fixed.names (V.seen view.now).units }
        requires memory { IsMemory (V.seen view.now).memory }
        requires few { members ≤ 256 }
        requires tasks { All (λ t. t.member < members) tasks.items }
        ensures core { IfOk result (λ c. IsCore (V.seen view.now).fixed (V.seen view.now).units (V.seen view.now).memory c) }
        ensures opened { IfOk result (λ c. (D : Loading V.Units) → OpensAt D members (reverse tasks.items) (V.seen view.now) c) }
        ensures moving { IfOk result (λ c. c.machine.standing ≡ Standing.Moving) }
    {
        let stages = Stages::new(alloc, members)?;
        let promoted = Promoted::new(alloc, members)?;
        let error = Errors::new();
        let mut machine: Machine<'m> = Machine::new(alloc);
        machine.mark(alloc, view, 0)?;
        let mut frames = Vec::new(alloc);
        frames.push(Pending {
            tasks,
            after: After::CallEntry,
        })?;
        Ok(Core {
            machine,
            frames,
            stages,
            promoted,
            error,
        })
    }

    /// What the machine is at.
    pub fn standing(&self) -> Standing
        ensures { result ≡ self.now.machine.standing }
    {
        self.machine.standing()
    }

    /// The last error of the loader.
    pub fn errors(&self) -> Errors
        ensures { result ≡ self.now.error }
    {
        self.error.copied()
    }

    /// How far each member has come.
    pub fn stages(&self) -> &Stages
        ensures { result.now ≡ self.now.stages }
    {
        &self.stages
    }

    /// The promoted members.
    pub fn promoted(&self) -> &Promoted
        ensures { result.now ≡ self.now.promoted }
    {
        &self.promoted
    }

    /// One step of the code on top, or the mark on top, with nothing changed. Where code calls a function of the loader `Loader`, and the
    /// step is made by the answer.
    pub fn step<V: View<'m>>(&mut self, alloc: Global, view: &mut V) -> Result<Event, Memory>
        requires core { IsCore (V.seen view.old).fixed (V.seen view.old).units (V.seen view.old).memory self.old }
        requires moving { self.old.machine.standing ≡ Standing.Moving }
        ensures stepped { IfOk result (λ e. is_mark e ≡ false → (D : Loading V.Units) → IsLoaded D (V.seen view.old).fixed → StepsFrom D e self.old (V.seen view.old) self.new (V.seen view.new)) }
        ensures core { OnOk result (IsCore (V.seen view.old).fixed (V.seen view.new).units (V.seen view.new).memory self.new) }
        ensures wanting { OnErr result ((D : Loading V.Units) → WantsFrom D self.old (V.seen view.old)) }
        ensures marked { IfOk result (λ e. is_mark e ≡ true → IsMarkTold self.old (V.seen view.old) self.new (V.seen view.new)) }
        ensures fixed { (V.seen view.new).fixed ≡ (V.seen view.old).fixed }
        ensures members { length self.new.stages ≡ length self.old.stages }
    {
        self.machine.step_apart(alloc, view)
    }

    /// Steps of code, so many or fewer, where the machine can tell them in few bytes: how many were made, and what the next one came to.
    pub fn run<V: View<'m>>(&mut self, alloc: Global, view: &mut V, most: u64) -> (u64, Done)
        requires core { IsCore (V.seen view.old).fixed (V.seen view.old).units (V.seen view.old).memory self.old }
        requires moving { self.old.machine.standing ≡ Standing.Moving }
        ensures ran { (D : Loading V.Units) → IsLoaded D (V.seen view.old).fixed → RunsFrom D result.0 result.1 self.old (V.seen view.old) self.new (V.seen view.new) }
        ensures core { result.1 ≢ Done.NoMemory → IsCore (V.seen view.old).fixed (V.seen view.new).units (V.seen view.new).memory self.new }
        ensures fixed { (V.seen view.new).fixed ≡ (V.seen view.old).fixed }
        ensures members { length self.new.stages ≡ length self.old.stages }
        ensures most { result.1 ≡ Done.Goes → result.0 ≡ most }
        ensures fewer { result.1 ≢ Done.Goes → result.0 < most }
    {
        self.machine.run_apart(alloc, view, most)
    }

    /// Takes the answer of the host function that is waited for.
    pub fn take<V: View<'m>>(&mut self, view: &mut V, a: &Answer)
        requires core { IsCore (V.seen view.old).fixed (V.seen view.old).units (V.seen view.old).memory self.old }
        requires fits { FitsHost (V.seen view.old).fixed (V.seen view.old).memory a.now self.old.machine.standing }
        requires bytes { IsOfBytes a.now }
        ensures taken { (D : Loading V.Units) → IsLoaded D (V.seen view.old).fixed → TakenFrom D a.now self.old (V.seen view.old) self.new (V.seen view.new) }
        ensures core { IsCore (V.seen view.old).fixed (V.seen view.new).units (V.seen view.new).memory self.new }
        ensures fixed { (V.seen view.new).fixed ≡ (V.seen view.old).fixed }
        ensures members { length self.new.stages ≡ length self.old.stages }
    {
        self.machine.answer(view, a);
    }

    /// The next task of the frame on top, if one is left.
    pub fn next_task<V: View<'m>>(&self, view: &V) -> Option<Task>
        requires core { IsCore (V.seen view.now).fixed (V.seen view.now).units (V.seen view.now).memory self.now }
        requires marked { IsMarked self.now.machine }
        ensures task { result ≡ first_task (top_frame self.now) }
        ensures member { IfSome result (λ t. t.member < length self.now.stages) }
    {
        let _view = view;
        self.top_task()
    }

    /// What follows the last task of the frame on top.
    pub fn follows<V: View<'m>>(&self, view: &V) -> After
        requires core { IsCore (V.seen view.now).fixed (V.seen view.now).units (V.seen view.now).memory self.now }
        requires marked { IsMarked self.now.machine }
        ensures { result ≡ (top_frame self.now).after }
    {
        let _view = view;
        self.top_after()
    }

    // The same, without what is said of the view.
    fn top_after(&self) -> After
        requires { AreFrames self.now }
        ensures { result ≡ (top_frame self.now).after }
    {
        let Some(frame) = self.frames.last() else {
            unreachable!();
        };
        frame.after
    }

    // The same, without what is said of the view.
    fn top_task(&self) -> Option<Task>
        requires { AreFrames self.now }
        ensures { result ≡ first_task (top_frame self.now) }
    {
        let Some(frame) = self.frames.last() else {
            unreachable!();
        };
        match frame.tasks.last() {
            Some(task) => Some(*task),
            None => None,
        }
    }

    // Takes the next task of the frame on top away.
    fn take_top(&mut self)
        requires frames { AreFrames self.old }
        ensures { Finishes self.old.stages self.old self.new }
    {
        let last = self.frames.len() - 1;
        take_task(&mut self.frames[last]);
    }

    // Takes the frame on top away.
    fn drop_top(&mut self)
        requires frames { AreFrames self.old }
        ensures { Drops self.old self.new }
    {
        let last = self.frames.len() - 1;
        self.frames.truncate(last);
    }

    // Takes the next task of the frame on top away, and puts its member at the stage of its phase.
    fn finish(&mut self, task: Task)
        requires frames { AreFrames self.old }
        requires member { task.member < length self.old.stages }
        requires behind { is_behind self.old task ≡ true }
        ensures { Finishes (raised_stages self.old task) self.old self.new }
    {
        self.take_top();
        self.stages.raise(task.member, stage_of(task.phase));
    }

    /// Whether the member of a task hasn't come so far as its phase.
    pub fn is_behind(&self, task: Task) -> bool
        requires { task.member < length self.now.stages }
        ensures { result ≡ is_behind self.now task }
    {
        self.stages.get(task.member) < stage_of(task.phase)
    }

    /// The next task, of a member that has come further, is passed over.
    pub fn pass<V: View<'m>>(&mut self, view: &V, task: Task)
        requires core { IsCore (V.seen view.now).fixed (V.seen view.now).units (V.seen view.now).memory self.old }
        requires marked { IsMarked self.old.machine }
        requires task { first_task (top_frame self.old) ≡ Some task }
        requires member { task.member < length self.old.stages }
        requires behind { is_behind self.old task ≡ false }
        ensures stepped { (D : Loading V.Units) → StepsFrom D Event.Moved self.old (V.seen view.now) self.new (V.seen view.now) }
        ensures core { IsCore (V.seen view.now).fixed (V.seen view.now).units (V.seen view.now).memory self.new }
        ensures members { length self.new.stages ≡ length self.old.stages }
    {
        let _view = view;
        self.take_top();
    }

    // The next task calls nothing.
    fn call_nothing<V: View<'m>>(&mut self, view: &V, task: Task)
        requires core { IsCore (V.seen view.now).fixed (V.seen view.now).units (V.seen view.now).memory self.old }
        requires marked { IsMarked self.old.machine }
        requires task { first_task (top_frame self.old) ≡ Some task }
        requires member { task.member < length self.old.stages }
        requires behind { is_behind self.old task ≡ true }
        requires calls { task.phase ≢ phases.Place }
        ensures stepped { (D : Loading V.Units) → D.callee task.phase task.member ≡ Some None → StepsFrom D Event.Moved self.old (V.seen view.now) self.new (V.seen view.now) }
        ensures core { IsCore (V.seen view.now).fixed (V.seen view.now).units (V.seen view.now).memory self.new }
        ensures members { length self.new.stages ≡ length self.old.stages }
    {
        let _view = view;
        self.finish(task);
    }

    // The next task calls a function.
    fn call<V: View<'m>>(
        &mut self,
        alloc: Global,
        view: &V,
        task: Task,
        r: Ref,
    ) -> Result<Event, Memory>
        requires core { IsCore (V.seen view.now).fixed (V.seen view.now).units (V.seen view.now).memory self.old }
        requires marked { IsMarked self.old.machine }
        requires task { first_task (top_frame self.old) ≡ Some task }
        requires member { task.member < length self.old.stages }
        requires behind { is_behind self.old task ≡ true }
        requires calls { task.phase ≢ phases.Place }
        requires nullary { type_seen (V.seen view.now).fixed r ≡ Some nullary }
        ensures stepped { IfOk result (λ e. (D : Loading V.Units) → IsLoaded D (V.seen view.now).fixed → D.callee task.phase task.member ≡ Some (Some r) → StepsFrom D e self.old (V.seen view.now) self.new (V.seen view.now)) }
        ensures core { OnOk result (IsCore (V.seen view.now).fixed (V.seen view.now).units (V.seen view.now).memory self.new) }
        ensures members { OnOk result (length self.new.stages ≡ length self.old.stages) }
        ensures wanting { OnErr result ((D : Loading V.Units) → WantsFrom D self.old (V.seen view.now)) }
    {
        let event = self.machine.begin(alloc, view, r)?;
        if is_deep(&event) {
            return Ok(event);
        }
        self.finish(task);
        Ok(event)
    }

    /// The next task placed its member, or ended by a trap, which keeps what was written.
    pub fn placed<V: View<'m>>(&mut self, view: &V, task: Task, outcome: Result<(), Trap>) -> Event
        requires core { IsCore (V.seen view.now).fixed (V.seen view.now).units (V.seen view.now).memory self.old }
        requires marked { IsMarked self.old.machine }
        requires task { first_task (top_frame self.old) ≡ Some task }
        requires member { task.member < length self.old.stages }
        requires behind { is_behind self.old task ≡ true }
        requires places { task.phase ≡ phases.Place }
        ensures stepped { (D : Loading V.Units) (before : Seen V.Units) → PlacesFrom D task.member before outcome (V.seen view.now) → StepsFrom D result self.old before self.new (V.seen view.now) }
        ensures core { IsCore (V.seen view.now).fixed (V.seen view.now).units (V.seen view.now).memory self.new }
        ensures members { length self.new.stages ≡ length self.old.stages }
    {
        let _view = view;
        self.finish(task);
        match outcome {
            Ok(()) => Event::Moved,
            Err(why) => {
                self.machine.trap(why);
                Event::Trapped(why)
            }
        }
    }

    /// What follows the last task of the first frame: the entry is called, over nothing. `Deep` changes nothing.
    pub fn enter<V: View<'m>>(&mut self, alloc: Global, view: &V, r: Ref) -> Result<Event, Memory>
        requires core { IsCore (V.seen view.now).fixed (V.seen view.now).units (V.seen view.now).memory self.old }
        requires marked { IsMarked self.old.machine }
        requires last { (top_frame self.old).tasks ≡ [] }
        requires entry { (top_frame self.old).after ≡ follows.CallEntry }
        requires nullary { type_seen (V.seen view.now).fixed r ≡ Some nullary }
        requires own { IsOwn r }
        ensures stepped { IfOk result (λ e. (D : Loading V.Units) → IsLoaded D (V.seen view.now).fixed → D.entry ≡ Some r → StepsFrom D e self.old (V.seen view.now) self.new (V.seen view.now)) }
        ensures core { OnOk result (IsCore (V.seen view.now).fixed (V.seen view.now).units (V.seen view.now).memory self.new) }
        ensures members { OnOk result (length self.new.stages ≡ length self.old.stages) }
        ensures wanting { OnErr result ((D : Loading V.Units) → WantsFrom D self.old (V.seen view.now)) }
    {
        self.machine.unmark(view);
        let event = self.machine.begin(alloc, view, r)?;
        if is_deep(&event) {
            self.machine.mark(alloc, view, 0)?;
            return Ok(event);
        }
        self.frames.clear();
        Ok(event)
    }

    /// The next task, which calls this function, if any, where its member hasn't come so far.
    pub fn call_task<V: View<'m>>(
        &mut self,
        alloc: Global,
        view: &V,
        task: Task,
        callee: Option<Ref>,
    ) -> Result<Event, Memory>
        requires core { IsCore (V.seen view.now).fixed (V.seen view.now).units (V.seen view.now).memory self.old }
        requires marked { IsMarked self.old.machine }
        requires task { first_task (top_frame self.old) ≡ Some task }
        requires member { task.member < length self.old.stages }
        requires calls { task.phase ≢ phases.Place }
        requires nullary { IfSome callee (λ r. type_seen (V.seen view.now).fixed r ≡ Some nullary) }
        ensures stepped { IfOk result (λ e. (D : Loading V.Units) → IsLoaded D (V.seen view.now).fixed → D.callee task.phase task.member ≡ Some callee → StepsFrom D e self.old (V.seen view.now) self.new (V.seen view.now)) }
        ensures core { OnOk result (IsCore (V.seen view.now).fixed (V.seen view.now).units (V.seen view.now).memory self.new) }
        ensures members { OnOk result (length self.new.stages ≡ length self.old.stages) }
        ensures wanting { OnErr result ((D : Loading V.Units) → WantsFrom D self.old (V.seen view.now)) }
    {
        if !self.is_behind(task) {
            self.pass(view, task);
            return Ok(Event::Moved);
        }
        match callee {
            None => {
                self.call_nothing(view, task);
                Ok(Event::Moved)
            }
            Some(r) => self.call(alloc, view, task, r),
        }
    }
}

// ---- the functions of the loader

impl<'m> Core<'m> {
    /// Gives a number to the code that called a function of the loader, and keeps this error.
    pub fn give<V: View<'m>>(&mut self, view: &V, n: u32, errors: Errors)
        requires core { IsCore (V.seen view.now).fixed (V.seen view.now).units (V.seen view.now).memory self.old }
        requires loading { self.old.machine.standing ≡ Standing.Loading }
        ensures stepped { (D : Loading V.Units) → AnsweredFrom D Event.Moved (gives_number self.old n errors) self.old (V.seen view.now) self.new }
        ensures core { IsCore (V.seen view.now).fixed (V.seen view.now).units (V.seen view.now).memory self.new }
        ensures members { length self.new.stages ≡ length self.old.stages }
    {
        self.machine.give(view, n);
        self.error = errors;
    }

    /// Ends by a trap of a function of the loader.
    pub fn trap<V: View<'m>>(&mut self, view: &V, why: Trap)
        requires core { IsCore (V.seen view.now).fixed (V.seen view.now).units (V.seen view.now).memory self.old }
        requires loading { self.old.machine.standing ≡ Standing.Loading }
        ensures stepped { (D : Loading V.Units) → AnsweredFrom D (Event.Trapped why) (loading.Traps why) self.old (V.seen view.now) self.new }
        ensures core { IsCore (V.seen view.now).fixed (V.seen view.now).units (V.seen view.now).memory self.new }
        ensures members { length self.new.stages ≡ length self.old.stages }
    {
        let _view = view;
        self.machine.trap(why);
    }

    /// Puts a frame over the code that called the loader, with these tasks, the next one last, which are followed by the handle of a member.
    pub fn open<V: View<'m>>(
        &mut self,
        alloc: Global,
        view: &V,
        tasks: Vec<Task>,
        after: After,
    ) -> Result<(), Memory>
        requires core { IsCore (V.seen view.now).fixed (V.seen view.now).units (V.seen view.now).memory self.old }
        requires loading { self.old.machine.standing ≡ Standing.Loading }
        requires tasks { All (λ t. t.member < length self.old.stages) tasks.items }
        requires hands { GivesHandle after }
        requires handle { IsHandle (length self.old.stages) after }
        ensures stepped { OnOk result ((D : Loading V.Units) → AnsweredFrom D Event.Moved (opens_member (reverse tasks.items) after) self.old (V.seen view.now) self.new) }
        ensures core { OnOk result (IsCore (V.seen view.now).fixed (V.seen view.now).units (V.seen view.now).memory self.new) }
        ensures members { OnOk result (length self.new.stages ≡ length self.old.stages) }
    {
        let tag = as_tag(self.frames.len());
        self.machine.mark(alloc, view, tag)?;
        self.frames.push(Pending { tasks, after })?;
        Ok(())
    }

    /// What follows the last task of a frame that a call of `dlopen` put: the handle of the member is given to what called.
    pub fn hand_over<V: View<'m>>(&mut self, view: &V, member: u32)
        requires core { IsCore (V.seen view.now).fixed (V.seen view.now).units (V.seen view.now).memory self.old }
        requires marked { IsMarked self.old.machine }
        requires last { (top_frame self.old).tasks ≡ [] }
        requires handle { (top_frame self.old).after ≡ follows.GiveHandle member }
        ensures stepped { (D : Loading V.Units) → StepsFrom D Event.Moved self.old (V.seen view.now) self.new (V.seen view.now) }
        ensures core { IsCore (V.seen view.now).fixed (V.seen view.now).units (V.seen view.now).memory self.new }
        ensures members { length self.new.stages ≡ length self.old.stages }
    {
        self.machine.unmark(view);
        self.machine.give(view, member + 1);
        self.drop_top();
    }

    /// The same where the closure of the member, which is one of a linked set, is promoted in the step that gives its handle.
    pub fn promote<V: View<'m>>(&mut self, view: &V, linked: &Linked, member: u32)
        requires core { IsCore (V.seen view.now).fixed (V.seen view.now).units (V.seen view.now).memory self.old }
        requires marked { IsMarked self.old.machine }
        requires last { (top_frame self.old).tasks ≡ [] }
        requires handle { (top_frame self.old).after ≡ follows.GiveAndPromote member }
        requires linked { length self.old.stages ≡ length linked.now.set.members }
        ensures stepped { (D : Loading V.Units) → D.promote ≡ promoted_with linked.now.set → StepsFrom D Event.Moved self.old (V.seen view.now) self.new (V.seen view.now) }
        ensures core { IsCore (V.seen view.now).fixed (V.seen view.now).units (V.seen view.now).memory self.new }
        ensures members { length self.new.stages ≡ length self.old.stages }
    {
        self.machine.unmark(view);
        self.machine.give(view, member + 1);
        self.drop_top();
        self.promoted.add(linked, member);
    }
}

// ---- whether start-up is done

impl<'m> Core<'m> {
    /// Whether the entry was called, and the run goes on. It takes no memory.
    pub fn started<V: View<'m>>(&self, view: &V) -> bool
        requires core { IsCore (V.seen view.now).fixed (V.seen view.now).units (V.seen view.now).memory self.now }
        ensures { (D : Loading V.Units) → TellsStarted D result self.now (V.seen view.now) }
    {
        let _view = view;
        match self.machine.standing() {
            Standing::Moving | Standing::Asking(..) => !first_calls(&self.frames),
            _ => false,
        }
    }
}

// ---- the depth of the next step

impl<'m> Core<'m> {
    /// Whether a frame of the loader is on top.
    pub fn is_marked(&self) -> bool
        requires moving { self.now.machine.standing ≡ Standing.Moving }
        ensures marked { result ≡ true → IsMarked self.now.machine }
        ensures code { result ≡ false → IsMarked self.now.machine → ⊥ }
    {
        matches!(self.machine.top(), StackTop::Mark(_))
    }

    /// Whether the next step of the code on top would pass a limit of depth. It takes no memory.
    pub fn code_deep<V: View<'m>>(&self, view: &V) -> bool
        requires core { IsCore (V.seen view.now).fixed (V.seen view.now).units (V.seen view.now).memory self.now }
        requires moving { self.now.machine.standing ≡ Standing.Moving }
        requires code { IsMarked self.now.machine → ⊥ }
        ensures { (D : Loading V.Units) → IsLoaded D (V.seen view.now).fixed → TellsDeep D result self.now (V.seen view.now) }
    {
        self.machine.deep(view)
    }

    /// Whether the next task, which calls this function, if any, where its member hasn't come so far, would pass a limit of depth. It takes
    /// no memory. A task that places its member calls nothing.
    pub fn task_deep<V: View<'m>>(&self, view: &V, task: Task, callee: Option<Ref>) -> bool
        requires core { IsCore (V.seen view.now).fixed (V.seen view.now).units (V.seen view.now).memory self.now }
        requires marked { IsMarked self.now.machine }
        requires task { first_task (top_frame self.now) ≡ Some task }
        requires member { task.member < length self.now.stages }
        requires nullary { IfSome callee (λ r. type_seen (V.seen view.now).fixed r ≡ Some nullary) }
        ensures { (D : Loading V.Units) → IsLoaded D (V.seen view.now).fixed → D.callee task.phase task.member ≡ Some callee → TellsDeep D result self.now (V.seen view.now) }
    {
        if is_place(task.phase) || !self.is_behind(task) {
            return false;
        }
        match callee {
            None => false,
            Some(r) => self.machine.begin_deep(view, r),
        }
    }

    /// Whether what follows the last task would pass a limit of depth, where the entry is this function. It takes no memory. Only the call
    /// of the entry can.
    pub fn follow_deep<V: View<'m>>(&self, view: &V, entry: Ref) -> bool
        requires core { IsCore (V.seen view.now).fixed (V.seen view.now).units (V.seen view.now).memory self.now }
        requires marked { IsMarked self.now.machine }
        requires last { (top_frame self.now).tasks ≡ [] }
        requires nullary { type_seen (V.seen view.now).fixed entry ≡ Some nullary }
        ensures { (D : Loading V.Units) → IsLoaded D (V.seen view.now).fixed → D.entry ≡ Some entry → TellsDeep D result self.now (V.seen view.now) }
    {
        match self.follows(view) {
            After::CallEntry => self.machine.begin_deep(view, entry),
            After::GiveHandle(_) | After::GiveAndPromote(_) => false,
        }
    }
}
