// The functions that phases call.
ghost use Rattle.std.specs.Prelude.{◌≡◌, ◌<◌, length, Some, IfSome};
ghost use Rattle.spec_loading.specs.spec_binary.Indices.{nullary};
ghost use Rattle.spec_loading.specs.spec_execution.Views.{type_of as type_seen};
ghost use Rattle.spec_loading.specs.Phases as loader;
ghost use Rattle.spec_loading.specs.declared.task.Phase.TheVariants as phases;
ghost use Rattle.spec_loading.specs.LoadedSet.{set_loading};
ghost use Rattle.spec_loading.specs.Members.{set_view};

use dyl_frames::{Phase, Task};
use dyl_link::Linked;
use dyl_link::wasm_check::exported_function;
use spec_loading::linked_functions_are_typed;
use wasm_form::{Module, Ref};

// The constructors of a member; those of main are left to an entry `_start`.
fn constructors(wasm: &Module, m: u32) -> Option<u32>
    ensures { result ≡ loader.phase_function phases.Construct m wasm.now }
{
    if m == 0 && exported_function(wasm, "_start").is_some() {
        return None;
    }
    exported_function(wasm, "__wasm_call_ctors")
}

// The function that a phase calls, by its number in the member.
fn phase_function(wasm: &Module, task: Task) -> Option<u32>
    ensures { result ≡ loader.phase_function task.phase task.member wasm.now }
{
    match task.phase {
        Phase::Place => None,
        Phase::Start => wasm.start,
        Phase::Relocate => exported_function(wasm, "__wasm_apply_data_relocs"),
        Phase::Construct => constructors(wasm, task.member),
    }
}

// The function that a task calls, if any.
pub(crate) fn callee(linked: &Linked, task: Task) -> Option<Ref>
    requires { task.member < length linked.now.set.members }
    ensures found { (set_loading linked.now).callee task.phase task.member ≡ Some result }
    ensures nullary { IfSome result (λ r. type_seen (set_view linked.now) r ≡ Some nullary) }
{
    linked_functions_are_typed();
    linked.links();
    match phase_function(linked.module(task.member), task) {
        Some(f) => Some(linked.function(task.member, f)),
        None => None,
    }
}
