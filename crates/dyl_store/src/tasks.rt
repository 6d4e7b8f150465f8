// The tasks of opening a member.
ghost use Rattle.std.specs.Prelude.{◌≡◌, ◌<◌, ◌++◌, length, reverse, IfOk, OnOk};
ghost use Rattle.std.specs.List.{All};
ghost use Rattle.spec_loading.specs.Phases.{tasks_of, opening_tasks, open_frame};

use dyl_frames::{Phase, Task};
use dyl_link::Linked;
use std::alloc::Global;
use wasm_form::Memory;

// Adds a phase of some members, in order.
fn put_tasks(to: &mut Vec<Task>, phase: Phase, members: &[u32]) -> Result<(), Memory>
    ensures { OnOk result (to.new.items ≡ to.old.items ++ tasks_of phase members.now) }
{
    for m in members {
        to.push(Task { phase, member: *m })?;
    }
    Ok(())
}

// The tasks of opening, in order.
fn tasks_in_order(alloc: Global, breadth: &[u32], post: &[u32]) -> Result<Vec<Task>, Memory>
    ensures { IfOk result (λ v. v.items ≡ opening_tasks breadth.now post.now) }
{
    let mut tasks = Vec::new(alloc);
    put_tasks(&mut tasks, Phase::Place, breadth)?;
    put_tasks(&mut tasks, Phase::Start, breadth)?;
    put_tasks(&mut tasks, Phase::Relocate, breadth)?;
    put_tasks(&mut tasks, Phase::Construct, post)?;
    Ok(tasks)
}

// The tasks of opening, of which the next one comes last.
fn opening_tasks(alloc: Global, breadth: &[u32], post: &[u32]) -> Result<Vec<Task>, Memory>
    ensures { IfOk result (λ v. reverse v.items ≡ opening_tasks breadth.now post.now) }
{
    let mut tasks = tasks_in_order(alloc, breadth, post)?;
    tasks.reverse();
    Ok(tasks)
}

// The tasks of opening a member over its closure, of which the next one comes last.
pub(crate) fn member_tasks(alloc: Global, linked: &Linked, m: u32) -> Result<Vec<Task>, Memory>
    requires { m < length linked.now.set.members }
    ensures tasks { IfOk result (λ v. reverse v.items ≡ (open_frame linked.now.set m).tasks) }
    ensures members { IfOk result (λ v. All (λ t. t.member < length linked.now.set.members) v.items) }
{
    linked.links();
    let tasks = opening_tasks(alloc, linked.closure(m), linked.construct_order(m))?;
    Ok(tasks)
}
