// What the functions of the loader answer.
ghost use Rattle.std.specs.Prelude.{◌≡◌, ◌≤◌, ◌+◌, ◌-◌, Some, length, unwrap_or, slice_get};
ghost use Rattle.spec_loading.specs.LoaderAnswers as loader;

use crate::errors::Errors;
use crate::promoted::Promoted;
use crate::searching::{member_named, search_handle};
use crate::stages::Stages;
use crate::strings::{Name, name_at};
use dyl_link::Linked;
use dyl_link::dyl_plan::Plan;
use spec_loading::{Finding, Opening};
use wasm_space::Space;

// The errors by their numbers.
const BAD_FLAGS: u8 = 1;

const NO_MODULE: u8 = 2;

const BAD_HANDLE: u8 = 3;

const NO_SYMBOL: u8 = 4;

// Every bit of the flags of `dlopen` but 1, 2, 256 and 4096.
const OTHER_FLAGS: u32 = 4_294_962_940;

// The flag by which the closure of a member is promoted.
const GLOBAL_FLAG: u32 = 256;

// Where the texts of the errors stand, from the end of the stack on.
const TEXT_OFFSETS: [u32; 5] = [0, 18, 41, 59, 81];

// What `dlopen` comes to for a name that was read. The flags are tested before the name.
fn open_named(linked: &Linked, name: &Name<'_>, flags: u32) -> Opening
    ensures { result ≡ loader.open_named linked.now flags (Some name.now) }
{
    if flags & OTHER_FLAGS != 0 {
        return Opening::Refused(BAD_FLAGS);
    }
    match member_named(linked, name) {
        Some(m) if flags & GLOBAL_FLAG == 0 => Opening::Begin(m),
        Some(m) => Opening::BeginGlobal(m),
        None => Opening::Refused(NO_MODULE),
    }
}

/// What `dlopen` comes to, whose name stands at an address in memory. A name at address 0 is the program itself.
pub fn open_answer(linked: &Linked, memory: &Space, name: u32, flags: u32) -> Opening
    ensures { result ≡ loader.open_answer linked.now memory.now name flags }
{
    if name == 0 {
        return Opening::Main;
    }
    match name_at(memory, name) {
        Some(text) => open_named(linked, &text, flags),
        None => Opening::Trapped,
    }
}

// Whether a handle is that of the program, or of a member that has been placed.
fn is_handle(stages: &Stages, handle: u32) -> bool
    ensures { result ≡ loader.is_handle stages.now handle }
{
    match handle {
        0 => false,
        1 => true,
        _ => stages.is_placed(handle - 1),
    }
}

// What `dlsym` comes to for a name that was read. The handle is tested before the name.
fn find_named(
    linked: &Linked,
    stages: &Stages,
    promoted: &Promoted,
    handle: u32,
    name: &Name<'_>,
) -> Finding
    requires { length stages.now ≡ length linked.now.set.members }
    ensures { result ≡ loader.find_named linked.now stages.now promoted.now.list handle (Some name.now) }
{
    linked.links();
    if handle != 0 && !is_handle(stages, handle) {
        return Finding::Refused(BAD_HANDLE);
    }
    match search_handle(linked, promoted, handle, name) {
        Some(n) => Finding::Address(n),
        None => Finding::Refused(NO_SYMBOL),
    }
}

/// What `dlsym` comes to, whose name stands at an address in memory. The stages are those of the set's members. Handles 0 and 1 search the
/// startup list and then the promoted members, and the handle of a member its closure.
pub fn symbol_answer(
    linked: &Linked,
    stages: &Stages,
    promoted: &Promoted,
    memory: &Space,
    handle: u32,
    name: u32,
) -> Finding
    requires { length stages.now ≡ length linked.now.set.members }
    ensures { result ≡ loader.symbol_answer linked.now stages.now promoted.now.list memory.now handle name }
{
    match name_at(memory, name) {
        Some(text) => find_named(linked, stages, promoted, handle, &text),
        None => Finding::Trapped,
    }
}

/// Whether `dlclose` takes a handle. It changes nothing. The stages are those of the set's members.
pub fn close_answer(_linked: &Linked, stages: &Stages, handle: u32) -> bool
    ensures { result ≡ loader.close_answer stages.now handle }
{
    is_handle(stages, handle)
}

// Where the text of an error stands, from the end of the stack on.
fn text_offset(e: u8) -> u32
    requires { 1 ≤ e }
    ensures { result ≡ unwrap_or (slice_get loader.error_offsets (e - 1)) 0 }
{
    match TEXT_OFFSETS.get(e as usize - 1) {
        Some(offset) => *offset,
        None => 0,
    }
}

// The address of a text. The texts end before the heap begins, so that no address passes 32 bits.
fn text_address(plan: &Plan, offset: u32) -> u32
    requires { plan.now.stack_top + offset ≤ plan.now.heap_base }
    ensures { result ≡ plan.now.stack_top + offset }
{
    let _end = plan.heap_base();
    plan.texts() + offset
}

/// What `dlerror` answers: the address of the text of the last error, or 0 where none is set. None is set afterwards.
pub fn error_answer(linked: &Linked, errors: &mut Errors) -> u32
    ensures value { result ≡ loader.error_answer linked.now errors.old }
    ensures none { errors.new ≡ 0 }
{
    match errors.take() {
        0 => 0,
        e => text_address(linked.plan(), text_offset(e)),
    }
}
