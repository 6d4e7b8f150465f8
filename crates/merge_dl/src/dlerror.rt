// `dlerror`.
ghost use Rattle.std.specs.Prelude.{◌≡◌, ◌+◌, ◌<◌, ◌^◌, ◌++◌, IfOk, OnOk};
ghost use Rattle.wasm_form.specs.declared.runtime.LoaderCall.TheVariants.{Dlerror};
ghost use Rattle.spec_loading.specs.spec_linking.Plans.{texts_size};
ghost use Rattle.spec_loading.specs.spec_linking.Slots.{linked_plan};
ghost use Rattle.merge_start.specs.Words.{Starts};
ghost use Rattle.merge_dl.specs.Words.{Finders, error_call_code};
ghost use Rattle.merge_dl.specs.Listed.{AreDlNumbers, finders_in, text_at, texts_at, call_part};

use crate::numbers::DlNumbers;
use crate::parts::{handle_type, one_local, part};
use crate::words::{give, number, where_first};
use dyl_link::Linked;
use merge_pieces::opcodes;
use std::alloc::Global;
use wasm_form::{Instr, Memory, Part, ValType};

// Where local 0 is the number of an error, the address of its text is returned, which stands so many bytes behind an address.
fn put_text(
    to: &mut Vec<Instr>,
    alloc: Global,
    address: u32,
    e: u32,
    offset: u32,
) -> Result<(), Memory>
    requires error { e < 5 }
    requires text { address + offset < 2 ^ 32 }
    ensures { OnOk result (to.new.items ≡ to.old.items ++ text_at address e offset) }
{
    let text = give(alloc, address + offset)?;
    let mut code = where_first(alloc, e + 1, text)?;
    to.append(&mut code)?;
    Ok(())
}

// The texts of the errors stand from an address on.
fn put_texts(to: &mut Vec<Instr>, alloc: Global, address: u32) -> Result<(), Memory>
    requires { address + texts_size < 2 ^ 32 }
    ensures { OnOk result (to.new.items ≡ to.old.items ++ texts_at address) }
{
    put_text(to, alloc, address, 0, 0)?;
    put_text(to, alloc, address, 1, 18)?;
    put_text(to, alloc, address, 2, 41)?;
    put_text(to, alloc, address, 3, 59)?;
    put_text(to, alloc, address, 4, 81)?;
    Ok(())
}

// The address of the error texts. They end before the heap, so there is an address for each.
fn texts_address(linked: &Linked) -> u32
    ensures is { result ≡ (linked_plan linked.now).stack_top }
    ensures fits { result + texts_size < 2 ^ 32 }
{
    let _heap = linked.plan().heap_base();
    linked.plan().texts()
}

// The last error is in local 0, and none is kept any more.
#[tactic(auto, unfolding(crate::specs::Words::error_call_code))]
fn error_call_code(alloc: Global, linked: &Linked, n: &DlNumbers) -> Result<Vec<Instr>, Memory>
    ensures { IfOk result (λ x. x.items ≡ error_call_code linked.now (finders_in n.now)) }
{
    let mut code = vec![in alloc;
        Instr::Index(opcodes::GLOBAL_GET, n.error),
        Instr::Index(opcodes::LOCAL_SET, 0),
        number(0),
        Instr::Index(opcodes::GLOBAL_SET, n.error),
    ]?;
    put_texts(&mut code, alloc, texts_address(linked))?;
    code.push(number(0))?;
    Ok(code)
}

pub(crate) fn error_function(alloc: Global, linked: &Linked, n: &DlNumbers) -> Result<Part, Memory>
    ensures { IfOk result (λ p. (x : Starts) (d : Finders) → AreDlNumbers linked.now n.now x d → p ≡ call_part linked.now x d Dlerror) }
{
    let ty = handle_type(alloc)?;
    let locals = one_local(alloc, ValType::I32)?;
    let code = error_call_code(alloc, linked, n)?;
    Ok(part(ty, locals, code))
}
