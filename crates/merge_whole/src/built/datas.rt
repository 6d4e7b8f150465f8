// The data segment behind those of the members.
ghost use Rattle.std.specs.Prelude.{◌≡◌, ◌++◌, ◌∷◌, [], IfOk, OnOk};
ghost use Rattle.spec_loading.specs.Texts.{error_texts};
ghost use Rattle.merge_module.specs.MergedModule.{texts_segment};
ghost use Rattle.merge_whole.specs.Built.{texts_at};

use crate::built::elems::number_expr;
use dyl_link::Linked;
use spec_loading::error_texts;
use std::alloc::Global;
use wasm_form::{Data, DataMode, List, Memory};

fn texts(alloc: Global) -> Result<List<u8>, Memory>
    ensures { IfOk result (λ bytes. bytes ≡ error_texts) }
{
    let bytes = error_texts().to_vec(alloc)?;
    Ok(List::of(bytes))
}

fn texts_segment(alloc: Global, address: u32) -> Result<Data, Memory>
    ensures { IfOk result (λ d. d ≡ texts_at address) }
{
    let offset = number_expr(alloc, address)?;
    let bytes = texts(alloc)?;
    Ok(Data {
        mode: DataMode::Active { memory: 0, offset },
        bytes,
    })
}

// The error texts at their place, behind the segments of the members.
pub(crate) fn put_texts(alloc: Global, to: &mut Vec<Data>, linked: &Linked) -> Result<(), Memory>
    ensures { OnOk result (to.new.items ≡ to.old.items ++ texts_segment linked.now ∷ []) }
{
    to.push(texts_segment(alloc, linked.plan().stack_top())?)?;
    Ok(())
}
