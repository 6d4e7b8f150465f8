// The segments of the merged module.
ghost use Rattle.std.specs.Prelude.{◌≡◌, ◌++◌, ◌∷◌, [], IfOk, OnOk};
ghost use Rattle.merge_index.specs.Kept.{numbers_in};
ghost use Rattle.merge_start.specs.Passive.{AreNamed};
ghost use Rattle.merge_module.specs.MergedModule.{outside_elem, declared_elem, texts_segment, merged_elems, merged_datas};

use crate::built::datas::put_texts;
use crate::built::elems::put_others;
use dyl_link::Linked;
use merge_index::Numbers;
use merge_start::{PassiveParts, StartNumbers, passive_parts};
use std::alloc::Global;
use wasm_form::{Data, Elem, List, Memory};

// Those that come behind the members' segments.
fn put_behind(
    alloc: Global,
    elems: &mut Vec<Elem>,
    datas: &mut Vec<Data>,
    linked: &Linked,
    n: &Numbers,
) -> Result<(), Memory>
    ensures elems { OnOk result (elems.new.items ≡ elems.old.items ++ outside_elem linked.now (numbers_in n.now) ∷ declared_elem linked.now (numbers_in n.now) ∷ []) }
    ensures datas { OnOk result (datas.new.items ≡ datas.old.items ++ texts_segment linked.now ∷ []) }
{
    put_others(alloc, elems, linked, n)?;
    put_texts(alloc, datas, linked)?;
    Ok(())
}

// The segments of the members, which are passive, and those that come behind them.
pub(crate) fn merged_segments(
    alloc: Global,
    linked: &Linked,
    n: &Numbers,
    starts: &StartNumbers,
) -> Result<(List<Elem>, List<Data>), Memory>
    requires { AreNamed linked.now starts.now (numbers_in n.now) }
    ensures elems { IfOk result (λ x. x.0 ≡ merged_elems linked.now (numbers_in n.now)) }
    ensures datas { IfOk result (λ x. x.1 ≡ merged_datas linked.now) }
{
    let parts = passive_parts(alloc, linked, starts)?;
    let PassiveParts { elems, datas } = parts;
    let mut elems = elems.into_vec();
    let mut datas = datas.into_vec();
    match put_behind(alloc, &mut elems, &mut datas, linked, n) {
        Ok(()) => Ok((List::of(elems), List::of(datas))),
        Err(memory) => {
            drop(elems);
            drop(datas);
            Err(memory)
        }
    }
}
