// The numbers of a linked set in its merged module, and its globals and segments there.
ghost use Rattle.std.specs.Prelude.{◌≡◌, ◌<◌, ◌^◌, IfOk, IfSome};
ghost use Rattle.merge_index.specs.Kept.{numbers_in};
ghost use Rattle.merge_index.specs.Numbering as numbering;
ghost use Rattle.merge_index.specs.Numbering.{first_phase, numbers_of};
ghost use Rattle.merge_whole.specs.Given.{IsGiven, AreSmall};

use crate::built::globals::merged_globals;
use crate::built::loader::loader_numbers;
use crate::built::segments::merged_segments;
use crate::built::starts::set_starts;
use dyl_link::Linked;
use merge_dl::DlNumbers;
use merge_index::Numbers;
use merge_start::StartNumbers;
use std::alloc::Global;
use wasm_form::{Data, Elem, GlobalDef, List, Memory};

#[derive(Drop)]
pub(crate) struct Given {
    pub numbers: Numbers,
    pub starts: StartNumbers,
    pub loader: Option<DlNumbers>,
    pub globals: List<GlobalDef>,
    pub elems: List<Elem>,
    pub datas: List<Data>,
}

// The same without the numbers.
#[derive(Drop)]
struct Rest {
    starts: StartNumbers,
    loader: Option<DlNumbers>,
    globals: List<GlobalDef>,
    elems: List<Elem>,
    datas: List<Data>,
}

fn rest_of(alloc: Global, linked: &Linked, numbers: &Numbers) -> Result<Rest, Memory>
    requires numbers { numbers_in numbers.now ≡ numbers_of linked.now }
    requires phase { numbers.now.first_phase ≡ first_phase linked.now }
    requires loader { numbers.now.loader ≡ numbering.loader_numbers linked.now }
    ensures given { IfOk result (λ r. IsGiven linked.now (record { numbers = numbers.now; starts = r.starts; loader = r.loader; globals = r.globals; elems = r.elems; datas = r.datas })) }
    ensures guard { IfOk result (λ r. r.starts.guard < 2 ^ 31) }
    ensures first { IfOk result (λ r. r.starts.first_function < 2 ^ 31) }
    ensures small { IfOk result (λ r. IfSome r.loader AreSmall) }
{
    linked.links();
    let (globals, guard) = merged_globals(alloc, linked, numbers)?;
    let loader = loader_numbers(alloc, linked, numbers, guard)?;
    let starts = set_starts(alloc, linked, numbers, guard)?;
    let (elems, datas) = merged_segments(alloc, linked, numbers, &starts)?;
    Ok(Rest {
        starts,
        loader,
        globals,
        elems,
        datas,
    })
}

pub(crate) fn make_given(alloc: Global, linked: &Linked) -> Result<Given, Memory>
    ensures given { IfOk result (λ g. IsGiven linked.now g) }
    ensures guard { IfOk result (λ g. g.starts.guard < 2 ^ 31) }
    ensures first { IfOk result (λ g. g.starts.first_function < 2 ^ 31) }
    ensures small { IfOk result (λ g. IfSome g.loader AreSmall) }
{
    let numbers = Numbers::of(alloc, linked)?;
    match rest_of(alloc, linked, &numbers) {
        Ok(rest) => Ok(Given {
            numbers,
            starts: rest.starts,
            loader: rest.loader,
            globals: rest.globals,
            elems: rest.elems,
            datas: rest.datas,
        }),
        Err(memory) => {
            drop(numbers);
            Err(memory)
        }
    }
}
