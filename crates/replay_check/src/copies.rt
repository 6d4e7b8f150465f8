// Copies of answers.
ghost use Rattle.std.specs.Prelude.{◌≡◌, IfOk};

use spec_traces::spec_hosts::wasm_form::{Answer, List, Memory, Write};
use std::alloc::Global;

fn copied_write(alloc: Global, write: &Write) -> Result<Write, Memory>
    ensures { IfOk result (λ w. w ≡ write.now) }
{
    let bytes = Vec::from_slice(alloc, write.bytes.items())?;
    Ok(Write {
        at: write.at,
        bytes: List::of(bytes),
    })
}

fn copied_writes(alloc: Global, writes: &[Write]) -> Result<Vec<Write>, Memory>
    ensures { IfOk result (λ copies. copies.items ≡ writes.now) }
{
    let mut copies = Vec::new(alloc);
    for write in writes {
        let copy = copied_write(alloc, write)?;
        copies.push(copy)?;
    }
    Ok(copies)
}

/// A copy of an answer. `Memory` where no memory could be had.
pub(crate) fn copied_answer(alloc: Global, answer: &Answer) -> Result<Answer, Memory>
    ensures { IfOk result (λ a. a ≡ answer.now) }
{
    match answer {
        Answer::Reply { results, writes } => {
            let results = Vec::from_slice(alloc, results.items())?;
            let writes = copied_writes(alloc, writes.items())?;
            Ok(Answer::Reply {
                results: List::of(results),
                writes: List::of(writes),
            })
        }
        Answer::Exit(code) => Ok(Answer::Exit(*code)),
    }
}
