// The numbers of a call that is noted are in the ranges of their types.
ghost use Rattle.std.specs.Prelude.{◌<◌, ◌^◌, All};
ghost use Rattle.spec_traces.specs.Texts.{IsWriteInRange, IsAnswerInRange, IsCallInRange};

use spec_traces::TraceCall;
use spec_traces::spec_hosts::wasm_form::{Answer, Write};

fn are_numbers(numbers: &[u64])
    ensures { All (λ n. n < 2 ^ 64) numbers.now }
{}

fn are_bytes(bytes: &[u8])
    ensures { All (λ b. b < 256) bytes.now }
{}

fn write_in_range(write: &Write)
    ensures { IsWriteInRange write.now }
{
    let _at = write.at;
    are_bytes(write.bytes.items());
}

fn writes_in_range(writes: &[Write])
    ensures { All IsWriteInRange writes.now }
{
    for write in writes {
        write_in_range(write);
    }
}

fn answer_in_range(answer: &Answer)
    ensures { IsAnswerInRange answer.now }
{
    match answer {
        Answer::Reply { results, writes } => {
            are_numbers(results.items());
            writes_in_range(writes.items());
        }
        Answer::Exit(code) => {
            let _code = *code;
        }
    }
}

/// A call is in range where the number of its steps is. The function does nothing: a proof gets this fact by it.
pub(crate) fn call_in_range(call: &TraceCall)
    ensures { call.now.steps < 2 ^ 63 → IsCallInRange call.now }
{
    let _module = call.module.as_str();
    let _name = call.name.as_str();
    are_numbers(call.args.items());
    answer_in_range(&call.answer);
}
