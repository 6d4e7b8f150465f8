// Lines, by their words.
ghost use Rattle.std.specs.Prelude.{◌≡◌, map, option_copied, Some};
ghost use Rattle.dyl_print.specs.Printed.{trap_text, end_word};
ghost use Rattle.spec_traces.specs.Texts.{run_end};
ghost use Rattle.spec_traces.specs.Reading.{plain_ends, named_so, trap_of, end_by, end_of, read_header, read_call, read_put, read_reply, read_exit, read_ending, read_end, text_line, has_words, words_line, line_of};
ghost use Rattle.replay_text.specs.Given.{Gives};

use crate::bytes::bytes_of;
use crate::names::name_of;
use crate::numbers::{number_below, number_of_32_bits, numbers};
use crate::unread::Unread;
use crate::words::{first_word, words};
use spec_traces::spec_hosts::wasm_form::{Trap, Write};
use spec_traces::{CallHead, Line, TraceEnd};
use std::alloc::Global;

// One more than the greatest number of steps.
const STEPS_END: u64 = 9_223_372_036_854_775_808;

/// The trap of a cause.
fn trap_of(text: &str) -> Result<Trap, Unread>
    ensures { Gives (λ trap. trap) result (trap_of text.now) }
{
    match text {
        "unreachable" => Ok(Trap::Unreachable),
        "memory bounds" => Ok(Trap::MemoryBounds),
        "table bounds" => Ok(Trap::TableBounds),
        "null entry" => Ok(Trap::NullEntry),
        "wrong type" => Ok(Trap::WrongType),
        "divide by zero" => Ok(Trap::DivideByZero),
        "overflow" => Ok(Trap::Overflow),
        _ => Err(Unread::Malformed),
    }
}

/// The end that is told by this one word.
fn plain_end(word: &str) -> Result<TraceEnd, Unread>
    ensures { Gives (λ how. how) result (named_so (λ how. end_word (run_end how)) plain_ends word.now) }
{
    match word {
        "return" => Ok(TraceEnd::Return),
        "steplimit" => Ok(TraceEnd::StepLimit),
        "depthlimit" => Ok(TraceEnd::DepthLimit),
        "hostcalllimit" => Ok(TraceEnd::HostCallLimit),
        _ => Err(Unread::Malformed),
    }
}

/// The end that is told by this word, with what stands behind it.
fn end_with(word: &str, rest: &str) -> Result<TraceEnd, Unread>
    ensures { Gives (λ how. how) result (end_by word.now (Some rest.now)) }
{
    match word {
        "exit" => {
            let code = number_of_32_bits(rest)?;
            Ok(TraceEnd::Exit(code))
        }
        "trap" => {
            let trap = trap_of(rest)?;
            Ok(TraceEnd::Trap(trap))
        }
        _ => Err(Unread::Malformed),
    }
}

/// How a run ended.
#[tactic(auto, unfolding(spec_traces::specs::Reading::end_of))]
fn end_of(text: &str) -> Result<TraceEnd, Unread>
    ensures { Gives (λ how. how) result (end_of text.now) }
{
    let (word, rest) = first_word(text);
    match rest {
        Some(rest) => end_with(word, rest),
        None => plain_end(word),
    }
}

/// That a trace begins.
fn header(text: &str) -> Result<Line, Unread>
    ensures { Gives (λ line. line) result (read_header text.now) }
{
    if text == "1" {
        Ok(Line::Header)
    } else {
        Err(Unread::Malformed)
    }
}

/// A host call.
#[tactic(auto, unfolding(spec_traces::specs::Reading::read_call))]
fn call(alloc: Global, words: &[&str]) -> Result<Line, Unread>
    ensures { Gives (λ line. line) result (read_call (map (λ word. word.now) words.now)) }
{
    let [steps, module, name, args @ ..] = words else {
        return Err(Unread::Malformed);
    };
    let steps = number_below(steps, STEPS_END)?;
    let module = name_of(alloc, module)?;
    let name = name_of(alloc, name)?;
    let args = numbers(alloc, args)?;
    Ok(Line::Call(CallHead {
        steps,
        module,
        name,
        args,
    }))
}

/// A write.
#[tactic(auto, unfolding(spec_traces::specs::Reading::read_put))]
fn put(alloc: Global, words: &[&str]) -> Result<Line, Unread>
    ensures { Gives (λ line. line) result (read_put (map (λ word. word.now) words.now)) }
{
    let [at, bytes] = words else {
        return Err(Unread::Malformed);
    };
    let at = number_of_32_bits(at)?;
    let bytes = bytes_of(alloc, bytes)?;
    Ok(Line::Put(Write { at, bytes }))
}

/// The results of a call.
#[tactic(auto, unfolding(spec_traces::specs::Reading::read_reply))]
fn reply(alloc: Global, words: &[&str]) -> Result<Line, Unread>
    ensures { Gives (λ line. line) result (read_reply (map (λ word. word.now) words.now)) }
{
    let results = numbers(alloc, words)?;
    Ok(Line::Reply(results))
}

/// The code with which a call ends the program.
#[tactic(auto, unfolding(spec_traces::specs::Reading::read_exit))]
fn exit(words: &[&str]) -> Result<Line, Unread>
    ensures { Gives (λ line. line) result (read_exit (map (λ word. word.now) words.now)) }
{
    let [code] = words else {
        return Err(Unread::Malformed);
    };
    let code = number_of_32_bits(code)?;
    Ok(Line::Exit(code))
}

/// The number of steps, and how the run ended.
fn ending(steps: &str, text: &str) -> Result<Line, Unread>
    ensures { Gives (λ line. line) result (read_ending steps.now (Some text.now)) }
{
    let steps = number_below(steps, STEPS_END)?;
    let end = end_of(text)?;
    Ok(Line::End(steps, end))
}

/// The same, from one text.
#[tactic(auto, unfolding(spec_traces::specs::Reading::read_end))]
fn end(text: &str) -> Result<Line, Unread>
    ensures { Gives (λ line. line) result (read_end text.now) }
{
    let (steps, rest) = first_word(text);
    match rest {
        Some(text) => ending(steps, text),
        None => Err(Unread::Malformed),
    }
}

/// A line of one text behind its first word.
fn line_of_text(word: &str, rest: Option<&str>) -> Result<Line, Unread>
    ensures { Gives (λ line. line) result (text_line word.now (option_copied rest.entry)) }
{
    let Some(text) = rest else {
        return Err(Unread::Malformed);
    };
    match word {
        "end" => end(text),
        "trace" => header(text),
        _ => Err(Unread::Malformed),
    }
}

/// A line of words behind its first word.
fn line_of_words(alloc: Global, word: &str, words: &[&str]) -> Result<Line, Unread>
    ensures { Gives (λ line. line) result (words_line word.now (map (λ word. word.now) words.now)) }
{
    match word {
        "call" => call(alloc, words),
        "put" => put(alloc, words),
        "reply" => reply(alloc, words),
        "exit" => exit(words),
        _ => Err(Unread::Malformed),
    }
}

/// Whether words stand behind the first word of a line.
fn has_words(word: &str) -> bool
    ensures { result ≡ has_words word.now }
{
    match word {
        "call" | "put" | "reply" | "exit" => true,
        _ => false,
    }
}

/// What a line says.
#[tactic(auto, unfolding(spec_traces::specs::Reading::line_of))]
fn line(alloc: Global, text: &str) -> Result<Line, Unread>
    ensures { Gives (λ line. line) result (line_of text.now) }
{
    let (word, rest) = first_word(text);
    if has_words(word) {
        return line_of_words(alloc, word, &words(alloc, rest)?);
    }
    line_of_text(word, rest)
}

/// What the bytes of a line say.
pub(crate) fn line_of(alloc: Global, bytes: &[u8]) -> Result<Line, Unread>
    ensures { Gives (λ line. line) result (line_of bytes.now) }
{
    match str::from_utf8(bytes) {
        Ok(text) => line(alloc, text),
        Err(_) => Err(Unread::Malformed),
    }
}
