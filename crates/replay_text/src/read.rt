// The text of a trace read, line by line.
ghost use Rattle.std.specs.Prelude.{◌≡◌, ◌<◌, ◌++◌, ◌∷◌, [], length, nat_eq, position, MatchOption, MatchResult, Err};
ghost use Rattle.spec_traces.specs.Texts.{line_feed, lines_of};
ghost use Rattle.replay_text.specs.Answers.{Reads};
ghost use Rattle.replay_text.specs.Given.{Gives};
ghost use Rattle.replay_text.specs.Stages.{seen, start, text_step, whole, IsFirstLine, IsReadTo, Ends};

use crate::line::line_of;
use crate::stage::Stage;
use crate::unread::Unread;
use spec_traces::{Trace, TraceFault};
use std::alloc::Global;

/// Where the first line ends, if it does.
fn line_end(bytes: &[u8]) -> Option<usize>
    ensures { result ≡ position (λ b. nat_eq b line_feed) bytes.now }
{
    bytes.iter().position(|b| *b == b'\n')
}

/// The first line, and what stands behind its end.
fn first_line(bytes: &[u8]) -> Option<(&[u8], &[u8])>
    ensures { MatchOption result (lines_of bytes.now ≡ []) (λ cut. IsFirstLine bytes.now cut.0.now cut.1.now) }
{
    let end = line_end(bytes)?;
    Some((&bytes[..end], &bytes[end + 1..]))
}

/// Reads a line.
fn read_line(alloc: Global, text: &[u8], stage: &mut Stage) -> Result<(), Unread>
    ensures { Gives (λ done. seen stage.new) result (text_step (seen stage.old) text.now) }
{
    let line = line_of(alloc, text)?;
    stage.take(alloc, line)
}

/// Reads all lines: the number of the one that would be next, and what stands behind the last one.
fn read_lines<'a>(
    alloc: Global,
    bytes: &'a [u8],
    stage: &mut Stage,
) -> Result<(u32, &'a [u8]), TraceFault>
    requires few { length bytes.now < 4294967296 }
    requires begun { seen stage.old ≡ start }
    ensures { MatchResult result (λ end. IsReadTo bytes.entry.now end.0 end.1.now (seen stage.new) × (lines_of end.1.now ≡ [])) (λ fault. Reads bytes.entry.now (Err fault)) }
{
    let mut rest = bytes;
    let mut line = 1;
    while let Some((text, behind)) = first_line(rest) {
        match read_line(alloc, text, stage) {
            Ok(()) => {}
            Err(Unread::Malformed) => return Err(TraceFault::Line { line }),
            Err(Unread::Memory) => return Err(TraceFault::Memory),
        }
        line += 1;
        rest = behind;
    }
    Ok((line, rest))
}

/// The trace, if no line is due and nothing is left.
fn ended(stage: Stage, line: u32, rest: &[u8]) -> Result<Trace, TraceFault>
    ensures { Ends (whole (seen stage)) line rest.now result }
{
    if !rest.is_empty() {
        drop(stage);
        return Err(TraceFault::Line { line });
    }
    match stage.whole() {
        Some(trace) => Ok(trace),
        None => Err(TraceFault::Line { line }),
    }
}

/// The trace that bytes are the text of. `Line` with the number of the first line, from 1, at which no text of a trace goes on. `Memory` where no
/// memory could be had. No other fault comes.
pub fn read_trace(alloc: Global, bytes: &[u8]) -> Result<Trace, TraceFault>
    requires { length bytes.now < 4294967296 }
    ensures { Reads bytes.now result }
{
    let mut stage = Stage::new(alloc);
    match read_lines(alloc, bytes, &mut stage) {
        Ok((line, rest)) => ended(stage, line, rest),
        Err(fault) => {
            drop(stage);
            Err(fault)
        }
    }
}
