// A trace, as far as its lines are read.
ghost use Rattle.std.specs.Prelude.{◌≡◌};
ghost use Rattle.replay_text.specs.Given.{Gives};
ghost use Rattle.replay_text.specs.Stages.{seen, start, answered, header_step, call_step, put_step, reply_step, exit_step, end_step, step, whole};

use crate::unread::Unread;
use spec_traces::spec_hosts::wasm_form::{Answer, List, Write};
use spec_traces::{CallHead, Line, Trace, TraceCall, TraceEnd};
use std::alloc::Global;
use std::mem;

/// Which line is due.
#[derive(Drop)]
pub(crate) enum Due {
    /// The first one.
    Header,
    /// A call, or the end.
    Call,
    /// A write, the results or an exit, for this call.
    Answer(CallHead),
    /// None: the steps and the end are read.
    Nothing(u64, TraceEnd),
}

/// What is read: the calls with their answers, the writes of the answer that is due, and what is due.
#[derive(Drop)]
pub(crate) struct Stage {
    calls: Vec<TraceCall>,
    writes: Vec<Write>,
    due: Due,
}

/// A call with its answer.
fn answered(head: CallHead, answer: Answer) -> TraceCall
    ensures { result ≡ answered head answer }
{
    let CallHead {
        steps,
        module,
        name,
        args,
    } = head;
    TraceCall {
        steps,
        module,
        name,
        args,
        answer,
    }
}

impl Stage {
    /// Nothing is read.
    pub(crate) fn new(alloc: Global) -> Stage
        ensures { seen result ≡ start }
    {
        Stage {
            calls: Vec::new(alloc),
            writes: Vec::new(alloc),
            due: Due::Header,
        }
    }

    fn header(&mut self) -> Result<(), Unread>
        ensures { Gives (λ done. seen self.new) result (header_step self.old.due (seen self.old)) }
    {
        match self.due {
            Due::Header => {
                self.due = Due::Call;
                Ok(())
            }
            _ => Err(Unread::Malformed),
        }
    }

    fn call(&mut self, head: CallHead) -> Result<(), Unread>
        ensures { Gives (λ done. seen self.new) result (call_step head self.old.due (seen self.old)) }
    {
        match self.due {
            Due::Call => {
                self.due = Due::Answer(head);
                Ok(())
            }
            _ => {
                drop(head);
                Err(Unread::Malformed)
            }
        }
    }

    fn put(&mut self, write: Write) -> Result<(), Unread>
        ensures { Gives (λ done. seen self.new) result (put_step write self.old.due (seen self.old)) }
    {
        match self.due {
            Due::Answer(_) => {
                self.writes.push(write)?;
                Ok(())
            }
            _ => {
                drop(write);
                Err(Unread::Malformed)
            }
        }
    }

    fn reply(&mut self, alloc: Global, results: List<u64>) -> Result<(), Unread>
        ensures { Gives (λ done. seen self.new) result (reply_step results self.old.due (seen self.old)) }
    {
        match mem::replace(&mut self.due, Due::Call) {
            Due::Answer(head) => {
                let writes = List::of(mem::replace(&mut self.writes, Vec::new(alloc)));
                self.calls
                    .push(answered(head, Answer::Reply { results, writes }))?;
                Ok(())
            }
            due => {
                drop(due);
                drop(results);
                Err(Unread::Malformed)
            }
        }
    }

    fn exit(&mut self, code: u32) -> Result<(), Unread>
        ensures { Gives (λ done. seen self.new) result (exit_step code self.old.due (seen self.old)) }
    {
        if !self.writes.is_empty() {
            return Err(Unread::Malformed);
        }
        match mem::replace(&mut self.due, Due::Call) {
            Due::Answer(head) => {
                self.calls.push(answered(head, Answer::Exit(code)))?;
                Ok(())
            }
            due => {
                drop(due);
                Err(Unread::Malformed)
            }
        }
    }

    fn end(&mut self, steps: u64, end: TraceEnd) -> Result<(), Unread>
        ensures { Gives (λ done. seen self.new) result (end_step steps end self.old.due (seen self.old)) }
    {
        match self.due {
            Due::Call => {
                self.due = Due::Nothing(steps, end);
                Ok(())
            }
            _ => Err(Unread::Malformed),
        }
    }

    /// Takes the next line. `Malformed` where it isn't due.
    pub(crate) fn take(&mut self, alloc: Global, line: Line) -> Result<(), Unread>
        ensures { Gives (λ done. seen self.new) result (step (seen self.old) line) }
    {
        match line {
            Line::Header => self.header(),
            Line::Call(head) => self.call(head),
            Line::Put(write) => self.put(write),
            Line::Reply(results) => self.reply(alloc, results),
            Line::Exit(code) => self.exit(code),
            Line::End(steps, end) => self.end(steps, end),
        }
    }

    /// The trace, if no line is due.
    pub(crate) fn whole(self) -> Option<Trace>
        ensures { result ≡ whole (seen self) }
    {
        let Stage { calls, writes, due } = self;
        drop(writes);
        match due {
            Due::Nothing(steps, end) => Some(Trace {
                calls: List::of(calls),
                steps,
                end,
            }),
            due => {
                drop(due);
                drop(calls);
                None
            }
        }
    }
}
