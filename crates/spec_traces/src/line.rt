// What a line of a trace's text says.
use crate::trace::TraceEnd;
use spec_hosts::wasm_form::{List, Text, Write};

/// A host call without its answer: after how many steps it is waited for, the function's module and name, and the arguments in order.
#[derive(Drop)]
pub struct CallHead {
    pub steps: u64,
    pub module: Text,
    pub name: Text,
    pub args: List<u64>,
}

/// A line of the text of a trace.
#[derive(Drop)]
pub enum Line {
    /// A trace begins.
    Header,
    /// A host call.
    Call(CallHead),
    /// A write of its answer.
    Put(Write),
    /// The results of its answer.
    Reply(List<u64>),
    /// The code with which it ends the program.
    Exit(u32),
    /// The number of steps, and how the run ended.
    End(u64, TraceEnd),
}
