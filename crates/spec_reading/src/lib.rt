//! The binary format read from left to right, as functions over lists: a device by which the laws of the format are proved.
#![tactic(auto)]

ghost use Rattle.spec_reading.specs.Laws.{OneModule, ReadingAnswers, SpelledIsFormed};

pub use spec_binary;

/// There is one answer for bytes, and reading from left to right gives it (WebAssembly Core 2.0, chapter 5).
pub fn reading_answers()
    ensures { ReadingAnswers }
{}

/// Bytes spell at most one module (section 5.5.16).
pub fn bytes_spell_one_module()
    ensures { OneModule }
{}

/// A module that bytes spell is well formed where its bodies keep the limits and its numbers agree.
pub fn spelled_is_formed()
    ensures { SpelledIsFormed }
{}
