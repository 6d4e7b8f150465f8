// Modules (WebAssembly Core 2.0, section 5.5.16).
ghost use Rattle.std.specs.Prelude.{◌≡◌, ℕ, ◌++◌, List as Listing, Result as Returned, IfOk, IfSome, IfNone};
ghost use Rattle.wasm_form.specs.declared.module.Module.{Module};
ghost use Rattle.spec_reading.specs.spec_binary.Modules.{header};
ghost use Rattle.spec_reading.specs.spec_binary.WellFormed.{IsWellFormed};
ghost use Rattle.spec_reading.specs.spec_binary.declared.fault.DecodeFault.{DecodeFault};
ghost use Rattle.spec_reading.specs.spec_binary.DecodeAnswers.{DecodeAnswer};
ghost use Rattle.spec_reading.specs.Bodies.{usual_room};
ghost use Rattle.spec_reading.specs.Sections.{sections_at, answer_of};
ghost use Rattle.wasm_decode.specs.Given.{Tells};
ghost use Rattle.wasm_decode.specs.Sections.{progress_of};
ghost use Rattle.wasm_decode.specs.Decoded.{Decodes, Yields};

use crate::counts::counts_agree;
use crate::section::{Progress, sections_of};
use spec_reading::spec_binary::DecodeFault;
use std::alloc::Global;
use wasm_form::Module;

// The magic bytes and version 1.
const HEADER: [u8; 8] = [0x00, 0x61, 0x73, 0x6D, 0x01, 0x00, 0x00, 0x00];

// What follows the header.
fn after_header(bytes: &[u8]) -> Option<&[u8]>
    ensures found { IfSome result (λ rest. bytes.now ≡ header ++ rest.now) }
    ensures none { IfNone result ((rest : Listing ℕ) → bytes.now ≡ header ++ rest → ⊥) }
{
    bytes.strip_prefix(&HEADER)
}

// The header, and the sections behind it.
fn all_sections(alloc: Global, bytes: &[u8]) -> Result<Progress, DecodeFault>
    ensures { Tells (λ x. progress_of x) result (sections_at usual_room bytes.now) }
{
    match after_header(bytes) {
        Some(rest) => sections_of(alloc, rest),
        None => Err(DecodeFault::Malformed { section: 0 }),
    }
}

// The module that the bytes spell, or why there is none that is well formed.
#[tactic(auto, unfolding(spec_reading::specs::Sections::answer_of))]
fn module_of(alloc: Global, bytes: &[u8]) -> Result<Module, DecodeFault>
    ensures { Tells (λ x. x) result (answer_of bytes.now) }
{
    let m = all_sections(alloc, bytes)?.module();
    if counts_agree(&m) {
        Ok(m)
    } else {
        drop(m);
        Err(DecodeFault::Counts)
    }
}

/// The module that the bytes spell, where it is well formed and its bodies keep the limits; otherwise the first reason
/// why there is none, or `Memory` where no memory could be had (WebAssembly Core 2.0, chapter 5).
pub fn decode(alloc: Global, bytes: &[u8]) -> Result<Module, DecodeFault>
    ensures answer { Decodes bytes.now result }
    ensures only { (answer : Returned Module DecodeFault) → DecodeAnswer bytes.now answer → Yields answer result }
    ensures formed { IfOk result IsWellFormed }
{
    spec_reading::reading_answers();
    spec_reading::spelled_is_formed();
    module_of(alloc, bytes)
}
