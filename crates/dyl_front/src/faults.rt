// What is told of a file that is no member of a set.
ghost use Rattle.std.specs.Prelude.{◌≡◌, ◌++◌, IfOk, OnOk, string_bytes};
ghost use Rattle.spec_linking.specs.spec_validation.declared.fault.CheckFault.TheVariants as check;
ghost use Rattle.dyl_front.specs.Lines.{decode_text, record_text, opcode_text, place_text, field_text, check_text, set_text};

use spec_linking::spec_validation::{CheckFault, Field, Place};
use spec_linking::{RecordFault, SetFault};
use spec_merging::wasm_form::Memory;
use spec_traces::dyl_print::{put_escaped, put_hex, put_text};
use spec_traces::spec_hosts::spec_binary::DecodeFault;
use std::alloc::Global;

/// Why a module isn't decoded.
fn decoding_text(alloc: Global, m: u32, fault: &DecodeFault) -> Result<String, Memory>
    ensures { IfOk result (λ text. string_bytes text ≡ decode_text m fault.now) }
{
    let text = match *fault {
        DecodeFault::Malformed { section } => format!(in alloc;
            "module {m} malformed after {section} sections"
        )?,
        DecodeFault::Counts => format!(in alloc; "module {m} counts differ")?,
        DecodeFault::TooDeep { function } => format!(in alloc;
            "module {m} too deep in function {function}"
        )?,
        DecodeFault::TooManyLocals { function } => format!(in alloc;
            "module {m} too many locals in function {function}"
        )?,
        DecodeFault::Memory => format!(in alloc; "out of memory")?,
    };
    Ok(text)
}

/// Why a module has no record.
fn recording_text(alloc: Global, m: u32, fault: &RecordFault) -> Result<String, Memory>
    ensures { IfOk result (λ text. string_bytes text ≡ record_text m fault.now) }
{
    let text = match *fault {
        RecordFault::NoDylink => format!(in alloc; "module {m} has no dylink.0 section")?,
        RecordFault::BadDylink { subsection } => format!(in alloc;
            "module {m} dylink.0 malformed after {subsection} subsections"
        )?,
        RecordFault::Memory => format!(in alloc; "out of memory")?,
    };
    Ok(text)
}

/// Where a type stands.
fn standing_text(alloc: Global, place: Place) -> Result<String, Memory>
    ensures { IfOk result (λ text. string_bytes text ≡ place_text place) }
{
    let text = match place {
        Place::Import(n) => format!(in alloc; "import {n}")?,
        Place::Function(n) => format!(in alloc; "function {n}")?,
        Place::Table(n) => format!(in alloc; "table {n}")?,
        Place::Global(n) => format!(in alloc; "global {n}")?,
        Place::Element(n) => format!(in alloc; "element {n}")?,
        Place::Body(n) => format!(in alloc; "body {n}")?,
    };
    Ok(text)
}

/// Which part of a module is at fault.
fn part_text(field: Field) -> &'static str
    ensures { result.now ≡ field_text field }
{
    match field {
        Field::Import => "import",
        Field::Function => "function",
        Field::Table => "table",
        Field::Space => "memory",
        Field::Global => "global",
        Field::Export => "export",
        Field::Start => "start",
        Field::Element => "element",
        Field::Data => "data",
    }
}

/// Puts an opcode.
fn put_opcode(opcode: u32, to: &mut Vec<u8>) -> Result<(), Memory>
    ensures { OnOk result (to.new.items ≡ to.old.items ++ opcode_text opcode) }
{
    if opcode >= 0xFC00 {
        put_hex((opcode / 256 % 256) as u8, to)?;
    }
    put_hex((opcode % 256) as u8, to)
}

/// Puts that an instruction isn't supported.
fn put_instruction(
    alloc: Global,
    m: u32,
    function: u32,
    opcode: u32,
    to: &mut Vec<u8>,
) -> Result<(), Memory>
    ensures { OnOk result (to.new.items ≡ to.old.items ++ check_text m (check.UnsupportedOp function opcode)) }
{
    put_text(
        &format!(in alloc; "module {m} unsupported instruction ")?,
        to,
    )?;
    put_opcode(opcode, to)?;
    put_text(&format!(in alloc; " in function {function}")?, to)
}

/// That a type isn't supported.
fn type_text(alloc: Global, m: u32, place: Place) -> Result<String, Memory>
    ensures { IfOk result (λ text. string_bytes text ≡ check_text m (check.UnsupportedType place)) }
{
    let place = standing_text(alloc, place)?;
    let text = format!(in alloc; "module {m} unsupported type in {place}")?;
    Ok(text)
}

/// That a part of the module isn't valid.
fn invalid_text(alloc: Global, m: u32, field: Field) -> Result<String, Memory>
    ensures { IfOk result (λ text. string_bytes text ≡ check_text m (check.BadModule field)) }
{
    let part = part_text(field);
    let text = format!(in alloc; "module {m} invalid {part}")?;
    Ok(text)
}

/// That a body isn't well typed.
fn body_text(alloc: Global, m: u32, function: u32) -> Result<String, Memory>
    ensures { IfOk result (λ text. string_bytes text ≡ check_text m (check.BadBody function)) }
{
    let text = format!(in alloc; "module {m} invalid body of function {function}")?;
    Ok(text)
}

/// Puts which fault a module has.
fn put_check(alloc: Global, m: u32, fault: &CheckFault, to: &mut Vec<u8>) -> Result<(), Memory>
    ensures { OnOk result (to.new.items ≡ to.old.items ++ check_text m fault.now) }
{
    match *fault {
        CheckFault::UnsupportedOp { function, opcode } => put_instruction(
            alloc, m, function, opcode, to,
        ),
        CheckFault::UnsupportedType { place } => put_text(&type_text(alloc, m, place)?, to),
        CheckFault::BadModule { field } => put_text(&invalid_text(alloc, m, field)?, to),
        CheckFault::BadBody { function } => put_text(&body_text(alloc, m, function)?, to),
        CheckFault::Memory => put_text("out of memory", to),
    }
}

/// Puts why there is no closed set.
pub(crate) fn put_set(alloc: Global, fault: &SetFault, to: &mut Vec<u8>) -> Result<(), Memory>
    ensures { OnOk result (to.new.items ≡ to.old.items ++ set_text fault.now) }
{
    match fault {
        SetFault::Missing { name } => {
            put_text("missing ", to)?;
            put_escaped(name.as_str(), to)
        }
        SetFault::ReadFault { path } => {
            put_text("read fault ", to)?;
            put_escaped(path.as_str(), to)
        }
        SetFault::Decode { module, fault } => put_text(&decoding_text(alloc, *module, fault)?, to),
        SetFault::Record { module, fault } => put_text(&recording_text(alloc, *module, fault)?, to),
        SetFault::Check { module, fault } => put_check(alloc, *module, fault, to),
        SetFault::ModuleCount => put_text("more than 256 modules", to),
        SetFault::SetSize => put_text("files too long", to),
        SetFault::Memory => put_text("out of memory", to),
    }
}
