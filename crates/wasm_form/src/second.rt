// The instructions with a second opcode other than float conversions (sections 5.4.5 and 5.4.6).
ghost use Rattle.std.specs.Prelude.{◌≡◌};
ghost use Rattle.wasm_form.specs.Second as specs;

/// An instruction of memories, tables or segments that has a second opcode.
#[derive(Clone, Copy, Debug, PartialEq, Eq)]
pub enum SecondForm {
    MemoryInit,
    DataDrop,
    MemoryCopy,
    MemoryFill,
    TableInit,
    ElemDrop,
    TableCopy,
    TableGrow,
    TableSize,
    TableFill,
}

/// The instruction of memories, tables or segments with this second opcode, if there is one.
#[inline(always)]
pub fn second_form(op: u32) -> Option<SecondForm>
    ensures { result ≡ specs.second_form op }
{
    match op {
        8 => Some(SecondForm::MemoryInit),
        9 => Some(SecondForm::DataDrop),
        10 => Some(SecondForm::MemoryCopy),
        11 => Some(SecondForm::MemoryFill),
        12 => Some(SecondForm::TableInit),
        13 => Some(SecondForm::ElemDrop),
        14 => Some(SecondForm::TableCopy),
        15 => Some(SecondForm::TableGrow),
        16 => Some(SecondForm::TableSize),
        17 => Some(SecondForm::TableFill),
        _ => None,
    }
}
