// The instructions with one index (sections 5.4.1, 5.4.2, 5.4.4 and 5.4.5).
ghost use Rattle.std.specs.Prelude.{◌≡◌};
ghost use Rattle.wasm_form.specs.Index as specs;

/// An instruction with one index.
#[derive(Clone, Copy, Debug, PartialEq, Eq)]
pub enum IndexForm {
    Br,
    BrIf,
    Call,
    LocalGet,
    LocalSet,
    LocalTee,
    GlobalGet,
    GlobalSet,
    TableGet,
    TableSet,
    RefFunc,
}

/// The instruction with this opcode and one index, if there is one.
#[inline(always)]
pub fn index_form(op: u8) -> Option<IndexForm>
    ensures { result ≡ specs.index_form op }
{
    match op {
        0x0C => Some(IndexForm::Br),
        0x0D => Some(IndexForm::BrIf),
        0x10 => Some(IndexForm::Call),
        0x20 => Some(IndexForm::LocalGet),
        0x21 => Some(IndexForm::LocalSet),
        0x22 => Some(IndexForm::LocalTee),
        0x23 => Some(IndexForm::GlobalGet),
        0x24 => Some(IndexForm::GlobalSet),
        0x25 => Some(IndexForm::TableGet),
        0x26 => Some(IndexForm::TableSet),
        0xD2 => Some(IndexForm::RefFunc),
        _ => None,
    }
}
