// The instructions without operands other than those of floats (sections 5.4.1 to 5.4.3 and 5.4.7).
ghost use Rattle.std.specs.Prelude.{◌≡◌};
ghost use Rattle.wasm_form.specs.Plain as specs;

use crate::ValType;

/// An operator of integers, by the type of its operands.
#[derive(Clone, Copy, Debug, PartialEq, Eq)]
pub enum Operator {
    /// Whether a number is zero.
    Test(ValType),
    /// A comparison of two numbers.
    Compare(ValType),
    /// A function of one number.
    Unary(ValType),
    /// A function of two numbers.
    Binary(ValType),
    /// A number of another type or of fewer bits, as one of this type.
    Convert { from: ValType, to: ValType },
}

/// An instruction without operands.
#[derive(Clone, Copy, Debug, PartialEq, Eq)]
pub enum PlainForm {
    Unreachable,
    Nop,
    Return,
    Drop,
    Select,
    RefIsNull,
    Operator(Operator),
}

/// The operator of integers with this opcode, if there is one.
fn numeric(op: u8) -> Option<Operator>
    ensures { result ≡ specs.operator op }
{
    match op {
        0x45 => Some(Operator::Test(ValType::I32)),
        0x46..=0x4F => Some(Operator::Compare(ValType::I32)),
        0x50 => Some(Operator::Test(ValType::I64)),
        0x51..=0x5A => Some(Operator::Compare(ValType::I64)),
        0x67..=0x69 => Some(Operator::Unary(ValType::I32)),
        0x6A..=0x78 => Some(Operator::Binary(ValType::I32)),
        0x79..=0x7B => Some(Operator::Unary(ValType::I64)),
        0x7C..=0x8A => Some(Operator::Binary(ValType::I64)),
        0xA7 => convert(ValType::I64, ValType::I32),
        0xAC..=0xAD => convert(ValType::I32, ValType::I64),
        0xC0..=0xC1 => convert(ValType::I32, ValType::I32),
        0xC2..=0xC4 => convert(ValType::I64, ValType::I64),
        _ => None,
    }
}

/// A conversion between these types.
fn convert(from: ValType, to: ValType) -> Option<Operator>
    ensures { result ≡ specs.convert from to }
{
    Some(Operator::Convert { from, to })
}

/// The instruction without operands that has this opcode, if there is one and it isn't one of floats.
#[inline(always)]
pub fn plain_form(op: u8) -> Option<PlainForm>
    ensures { result ≡ specs.plain_form op }
{
    match op {
        0x00 => Some(PlainForm::Unreachable),
        0x01 => Some(PlainForm::Nop),
        0x0F => Some(PlainForm::Return),
        0x1A => Some(PlainForm::Drop),
        0x1B => Some(PlainForm::Select),
        0xD1 => Some(PlainForm::RefIsNull),
        _ => numeric(op).map(PlainForm::Operator),
    }
}
