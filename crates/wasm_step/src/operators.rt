// Integer operators on the topmost values (section 4.4.1).
ghost use Rattle.std.specs.Prelude.{◌≡◌, IsSome, IfSome, false};
ghost use Rattle.spec_execution.specs.Values.{low};
ghost use Rattle.wasm_form.specs.Plain.{operator as operator_of, as_plain};
ghost use Rattle.spec_execution.specs.spec_runtime.Numerics.{W32, unary_of, binary_of, binary as binary_outcome, compare_of, compare as compare_result, convert_of};
ghost use Rattle.spec_execution.specs.Activations.{with_values, with_number, unary_move, binary_move, compare_move, convert_move, plain_move};
ghost use Rattle.wasm_num.specs.Answers.{answer};
ghost use Rattle.wasm_step.specs.Tops.{with_act};
ghost use Rattle.wasm_step.specs.Moves.{Took, IsSafe};
ghost use Rattle.wasm_step.specs.Opcodes.{is_narrow, is_wide};

use crate::current::Current;
use crate::done::Done;
use wasm_form::Trap;
use wasm_num::{binary, compare, convert, unary};

/// The low 32 bits of a number.
#[inline(always)]
pub(crate) fn low_word(n: u64) -> u64
    ensures { result ≡ low W32 n }
{
    n % (1 << 32)
}

/// A function of one number. The opcodes up to 69 are those of 32 bits.
#[inline(always)]
fn unary_on(top: &mut Current, op: u8) -> Done
    requires operator { IsSome (unary_of op) }
    requires safe { IsSafe top.old (with_number top.old.act.values (λ n vs. unary_move (with_values top.old.act vs) n (unary_of op))) }
    ensures took { Took result (with_number top.old.act.values (λ n vs. unary_move (with_values top.old.act vs) n (unary_of op))) top.old top.new }
    ensures rest { top.new ≡ with_act top.old top.new.act }
{
    let n = top.number();
    let n = if op <= 0x69 { low_word(n) } else { n };
    top.set_number(unary(op, n));
    Done::Goes
}

/// What an operator gives of two numbers. The opcodes up to 78 are those of 32 bits.
fn computed(op: u8, x: u64, y: u64) -> Result<u64, Trap>
    requires { IsSome (binary_of op) }
    ensures { IfSome (binary_of op) (λ o. result ≡ answer (binary_outcome o.0 o.1 (low o.0 x) (low o.0 y))) }
{
    if op <= 0x78 {
        binary(op, low_word(x), low_word(y))
    } else {
        binary(op, x, y)
    }
}

/// A function of two numbers.
#[tactic(auto, using(crate::proofs::Outcomes::outcome_answered))]
#[inline(always)]
fn binary_on(top: &mut Current, op: u8) -> Done
    requires operator { IsSome (binary_of op) }
    requires safe { IsSafe top.old (with_number top.old.act.values (λ y vs. with_number vs (λ x ws. binary_move (with_values top.old.act ws) x y (binary_of op)))) }
    ensures took { Took result (with_number top.old.act.values (λ y vs. with_number vs (λ x ws. binary_move (with_values top.old.act ws) x y (binary_of op)))) top.old top.new }
    ensures rest { top.new ≡ with_act top.old top.new.act }
{
    let y = top.pop_number();
    let x = top.number();
    match computed(op, x, y) {
        Ok(n) => {
            top.set_number(n);
            Done::Goes
        }
        Err(trap) => Done::Trapped(trap),
    }
}

/// What a comparison says of two numbers. The opcodes up to 4F are those of 32 bits.
fn compared(op: u8, x: u64, y: u64) -> bool
    requires { IsSome (compare_of op) }
    ensures { IfSome (compare_of op) (λ o. result ≡ compare_result o.0 o.1 (low o.0 x) (low o.0 y)) }
{
    if op <= 0x4F {
        compare(op, low_word(x), low_word(y))
    } else {
        compare(op, x, y)
    }
}

/// Whether a number is zero.
#[inline(always)]
fn test_on(top: &mut Current, op: u8) -> Done
    requires operator { IsSome (compare_of op) }
    requires safe { IsSafe top.old (with_number top.old.act.values (λ n vs. compare_move (with_values top.old.act vs) n 0 (compare_of op))) }
    ensures took { Took result (with_number top.old.act.values (λ n vs. compare_move (with_values top.old.act vs) n 0 (compare_of op))) top.old top.new }
    ensures rest { top.new ≡ with_act top.old top.new.act }
{
    let n = top.number();
    top.set_number(u64::from(compared(op, n, 0)));
    Done::Goes
}

/// A comparison of two numbers.
#[inline(always)]
fn compare_on(top: &mut Current, op: u8) -> Done
    requires operator { IsSome (compare_of op) }
    requires safe { IsSafe top.old (with_number top.old.act.values (λ y vs. with_number vs (λ x ws. compare_move (with_values top.old.act ws) x y (compare_of op)))) }
    ensures took { Took result (with_number top.old.act.values (λ y vs. with_number vs (λ x ws. compare_move (with_values top.old.act ws) x y (compare_of op)))) top.old top.new }
    ensures rest { top.new ≡ with_act top.old top.new.act }
{
    let y = top.pop_number();
    let x = top.number();
    top.set_number(u64::from(compared(op, x, y)));
    Done::Goes
}

/// A conversion of a number. Those of a number of 64 bits are A7 and C2 to C4.
#[inline(always)]
fn convert_on(top: &mut Current, op: u8) -> Done
    requires operator { IsSome (convert_of op) }
    requires safe { IsSafe top.old (with_number top.old.act.values (λ n vs. convert_move (with_values top.old.act vs) n (convert_of op))) }
    ensures took { Took result (with_number top.old.act.values (λ n vs. convert_move (with_values top.old.act vs) n (convert_of op))) top.old top.new }
    ensures rest { top.new ≡ with_act top.old top.new.act }
{
    let n = top.number();
    let n = if op == 0xA7 || op >= 0xC2 {
        n
    } else {
        low_word(n)
    };
    top.set_number(convert(op, n));
    Done::Goes
}

/// An operator of i32 by its opcode, or one of the others.
#[inline(always)]
pub(crate) fn narrow(top: &mut Current, op: u8) -> Done
    requires safe { IsSafe top.old (plain_move op (as_plain (operator_of op)) top.old.act) }
    ensures took { Took result (plain_move op (as_plain (operator_of op)) top.old.act) top.old top.new }
    ensures rest { top.new ≡ with_act top.old top.new.act }
{
    match op {
        0x45 => test_on(top, 0x45),
        0x46 => compare_on(top, 0x46),
        0x47 => compare_on(top, 0x47),
        0x48 => compare_on(top, 0x48),
        0x49 => compare_on(top, 0x49),
        0x4A => compare_on(top, 0x4A),
        0x4B => compare_on(top, 0x4B),
        0x4C => compare_on(top, 0x4C),
        0x4D => compare_on(top, 0x4D),
        0x4E => compare_on(top, 0x4E),
        0x4F => compare_on(top, 0x4F),
        0x67 => unary_on(top, 0x67),
        0x68 => unary_on(top, 0x68),
        0x69 => unary_on(top, 0x69),
        0x6A => binary_on(top, 0x6A),
        0x6B => binary_on(top, 0x6B),
        0x6C => binary_on(top, 0x6C),
        0x6D => binary_on(top, 0x6D),
        0x6E => binary_on(top, 0x6E),
        0x6F => binary_on(top, 0x6F),
        0x70 => binary_on(top, 0x70),
        0x71 => binary_on(top, 0x71),
        0x72 => binary_on(top, 0x72),
        0x73 => binary_on(top, 0x73),
        0x74 => binary_on(top, 0x74),
        0x75 => binary_on(top, 0x75),
        0x76 => binary_on(top, 0x76),
        0x77 => binary_on(top, 0x77),
        0x78 => binary_on(top, 0x78),
        _ => wide(top, op),
    }
}

/// An operator of i64 by its opcode, or a conversion.
#[inline(always)]
fn wide(top: &mut Current, op: u8) -> Done
    requires narrow { is_narrow op ≡ false }
    requires safe { IsSafe top.old (plain_move op (as_plain (operator_of op)) top.old.act) }
    ensures took { Took result (plain_move op (as_plain (operator_of op)) top.old.act) top.old top.new }
    ensures rest { top.new ≡ with_act top.old top.new.act }
{
    match op {
        0x50 => test_on(top, 0x50),
        0x51 => compare_on(top, 0x51),
        0x52 => compare_on(top, 0x52),
        0x53 => compare_on(top, 0x53),
        0x54 => compare_on(top, 0x54),
        0x55 => compare_on(top, 0x55),
        0x56 => compare_on(top, 0x56),
        0x57 => compare_on(top, 0x57),
        0x58 => compare_on(top, 0x58),
        0x59 => compare_on(top, 0x59),
        0x5A => compare_on(top, 0x5A),
        0x79 => unary_on(top, 0x79),
        0x7A => unary_on(top, 0x7A),
        0x7B => unary_on(top, 0x7B),
        0x7C => binary_on(top, 0x7C),
        0x7D => binary_on(top, 0x7D),
        0x7E => binary_on(top, 0x7E),
        0x7F => binary_on(top, 0x7F),
        0x80 => binary_on(top, 0x80),
        0x81 => binary_on(top, 0x81),
        0x82 => binary_on(top, 0x82),
        0x83 => binary_on(top, 0x83),
        0x84 => binary_on(top, 0x84),
        0x85 => binary_on(top, 0x85),
        0x86 => binary_on(top, 0x86),
        0x87 => binary_on(top, 0x87),
        0x88 => binary_on(top, 0x88),
        0x89 => binary_on(top, 0x89),
        0x8A => binary_on(top, 0x8A),
        _ => conversion(top, op),
    }
}

/// A conversion by its opcode.
#[inline(always)]
fn conversion(top: &mut Current, op: u8) -> Done
    requires narrow { is_narrow op ≡ false }
    requires wide { is_wide op ≡ false }
    requires safe { IsSafe top.old (plain_move op (as_plain (operator_of op)) top.old.act) }
    ensures took { Took result (plain_move op (as_plain (operator_of op)) top.old.act) top.old top.new }
    ensures rest { top.new ≡ with_act top.old top.new.act }
{
    match op {
        0xA7 => convert_on(top, 0xA7),
        0xAC => convert_on(top, 0xAC),
        0xAD => convert_on(top, 0xAD),
        0xC0 => convert_on(top, 0xC0),
        0xC1 => convert_on(top, 0xC1),
        0xC2 => convert_on(top, 0xC2),
        0xC3 => convert_on(top, 0xC3),
        // i64.extend32_s: there is no other
        _ => convert_on(top, 0xC4),
    }
}
