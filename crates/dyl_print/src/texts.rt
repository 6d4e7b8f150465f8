// Texts and numbers.
ghost use Rattle.std.specs.Prelude.{◌≡◌, ◌++◌, decimal, IfOk, OnOk, string_bytes};

use spec_hosts::wasm_form::Memory;
use std::alloc::Global;

/// Puts a text.
pub fn put_text(text: &str, to: &mut Vec<u8>) -> Result<(), Memory>
    ensures { OnOk result (to.new.items ≡ to.old.items ++ text.now) }
{
    to.extend_from_slice(text.as_bytes())?;
    Ok(())
}

/// A number in decimal digits.
fn number_text(alloc: Global, n: u64) -> Result<String, Memory>
    ensures { IfOk result (λ text. string_bytes text ≡ decimal n) }
{
    let text = format!(in alloc; "{n}")?;
    Ok(text)
}

/// Puts a number in decimal digits, without leading zeros.
pub fn put_number(alloc: Global, n: u64, to: &mut Vec<u8>) -> Result<(), Memory>
    ensures { OnOk result (to.new.items ≡ to.old.items ++ decimal n) }
{
    put_text(&number_text(alloc, n)?, to)
}
