// Bytes as hexadecimal digits.
ghost use Rattle.std.specs.Prelude.{◌≡◌, ◌<◌, ◌++◌, flat_map, OnOk};
ghost use Rattle.dyl_print.specs.Printed.{hex_digit, hex_byte, bytes_word};

use crate::texts::put_text;
use spec_hosts::wasm_form::Memory;

/// The digit of a number below 16.
fn digit(n: u8) -> u8
    requires { n < 16 }
    ensures { result ≡ hex_digit n }
{
    if n < 10 { n + b'0' } else { n - 10 + b'a' }
}

/// Puts the two digits of a byte, lower-case.
pub fn put_hex(b: u8, to: &mut Vec<u8>) -> Result<(), Memory>
    ensures { OnOk result (to.new.items ≡ to.old.items ++ hex_byte b) }
{
    to.push(digit(b / 16))?;
    to.push(digit(b % 16))?;
    Ok(())
}

/// Puts the digits of bytes.
fn put_digits(bytes: &[u8], to: &mut Vec<u8>) -> Result<(), Memory>
    ensures { OnOk result (to.new.items ≡ to.old.items ++ flat_map hex_byte bytes.now) }
{
    for b in bytes {
        put_hex(*b, to)?;
    }
    Ok(())
}

/// Puts bytes as digits, two each, or a hyphen where there are none.
pub fn put_bytes(bytes: &[u8], to: &mut Vec<u8>) -> Result<(), Memory>
    ensures { OnOk result (to.new.items ≡ to.old.items ++ bytes_word bytes.now) }
{
    if bytes.is_empty() {
        return put_text("-", to);
    }
    put_digits(bytes, to)
}
