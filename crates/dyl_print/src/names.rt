// Names and paths.
ghost use Rattle.std.specs.Prelude.{◌≡◌, ◌++◌, OnOk};
ghost use Rattle.dyl_print.specs.Printed.{is_printed, escaped_byte, escaped};

use crate::bytes::put_hex;
use spec_hosts::wasm_form::Memory;

/// Whether a byte is put as it is.
fn prints(b: u8) -> bool
    ensures { result ≡ is_printed b }
{
    b > 0x20 && b < 0x7F && b != b'\\'
}

/// Puts a byte, or a backslash and its digits.
fn put_byte(b: u8, to: &mut Vec<u8>) -> Result<(), Memory>
    ensures { OnOk result (to.new.items ≡ to.old.items ++ escaped_byte b) }
{
    if prints(b) {
        to.push(b)?;
        return Ok(());
    }
    to.push(b'\\')?;
    put_hex(b, to)
}

/// Puts a name or path. Each byte outside 21 to 7E (hexadecimal), and the backslash, is put as a backslash and two digits.
pub fn put_escaped(text: &str, to: &mut Vec<u8>) -> Result<(), Memory>
    ensures { OnOk result (to.new.items ≡ to.old.items ++ escaped text.now) }
{
    for b in text.as_bytes() {
        put_byte(*b, to)?;
    }
    Ok(())
}
