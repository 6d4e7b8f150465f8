// Where decoding ends.
ghost use Rattle.std.specs.Prelude.{◌≡◌};
ghost use Rattle.wasm_decode.specs.Given.{fault_of_section, fault_of_body};

use spec_reading::spec_binary::DecodeFault;
use wasm_read::Break;

// Why decoding ends where reading ends so in a section behind so many.
pub(crate) fn fault_in_section(why: Break, section: u32) -> DecodeFault
    ensures { result ≡ fault_of_section section why }
{
    match why {
        Break::Memory => DecodeFault::Memory,
        _ => DecodeFault::Malformed { section },
    }
}

// Why decoding ends where reading ends so in the body with this number.
pub(crate) fn fault_in_body(why: Break, section: u32, function: u32) -> DecodeFault
    ensures { result ≡ fault_of_body section function why }
{
    match why {
        Break::Broken => DecodeFault::Malformed { section },
        Break::TooDeep => DecodeFault::TooDeep { function },
        Break::TooManyLocals => DecodeFault::TooManyLocals { function },
        Break::Memory => DecodeFault::Memory,
    }
}
