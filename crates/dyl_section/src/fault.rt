// Where reading a record ends.
ghost use Rattle.std.specs.Prelude.{◌≡◌};
ghost use Rattle.dyl_section.specs.Recorded.{fault_of};

use spec_linking::RecordFault;
use wasm_read::Break;

// The fault of a reading that ends so behind this many subsections.
pub(crate) fn fault_after(subsection: u32, e: Break) -> RecordFault
    ensures { result ≡ fault_of subsection e }
{
    match e {
        Break::Memory => RecordFault::Memory,
        _ => RecordFault::BadDylink { subsection },
    }
}
