// Numbers of members, in lists.
ghost use Rattle.std.specs.Prelude.{◌≡◌};
ghost use Rattle.merge_pieces.specs.Numbers.{number_at};

use wasm_form::List;

/// The number that item i of member m has in the merged module, by the lists of the members' numbers: of types or of functions. What is out of
/// range has the number 4,294,967,295.
pub fn number_at(lists: &[List<u32>], m: u32, i: u32) -> u32
    ensures { result ≡ number_at lists.now m i }
{
    match lists.get(m as usize) {
        Some(list) => match list.items().get(i as usize) {
            Some(n) => *n,
            None => u32::MAX,
        },
        None => u32::MAX,
    }
}
