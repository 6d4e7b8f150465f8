// Laws of the spelling of numbers and names. The functions do nothing: their contracts are the laws.
ghost use Rattle.std.specs.Prelude.{ℕ, List, ◌<◌, ◌^◌, length, IsUtf8};
ghost use Rattle.spec_binary.specs.Laws.{NoneBeginsAnother, OneShortest, SpellsNumbers, IsWithinLength};
ghost use Rattle.spec_binary.specs.Name.{SpellsName};
ghost use Rattle.spec_binary.specs.Number.{IsUnsigned, IsSigned, SpellsUnsigned, SpellsSigned, IsShortest};

/// No spelling of a number begins another of the same width: what was written is read again, whatever follows it.
pub fn no_number_begins_another()
    ensures unsigned { (n : ℕ) → NoneBeginsAnother (SpellsUnsigned n) }
    ensures signed { (n : ℕ) → NoneBeginsAnother (SpellsSigned n) }
{}

/// The numbers of n bits are those that have spellings of n bits, and each has a shortest one.
pub fn numbers_are_spelled()
    ensures unsigned { SpellsNumbers IsUnsigned SpellsUnsigned }
    ensures signed { SpellsNumbers IsSigned SpellsSigned }
{}

/// A number has one shortest spelling.
pub fn one_shortest_number()
    ensures unsigned { (n : ℕ) → OneShortest (SpellsUnsigned n) }
    ensures signed { (n : ℕ) → OneShortest (SpellsSigned n) }
{}

/// A spelling of n bits has at most n divided by 7, rounded up, bytes.
pub fn numbers_within_length()
    ensures unsigned { IsWithinLength SpellsUnsigned }
    ensures signed { IsWithinLength SpellsSigned }
{}

/// No spelling of a name begins another.
pub fn no_name_begins_another()
    ensures { NoneBeginsAnother SpellsName }
{}

/// A UTF-8 text of fewer than 2^32 bytes has a shortest spelling as a name, and one alone.
pub fn one_shortest_name()
    ensures some { (name : List ℕ) → IsUtf8 name → length name < 2 ^ 32 → (word : List ℕ) × IsShortest (SpellsName name) word }
    ensures one { OneShortest SpellsName }
{}
