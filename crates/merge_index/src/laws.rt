// Laws of numbers, which say nothing of code.
ghost use Rattle.merge_index.specs.Laws.{FunctionsAreDistinct, GeneratedIsBeside, TypesAreDistinct, SegmentsAreDistinct, PlacesHaveNumbers};

/// Distinct functions, types and segments have distinct numbers, and what is generated stands beside them.
pub fn numbers_are_distinct()
    ensures functions { FunctionsAreDistinct }
    ensures generated { GeneratedIsBeside }
    ensures types { TypesAreDistinct }
    ensures segments { SegmentsAreDistinct }
{}

/// Two numbers of globals, or of tables, are one in the merged module exactly where they lead to one place of the store.
pub fn places_have_numbers()
    ensures { PlacesHaveNumbers }
{}
