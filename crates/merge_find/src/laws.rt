// What is so of the code of a search, whatever names there are.
ghost use Rattle.merge_find.specs.Finding.{SearchComes, SearchComesSoon, SearchFindsAny, SearchFinds};
ghost use Rattle.merge_find.specs.Exports.{ExportsAreTexts, ExportsAreApart};
ghost use Rattle.merge_find.specs.Shape.{SearchIsSmall};
ghost use Rattle.merge_find.specs.Typed.{SearchIsTyped, BodyIsTyped};

/// A search comes to the code of the name that the string is; where the names are of bytes, and no two are the same, in few steps.
pub fn searches_come()
    ensures any { SearchComes }
    ensures soon { SearchComesSoon }
{}

/// A function that searches for numbers gives that of the name that the string is; where the names are of bytes, and no two are the same, in
/// few steps.
pub fn searches_find()
    ensures any { SearchFindsAny }
    ensures soon { SearchFinds }
{}

/// Blocks in the code of a search are nested as deep as its names can be halved, and it is as long as they have bytes.
pub fn searches_are_small()
    ensures { SearchIsSmall }
{}

/// The code of a search is well typed (WebAssembly Core 2.0, section 3.3), where the code of its names is.
pub fn searches_are_typed()
    ensures code { SearchIsTyped }
    ensures body { BodyIsTyped }
{}

/// The names of the exports of a module that some bytes spell are of bytes, and in a valid module no two are the same.
pub fn exports_are_texts()
    ensures texts { ExportsAreTexts }
    ensures apart { ExportsAreApart }
{}
