// Words of a line, which are parted by one space each.
ghost use Rattle.std.specs.Prelude.{◌≡◌, map, IfOk, option_copied};
ghost use Rattle.std.specs.List.{slice_split};
ghost use Rattle.spec_traces.specs.Reading.{is_space, cut, words_of};

use std::alloc::{AllocError, Global};

/// The first word of a text, and what stands behind the space that ends it.
pub(crate) fn first_word(text: &str) -> (&str, Option<&str>)
    ensures word { result.0.now ≡ (cut text.now).0 }
    ensures behind { option_copied result.1 ≡ (cut text.now).1 }
{
    match text.split_once(' ') {
        Some((word, rest)) => (word, Some(rest)),
        None => (text, None),
    }
}

/// The words of a text.
fn parts<'a>(alloc: Global, text: &'a str) -> Result<Vec<&'a str>, AllocError>
    ensures { IfOk result (λ words. map (λ word. word.now) words.items ≡ slice_split is_space text.entry.now) }
{
    text.split(' ').collect(alloc)
}

/// The words of what stands behind a space.
pub(crate) fn words<'a>(alloc: Global, rest: Option<&'a str>) -> Result<Vec<&'a str>, AllocError>
    ensures { IfOk result (λ words. map (λ word. word.now) words.items ≡ words_of (option_copied rest.entry)) }
{
    match rest {
        Some(text) => parts(alloc, text),
        None => Ok(Vec::new(alloc)),
    }
}
