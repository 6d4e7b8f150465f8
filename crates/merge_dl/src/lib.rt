//! The functions of the loader as code of a merged module, and the law of the step that calls one.
//!
//! `specs/` has the words of the code, what the functions do that the functions of the loader call, and what a merged module must have for it.
#![tactic(auto)]

mod dlclose;
mod dlerror;
mod dlopen;
mod dlsym;
mod finding;
mod functions;
mod numbers;
mod parts;
mod promoted;
mod strings;
mod words;

ghost use Rattle.merge_dl.specs.Laws.{LengthsAreGiven, MembersAreSearched, MembersAreSearchedSoon, DefinedIsNumbered, LoaderIsAnswered};
ghost use Rattle.merge_dl.specs.Typed.{LoaderIsTyped};

pub use finding::find_functions;
pub use functions::dl_functions;
use merge_find::{exports_are_texts, searches_are_typed, searches_come, searches_find};
pub use numbers::DlNumbers;
pub use parts::loader_types;
pub use strings::length_function;

/// The code for the length of a string gives the length of each string of a memory, or traps where no zero byte follows, at whatever number of
/// a module it stands.
pub fn lengths_are_given()
    ensures { LengthsAreGiven }
{}

/// The code for the search of a member of a linked set gives for each string of a memory what the member defines it as, or 0 where it doesn't
/// define it, at whatever number of a module it stands, in few steps; and each name that a member defines has a slot or an address.
pub fn members_are_searched()
    ensures searches { MembersAreSearched }
    ensures soon { MembersAreSearchedSoon }
    ensures numbers { DefinedIsNumbered }
{
    searches_find();
    exports_are_texts();
}

/// A call of a function of the loader comes to what it comes to in the set.
pub fn loader_calls_are_answered()
    ensures { LoaderIsAnswered }
{
    searches_come();
}

/// The code of the functions of the loader is well typed, where the module has what it names.
pub fn loader_code_is_typed()
    ensures { LoaderIsTyped }
{
    searches_are_typed();
}
