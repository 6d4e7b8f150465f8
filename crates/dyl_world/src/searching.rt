// How members and names are found.
ghost use Rattle.std.specs.Prelude.{◌≡◌, ◌<◌, ◌≤◌, ◌+◌, ◌++◌, ℕ, List, Some, None, length, MatchOption};
ghost use Rattle.std.specs.List.{position_from};
ghost use Rattle.spec_loading.specs.spec_binary.Exports.{exported_as};
ghost use Rattle.spec_loading.specs.spec_linking.Definitions.{searched};
ghost use Rattle.spec_loading.specs.spec_linking.Slots as slots;
ghost use Rattle.spec_loading.specs.LoaderAnswers as loader;
ghost use Rattle.dyl_link.specs.dyl_scope.Scopes.{meaning_of};
ghost use Rattle.dyl_world.specs.Found.{IsFound, is_named, AreWithout};

use crate::promoted::Promoted;
use crate::strings::Name;
use dyl_link::Linked;
use dyl_link::dyl_scope::Def;
use dyl_link::dyl_search::Member;
use spec_loading::wasm_form::{Export, Ref};

fn first_named(members: &[Member], name: &Name<'_>) -> Option<u32>
    requires { length members.now ≤ 256 }
    ensures { result ≡ position_from (is_named name.now) 0 members.now }
{
    for (m, member) in members.iter().enumerate() {
        if name.is(member.name.as_str().as_bytes()) {
            return Some(m as u32);
        }
    }
    None
}

// The first member that has a name.
pub(crate) fn member_named(linked: &Linked, name: &Name<'_>) -> Option<u32>
    ensures { result ≡ loader.member_named linked.now.set name.now }
{
    linked.links();
    first_named(linked.members(), name)
}

// What the first of some members defines a name as. A name that isn't UTF-8 is defined by none.
#[tactic(auto, using(crate::proofs::Texts::no_text))]
fn definition(linked: &Linked, members: &[u32], name: &[u8]) -> Def
    ensures { meaning_of result ≡ searched linked.now.set members.now name.now }
{
    linked.links();
    match str::from_utf8(name) {
        Ok(text) => linked.symbols().search(members, text),
        Err(_) => Def::Nothing,
    }
}

// The address of data at a place of the memory region of a member, if there is one of this number.
fn address(linked: &Linked, m: u32, offset: u32) -> Option<u32>
    ensures { result ≡ slots.address_of linked.now m offset }
{
    if m < linked.member_count() {
        Some(linked.address(m, offset))
    } else {
        None
    }
}

// The slot of the function that a name is defined as, or the address of the data.
fn number_of(linked: &Linked, found: Def) -> Option<u32>
    ensures { (name : List ℕ) → IsFound (meaning_of found) → result ≡ slots.cell_number linked.now name (meaning_of found) }
{
    match found {
        Def::Function { module, func } => linked.slot(Ref::Own { unit: module, func }),
        Def::Datum { module, offset } => address(linked, module, offset),
        Def::Loader(_) | Def::HeapBase | Def::HeapEnd | Def::Host(_) | Def::Weak | Def::Nothing =>
            None,
    }
}

/// The slot of the function, or the address of the data, that the first of some members defines a name as, if one does.
pub fn search(linked: &Linked, members: &[u32], name: &[u8]) -> Option<u32>
    ensures { result ≡ slots.cell_number linked.now name.now (searched linked.now.set members.now name.now) }
{
    number_of(linked, definition(linked, members, name))
}

// The name of an export that is this one, if there is one.
fn exported<'a>(exports: &'a [Export], name: &Name<'_>) -> Option<&'a str>
    ensures { MatchOption result (exported_as name.now exports.now ≡ None) (λ key. key.now ≡ name.now) }
{
    for e in exports {
        if name.is(e.name.as_str().as_bytes()) {
            return Some(e.name.as_str());
        }
    }
    None
}

// The name of an export of a member that is this one, if there is one.
fn exported_by<'a>(members: &'a [Member], name: &Name<'_>) -> Option<&'a str>
    ensures { MatchOption result (AreWithout name.now members.now) (λ key. key.now ≡ name.now) }
{
    for member in members {
        if let Some(key) = exported(member.checked.module().exports.items(), name) {
            return Some(key);
        }
    }
    None
}

// What the first of some members defines a name as that crosses pages: it is searched by the name of an export that is the same, since it
// has no slice of its own.
#[cold]
fn definition_across(linked: &Linked, members: &[u32], name: &Name<'_>) -> Def
    ensures { meaning_of result ≡ searched linked.now.set members.now name.now }
{
    match exported_by(linked.members(), name) {
        Some(key) => definition(linked, members, key.as_bytes()),
        None => Def::Nothing,
    }
}

// What the first of some members defines a name in memory as.
fn definition_in(linked: &Linked, members: &[u32], name: &Name<'_>) -> Def
    ensures { meaning_of result ≡ searched linked.now.set members.now name.now }
{
    match name.in_one_page() {
        Some(bytes) => definition(linked, members, bytes),
        None => definition_across(linked, members, name),
    }
}

// The same of the members that start with the main module, or else of the promoted ones.
fn definition_in_program(linked: &Linked, promoted: &Promoted, name: &Name<'_>) -> Def
    ensures { meaning_of result ≡ searched linked.now.set (linked.now.set.startup ++ promoted.now.list) name.now }
{
    match definition_in(linked, linked.startup(), name) {
        Def::Nothing => definition_in(linked, promoted.list(), name),
        found => found,
    }
}

// What the first of the members that a handle leads to defines a name in memory as.
fn definition_by(linked: &Linked, promoted: &Promoted, handle: u32, name: &Name<'_>) -> Def
    requires { handle ≤ length linked.now.set.members }
    ensures { meaning_of result ≡ searched linked.now.set (loader.handle_list linked.now.set promoted.now.list handle) name.now }
{
    if handle < 2 {
        definition_in_program(linked, promoted, name)
    } else {
        definition_in(linked, linked.closure(handle - 1), name)
    }
}

/// The slot of the function, or the address of the data, that the first of the members that a handle leads to defines a name in memory as, if
/// one does.
pub(crate) fn search_handle(
    linked: &Linked,
    promoted: &Promoted,
    handle: u32,
    name: &Name<'_>,
) -> Option<u32>
    requires { handle ≤ length linked.now.set.members }
    ensures { result ≡ slots.cell_number linked.now name.now (searched linked.now.set (loader.handle_list linked.now.set promoted.now.list handle) name.now) }
{
    number_of(linked, definition_by(linked, promoted, handle, name))
}
