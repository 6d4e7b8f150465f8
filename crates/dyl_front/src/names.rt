// The names of members' functions, by their numbers.
ghost use Rattle.std.specs.Prelude.{◌≡◌, ℕ, ◌<◌, [], length, nat_eq, None, Some, IfOk, slice_index_or, unwrap_or, if◌then◌else◌};
ghost use Rattle.std.specs.List.{find, position_from};
ghost use Rattle.std.specs.Option.{option_map};
ghost use Rattle.spec_linking.specs.Definitions.{or_other};
ghost use Rattle.dyl_front.specs.Listing.{is_name_of};
ghost use Rattle.dyl_front.specs.Named.{is_same_number, name_placed, AreFirst};

use dyl_link::dyl_scope::is_reserved;
use spec_merging::wasm_form::{Export, ExportDesc, Memory};
use std::alloc::Global;

/// The function that an export defines its name as.
fn named_function(e: &Export) -> Option<u32>
    ensures { (f : ℕ) → is_same_number f result ≡ is_name_of f e.now }
{
    match e.desc {
        ExportDesc::Func(f) if !is_reserved(e.name.as_str()) => Some(f),
        ExportDesc::Func(_) | ExportDesc::Table(_) | ExportDesc::Space(_) | ExportDesc::Global(_) =>
            None,
    }
}

/// Notes a place for a function, unless it has one.
fn note_function(firsts: &mut [Option<usize>], g: u32, k: usize)
    ensures { (f : ℕ) → f < length firsts.old → slice_index_or firsts.new f None ≡ or_other (slice_index_or firsts.old f None) (if nat_eq g f then Some k else None) }
{
    if (g as usize) < firsts.len() && firsts[g as usize].is_none() {
        firsts[g as usize] = Some(k);
    }
}

/// Notes the place of an export for the function that it defines its name as.
#[tactic(auto, using(crate::proofs::FirstNames::or_nothing))]
fn note(firsts: &mut [Option<usize>], e: &Export, k: usize)
    ensures { (f : ℕ) → f < length firsts.old → slice_index_or firsts.new f None ≡ or_other (slice_index_or firsts.old f None) (if is_name_of f e.now then Some k else None) }
{
    match named_function(e) {
        Some(g) => note_function(firsts, g, k),
        None => {}
    }
}

/// Notes the places of all exports.
fn note_each(firsts: &mut [Option<usize>], exports: &[Export])
    ensures { (f : ℕ) → f < length firsts.old → slice_index_or firsts.new f None ≡ or_other (slice_index_or firsts.old f None) (position_from (is_name_of f) 0 exports.now) }
{
    for k in 0..exports.len() {
        note(firsts, &exports[k], k);
    }
}

fn no_places(alloc: Global, count: usize) -> Result<Vec<Option<usize>>, Memory>
    ensures { IfOk result (λ v. (f : ℕ) → slice_index_or v.items f None ≡ None) }
{
    let mut v = Vec::new(alloc);
    for n in 0..count {
        let _n = n;
        v.push(None)?;
    }
    Ok(v)
}

/// Of each function below `count`, the place of the first export that defines its name as this function.
pub(crate) fn first_exports(
    alloc: Global,
    exports: &[Export],
    count: usize,
) -> Result<Vec<Option<usize>>, Memory>
    ensures { IfOk result (λ firsts. AreFirst firsts.items exports.now) }
{
    let mut firsts = no_places(alloc, count)?;
    note_each(&mut firsts, exports);
    Ok(firsts)
}

/// The first name that an export defines as this function.
pub(crate) fn name_among(f: u32, exports: &[Export]) -> &str
    ensures { result.now ≡ unwrap_or (option_map (λ e. e.name) (find (is_name_of f) exports.now)) [] }
{
    for e in exports {
        if named_function(e) == Some(f) {
            return e.name.as_str();
        }
    }
    ""
}

/// The name of an export at a place, if there is a place.
fn name_at(exports: &[Export], place: Option<usize>) -> &str
    ensures { result.now ≡ name_placed exports.now place }
{
    match place {
        Some(k) => match exports.get(k) {
            Some(e) => e.name.as_str(),
            None => "",
        },
        None => "",
    }
}

/// The same, by the places of the first exports. Those of numbers that aren't there are searched.
pub(crate) fn name_of<'a>(firsts: &[Option<usize>], exports: &'a [Export], f: u32) -> &'a str
    requires { AreFirst firsts.now exports.now }
    ensures { result.now ≡ unwrap_or (option_map (λ e. e.name) (find (is_name_of f) exports.now)) [] }
{
    match firsts.get(f as usize) {
        Some(place) => name_at(exports, *place),
        None => name_among(f, exports),
    }
}
