// The entries of the table.
ghost use Rattle.std.specs.Prelude.{◌≡◌, map, min};
ghost use Rattle.std.specs.List.{flat_map};
ghost use Rattle.spec_loading.specs.spec_linking.Plans.{least_of, maxima, table_limits, limits_in};
ghost use Rattle.dyl_imports.specs.dyl_search.Gathers.{member_of};

use dyl_imports::dyl_search::Member;
use dyl_imports::{Use, use_of};
use wasm_form::{Import, ImportDesc};

// The most entries that an import of the shared table allows, or else the bound.
fn with_import(bound: u32, i: &Import) -> u32
    ensures { result ≡ least_of bound (maxima (table_limits i.now)) }
{
    match (use_of(i), i.desc) {
        (Use::SharedTable, ImportDesc::Table(ty)) => match ty.limits.max {
            Some(max) => max.min(bound),
            None => bound,
        },
        _ => bound,
    }
}

fn with_imports(bound: u32, imports: &[Import]) -> u32
    ensures { result ≡ least_of bound (maxima (flat_map table_limits imports.now)) }
{
    let mut least = bound;
    for i in imports {
        least = with_import(least, i);
    }
    least
}

// The least of a bound and of what the imports of the shared table allow.
pub(crate) fn least_maximum(bound: u32, members: &[Member]) -> u32
    ensures { result ≡ least_of bound (maxima (limits_in table_limits (map member_of members.now))) }
{
    let mut least = bound;
    for member in members {
        least = with_imports(least, member.checked.module().imports.items());
    }
    least
}
