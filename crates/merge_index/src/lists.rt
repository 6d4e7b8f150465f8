// Lists of numbers, member by member.
ghost use Rattle.std.specs.Prelude.{◌≡◌, ◌<◌, ◌^◌, map, IfOk};
ghost use Rattle.spec_loading.specs.spec_binary.IndexSpaces.{imported_count};
ghost use Rattle.dyl_addresses.specs.Sets.{module_of};
ghost use Rattle.dyl_addresses.specs.Lists.{size_in, numbers_end};

use dyl_addresses::Space;
use dyl_link::dyl_search::Member;
use dyl_link::wasm_check::imported_functions;
use std::alloc::Global;
use wasm_form::Memory;

// How much members have, beside so much.
pub(crate) fn total(members: &[Member], space: Space, start: u32) -> u32
    requires { numbers_end (size_in space) start (map module_of members.now) < 2 ^ 32 }
    ensures { result ≡ numbers_end (size_in space) start (map module_of members.now) }
{
    let mut next = start;
    for member in members {
        let size = space.size(member.checked.module()) as u32;
        next += size;
    }
    next
}

// How many functions each member imports.
pub(crate) fn imported_counts(alloc: Global, members: &[Member]) -> Result<Vec<u32>, Memory>
    ensures { IfOk result (λ v. v.items ≡ map imported_count (map module_of members.now)) }
{
    let mut counts = Vec::new(alloc);
    for member in members {
        let count = imported_functions(member.checked.module().imports.items()) as u32;
        counts.push(count)?;
    }
    Ok(counts)
}
