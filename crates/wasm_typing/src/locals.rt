// The locals that a body declares, by groups. They are never laid out one by one.
ghost use Rattle.std.specs.Prelude.{◌≡◌, ◌<◌, ◌≤◌, ◌+◌, ◌^◌, List, length, slice_get, IfOk};
ghost use Rattle.spec_validation.specs.spec_binary.Indices.{declared_locals};
ghost use Rattle.wasm_typing.specs.GroupEnds.{AreEnds, locals_before};

use std::alloc::{AllocError, Global};
use wasm_form::{Group, ValType};

/// How many locals are declared up to the end of each group, or the greatest number of 64 bits.
pub fn group_ends(alloc: Global, groups: &[Group]) -> Result<Vec<u64>, AllocError>
    ensures { IfOk result (λ ends. AreEnds groups.now ends.items) }
{
    let mut ends = Vec::new(alloc);
    let mut end = 0u64;
    for group in groups {
        end = end.saturating_add(u64::from(group.count));
        ends.push(end)?;
    }
    Ok(ends)
}

/// The type of a declared local: that of the first group which ends behind it.
pub fn declared_local(groups: &[Group], ends: &[u64], n: u32) -> Option<ValType>
    requires { AreEnds groups.now ends.now }
    ensures { result ≡ slice_get (declared_locals groups.now) n }
{
    let n = u64::from(n);
    let all = *ends.last()?;
    if n >= all {
        return None;
    }
    Some(groups[group_of(groups, ends, n)].ty)
}

/// The group that a declared local stands in, by a search between the first group and the last.
fn group_of(groups: &[Group], ends: &[u64], n: u64) -> usize
    requires ends { AreEnds groups.now ends.now }
    requires some { 0 < length groups.now }
    requires small { n < 2 ^ 32 }
    requires within { n < locals_before groups.now (length groups.now) }
    ensures group { result < length groups.now }
    ensures begins { locals_before groups.now result ≤ n }
    ensures end { n < locals_before groups.now (result + 1) }
{
    let mut low = 0;
    let mut high = groups.len();
    while high - low > 1 {
        let middle = low + (high - low) / 2;
        if ends[middle - 1] <= n {
            low = middle;
        } else {
            high = middle;
        }
    }
    low
}
