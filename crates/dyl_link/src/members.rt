// The faults of members, in order.
ghost use Rattle.std.specs.Prelude.{◌≡◌, ◌<◌, ◌≤◌, length, map, nat_eq};
ghost use Rattle.dyl_slots.specs.dyl_section.Recorded.{export_note};
ghost use Rattle.spec_loading.specs.spec_linking.LinkedSets.{LinkedSet};
ghost use Rattle.spec_loading.specs.spec_linking.Links as links;
ghost use Rattle.spec_loading.specs.spec_linking.Links.{first_fault};
ghost use Rattle.spec_loading.specs.spec_linking.declared.fault.LinkFault.TheVariants as faults;
ghost use Rattle.dyl_slots.specs.dyl_search.Gathers.{member_of};
ghost use Rattle.dyl_slots.specs.dyl_imports.Kept.{AreImportsOf};
ghost use Rattle.dyl_link.specs.Answers.{Tells};
ghost use Rattle.dyl_link.specs.Faults.{before_imports};

use crate::imports::import_faults;
use crate::own::loader_call;
use dyl_slots::dyl_imports::Imports;
use dyl_slots::dyl_search::Member;
use dyl_slots::dyl_section::ExportInfo;
use spec_loading::spec_linking::LinkFault;
use std::alloc::Global;
use wasm_form::{Limits, Text};

pub(crate) fn own_memory(m: u32, memories: &[Limits]) -> Result<(), LinkFault>
    ensures { Tells result (links.unless (nat_eq (length memories.now) 0) (faults.OwnMemory m)) }
{
    if memories.is_empty() {
        Ok(())
    } else {
        Err(LinkFault::OwnMemory { module: m })
    }
}

fn tls_fault(alloc: Global, m: u32, e: &ExportInfo) -> Result<(), LinkFault>
    ensures { Tells result (links.tls_fault m (export_note e.now)) }
{
    if e.flags / 256 % 2 == 1 {
        let name = Text::copied(alloc, e.name.as_str())?;
        return Err(LinkFault::TlsExport { module: m, name });
    }
    Ok(())
}

pub(crate) fn tls_faults(alloc: Global, m: u32, exports: &[ExportInfo]) -> Result<(), LinkFault>
    ensures { Tells result (first_fault (links.tls_fault m) (map export_note exports.now)) }
{
    for e in exports {
        tls_fault(alloc, m, e)?;
    }
    Ok(())
}

// What comes before the imports of a member.
fn before_imports(alloc: Global, m: u32, member: &Member) -> Result<(), LinkFault>
    ensures { Tells result (before_imports m (member_of member.now)) }
{
    own_memory(m, member.checked.module().memories.items())?;
    tls_faults(alloc, m, member.dylink.exports.items())?;
    loader_call(alloc, m, &member.checked, "__wasm_apply_data_relocs")?;
    loader_call(alloc, m, &member.checked, "__wasm_call_ctors")
}

fn member_fault(alloc: Global, imports: &Imports, m: u32, member: &Member) -> Result<(), LinkFault>
    requires { m < length imports.now.known.symbols.now.names }
    ensures { (L : LinkedSet) → AreImportsOf L imports.now → Tells result (links.member_fault L m (member_of member.now)) }
{
    before_imports(alloc, m, member)?;
    import_faults(alloc, imports, m, member.checked.module())
}

// The first fault of the members, in order.
pub(crate) fn members_fault(alloc: Global, imports: &Imports) -> Result<(), LinkFault>
    requires few { length imports.now.known.members.now ≤ 256 }
    requires count { length imports.now.known.symbols.now.names ≡ length imports.now.known.members.now }
    ensures { (L : LinkedSet) → AreImportsOf L imports.now → Tells result (links.members_fault L 0 L.set.members) }
{
    let members = imports.members();
    for m in 0..members.len() {
        member_fault(alloc, imports, m as u32, &members[m])?;
    }
    Ok(())
}
