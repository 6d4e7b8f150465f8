// What is found wrong with a name, as an answer.
ghost use Rattle.std.specs.Prelude.{Some};
ghost use Rattle.spec_linking.specs.Links as links;
ghost use Rattle.spec_linking.specs.declared.fault.LinkFault.TheVariants as faults;
ghost use Rattle.dyl_names.specs.Findings.{Tells};

use spec_linking::wasm_form::Text;
use spec_linking::{Kind, LinkFault};
use std::alloc::Global;

/// That what a member imports under a name has the form or type that it must have, where this holds; or else the fault `IllTyped`.
pub fn ill_typed(
    alloc: Global,
    holds: bool,
    m: u32,
    kind: Kind,
    name: &str,
) -> Result<(), LinkFault>
    ensures { Tells result (links.unless holds (faults.IllTyped m kind name.now)) }
{
    if holds {
        return Ok(());
    }
    let name = Text::copied(alloc, name)?;
    Err(LinkFault::IllTyped {
        module: m,
        kind,
        name,
    })
}

/// The fault of an import under a name that nothing defines.
pub fn unresolved(alloc: Global, m: u32, kind: Kind, name: &str) -> Result<(), LinkFault>
    ensures { Tells result (Some (faults.Unresolved m kind name.now)) }
{
    let name = Text::copied(alloc, name)?;
    Err(LinkFault::Unresolved {
        module: m,
        kind,
        name,
    })
}
