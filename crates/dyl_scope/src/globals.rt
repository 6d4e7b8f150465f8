// Globals that are the places of data.
ghost use Rattle.std.specs.Prelude.{◌≡◌, IsTrue, IfOk};
ghost use Rattle.wasm_form.specs.declared.types.ValType.TheVariants.{I32};
ghost use Rattle.spec_linking.specs.spec_validation.Faults.{is_constant, global_fits};
ghost use Rattle.spec_linking.specs.Definitions as defined;
ghost use Rattle.dyl_scope.specs.Names.{maybe_symbol};

use dyl_names::Symbol;
use std::alloc::Global;
use wasm_check::{Constant, Known, evaluate};
use wasm_form::{Expr, GlobalDef, Memory, Module, ValType};

// The number of a constant expression of type i32; none where it gets a global.
fn plain_number(alloc: Global, m: &Module, e: &Expr) -> Result<Option<u32>, Memory>
    requires { IsTrue (is_constant m.now I32 e.now) }
    ensures { IfOk result (λ n. n ≡ defined.plain_number e.now) }
{
    let _module = m;
    match evaluate(alloc, e, &Known::Bases(&[]))? {
        Some(Constant::Num(n)) => Ok(Some(n as u32)),
        Some(Constant::Func(_)) => Ok(None),
        None => Ok(None),
    }
}

// What a global of the module's own defines a name as.
pub(crate) fn data_symbol(
    alloc: Global,
    m: &Module,
    g: &GlobalDef,
) -> Result<Option<Symbol>, Memory>
    requires { IsTrue (global_fits m.now g.now) }
    ensures { IfOk result (λ s. maybe_symbol s ≡ defined.data_symbol g.now) }
{
    if g.ty.mutable || g.ty.value != ValType::I32 {
        return Ok(None);
    }
    match plain_number(alloc, m, &g.init)? {
        Some(place) => Ok(Some(Symbol::Datum(place))),
        None => Ok(None),
    }
}
