// Tests of function types.
ghost use Rattle.std.specs.Prelude.{◌≡◌};
ghost use Rattle.std.specs.List.{list_all};
ghost use Rattle.spec_runtime.specs.spec_binary.SameTypes.{same_function_type};
ghost use Rattle.spec_runtime.specs.Names as names;

use spec_runtime::wasm_form::{FuncType, ValType};

// Whether two types are one.
pub fn is_same_type(one: &FuncType, other: &FuncType) -> bool
    ensures { result ≡ same_function_type one.now other.now }
{
    one == other
}

fn is_integer(ty: &ValType) -> bool
    ensures { result ≡ names.is_integer ty.now }
{
    matches!(*ty, ValType::I32 | ValType::I64)
}

fn are_integers(types: &[ValType]) -> bool
    ensures { result ≡ list_all names.is_integer types.now }
{
    let mut rest = types;
    while let Some((ty, tail)) = rest.split_first() {
        if !is_integer(ty) {
            return false;
        }
        rest = tail;
    }
    true
}

fn is_one_i32(types: &[ValType]) -> bool
    ensures { result ≡ names.is_one_i32 types.now }
{
    matches!(types, [ValType::I32])
}

// Whether the rest of a module is declared for this type: the parameters are integers, and the one result is an i32.
pub fn is_rest_type(ty: &FuncType) -> bool
    ensures { result ≡ names.is_rest_type ty.now }
{
    are_integers(ty.params.items()) && is_one_i32(ty.results.items())
}
