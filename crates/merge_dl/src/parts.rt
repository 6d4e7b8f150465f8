// Functions by their types, locals and code.
ghost use Rattle.std.specs.Prelude.{◌≡◌, ◌∷◌, [], IfOk};
ghost use Rattle.merge_dl.specs.Words as words;
ghost use Rattle.merge_dl.specs.Words.{code_with};
ghost use Rattle.merge_dl.specs.Listed as listed;

use std::alloc::Global;
use wasm_form::{Code, Expr, FuncType, Group, Instr, List, Memory, Part, ValType};

// The type of functions that take these parameters and give one result.
fn function_type(alloc: Global, taken: &[ValType], given: ValType) -> Result<FuncType, Memory>
    ensures { IfOk result (λ t. t ≡ record { params = taken.now; results = given ∷ [] }) }
{
    let params = Vec::from_slice(alloc, taken)?;
    let results = vec![in alloc; given]?;
    Ok(FuncType {
        params: List::of(params),
        results: List::of(results),
    })
}

pub(crate) fn handle_type(alloc: Global) -> Result<FuncType, Memory>
    ensures { IfOk result (λ t. t ≡ words.handle_type) }
{
    function_type(alloc, &[], ValType::I32)
}

pub(crate) fn unary_type(alloc: Global) -> Result<FuncType, Memory>
    ensures { IfOk result (λ t. t ≡ words.unary_type) }
{
    function_type(alloc, &[ValType::I32], ValType::I32)
}

pub(crate) fn binary_type(alloc: Global) -> Result<FuncType, Memory>
    ensures { IfOk result (λ t. t ≡ words.binary_type) }
{
    function_type(alloc, &[ValType::I32, ValType::I32], ValType::I32)
}

pub(crate) fn search_type(alloc: Global) -> Result<FuncType, Memory>
    ensures { IfOk result (λ t. t ≡ words.search_type) }
{
    function_type(alloc, &[ValType::I32, ValType::I32], ValType::I64)
}

/// The types of the functions of the loader and of what they call: of no parameter, of one and of two, each with a result of type i32, and of
/// two parameters with a result of type i64. `Memory` where no memory could be had.
pub fn loader_types(alloc: Global) -> Result<Vec<FuncType>, Memory>
    ensures { IfOk result (λ x. x.items ≡ listed.loader_types) }
{
    let handle = handle_type(alloc)?;
    let unary = unary_type(alloc)?;
    let binary = binary_type(alloc)?;
    let search = search_type(alloc)?;
    Ok(vec![in alloc; handle, unary, binary, search]?)
}

// A function that declares these locals.
pub(crate) fn part(ty: FuncType, locals: Vec<Group>, code: Vec<Instr>) -> Part
    ensures { result ≡ record { ty = ty; code = code_with locals.items code.items } }
{
    Part {
        ty,
        code: Code {
            locals: List::of(locals),
            body: Expr {
                list: List::of(code),
            },
        },
    }
}

// One local.
pub(crate) fn one(ty: ValType) -> Group
    ensures { result ≡ record { count = 1; ty = ty } }
{
    Group { count: 1, ty }
}

pub(crate) fn one_local(alloc: Global, ty: ValType) -> Result<Vec<Group>, Memory>
    ensures { IfOk result (λ x. x.items ≡ record { count = 1; ty = ty } ∷ []) }
{
    Ok(vec![in alloc; one(ty)]?)
}
