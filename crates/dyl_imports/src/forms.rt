// The forms that imports must have.
ghost use Rattle.std.specs.Prelude.{◌≡◌};
ghost use Rattle.spec_loading.specs.spec_linking.Imports as imports;

use wasm_form::{ImportDesc, ValType};

pub fn is_memory(desc: ImportDesc) -> bool
    ensures { result ≡ imports.is_memory desc }
{
    match desc {
        ImportDesc::Space(_) => true,
        ImportDesc::Func(_) | ImportDesc::Table(_) | ImportDesc::Global(_) => false,
    }
}

pub fn is_function_table(desc: ImportDesc) -> bool
    ensures { result ≡ imports.is_function_table desc }
{
    match desc {
        ImportDesc::Table(ty) => ty.elem == ValType::FuncRef,
        ImportDesc::Func(_) | ImportDesc::Space(_) | ImportDesc::Global(_) => false,
    }
}

// An i32 global, which may be set or may not.
pub fn is_i32_global(may_be_set: bool, desc: ImportDesc) -> bool
    ensures { result ≡ imports.is_i32_global may_be_set desc }
{
    match desc {
        ImportDesc::Global(ty) => ty.value == ValType::I32 && ty.mutable == may_be_set,
        ImportDesc::Func(_) | ImportDesc::Table(_) | ImportDesc::Space(_) => false,
    }
}
