// A member in a run: its code, and where what it has stands in the store.
ghost use Rattle.std.specs.Prelude.{◌≡◌, ◌<◌, IsSome, IfSome};
ghost use Rattle.spec_loading.specs.spec_binary.IndexSpaces.{imported_count};
ghost use Rattle.spec_loading.specs.spec_binary.Indices.{declared_locals, function_at};

use dyl_link::wasm_check::Checked;
use wasm_form::Code;

// A member: how many functions it imports, the rooms of those that it defines, the addresses of its globals and tables by their numbers,
// and those of its first element segment and its first data segment.
#[derive(Drop)]
pub(crate) struct Unit<'m> {
    pub checked: &'m Checked,
    pub imported: u32,
    pub rooms: Vec<u32>,
    pub globals: Vec<u32>,
    pub tables: Vec<u32>,
    pub first_elem: u32,
    pub first_data: u32,
}

// The code of a function that a module defines.
#[inline(always)]
pub(crate) fn code_of<'m>(checked: &'m Checked, imported: u32, f: u32) -> &'m Code
    requires count { imported ≡ imported_count checked.now }
    requires own { IsSome (function_at checked.now f) }
    ensures locals { IfSome (function_at checked.now f) (λ x. x.locals ≡ declared_locals result.now.locals) }
    ensures body { IfSome (function_at checked.now f) (λ x. x.body ≡ result.now.body.list) }
{
    &checked.module().codes.items()[(f - imported) as usize]
}
