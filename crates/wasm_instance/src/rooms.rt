// The rooms of the functions that a module defines: parameters, locals and the greatest height of the stack together.
ghost use Rattle.std.specs.Prelude.{◌≡◌, ◌<◌, length, IfOk};
ghost use Rattle.spec_safety.specs.spec_binary.Indices.{declared_locals};
ghost use Rattle.spec_safety.specs.spec_binary.Saturated.{saturated};
ghost use Rattle.wasm_instance.specs.Rooms.{room_in, HaveRooms};

use std::alloc::Global;
use wasm_check::Checked;
use wasm_form::{FuncType, Group, Memory};

// The number of the locals that groups declare, or 4,294,967,295 where that is more.
fn locals_of(groups: &[Group]) -> u32
    ensures { result ≡ saturated (length (declared_locals groups.now)) }
{
    let mut count = 0u32;
    for group in groups {
        count = count.saturating_add(group.count);
    }
    count
}

// The number of the parameters, or 4,294,967,295 where that is more.
fn params_of(ty: &FuncType) -> u32
    ensures { result ≡ saturated (length ty.now.params) }
{
    u32::try_from(ty.params.items().len()).unwrap_or(u32::MAX)
}

// The room of the function of this number among those that the module defines, or 4,294,967,295 where it is more.
fn room(checked: &Checked, n: u32) -> u32
    requires { n < length checked.now.codes }
    ensures { result ≡ room_in checked.now n }
{
    let m = checked.module();
    let ty = &m.types.items()[m.funcs.items()[n as usize] as usize];
    let groups = m.codes.items()[n as usize].locals.items();
    params_of(ty)
        .saturating_add(locals_of(groups))
        .saturating_add(checked.height(n))
}

/// The rooms of the functions that the module defines, each 4,294,967,295 where it is more.
pub fn rooms_of(alloc: Global, checked: &Checked) -> Result<Vec<u32>, Memory>
    ensures { IfOk result (λ v. HaveRooms checked.now (length checked.now.codes) v.items) }
{
    let count = checked.module().codes.items().len() as u32;
    let mut rooms = Vec::new(alloc);
    for n in 0..count {
        rooms.push(room(checked, n))?;
    }
    Ok(rooms)
}
