// Commands over host functions.
ghost use Rattle.std.specs.Prelude.{◌≡◌, ◌<◌, ◌≤◌, ◌+◌, ◌∷◌, [], IfOk, IfSome, None};
ghost use Rattle.host_table.specs.Answers.{Keeps};
ghost use Rattle.host_table.specs.Table.{entry_count};

use crate::facts::Facts;
use crate::row::Row;
use crate::world::perform_with;
use dyl_app::Picker;
use host_table::{AddFault, Callback, HostTable, Put, Reply};
use spec_binary::wasm_form::{FuncType, List, Memory, ValType};
use std::alloc::Global;

/// The type of a function from an i32 to an i32.
fn i32_to_i32(alloc: Global) -> Result<FuncType, Memory>
    ensures { IfOk result (λ t. t ≡ record { params = ValType.I32 ∷ []; results = ValType.I32 ∷ [] }) }
{
    let params = vec![in alloc; ValType::I32; 1]?;
    let results = vec![in alloc; ValType::I32; 1]?;
    Ok(FuncType {
        params: List::of(params),
        results: List::of(results),
    })
}

/// Answers the double.
fn doubled(args: &[u64], _size: u64) -> Reply
    ensures result { result.result < 4294967296 }
    ensures put { result.put ≡ None }
{
    let first = args.first().copied().unwrap_or(0);
    Reply {
        result: first % 4_294_967_296 * 2 % 4_294_967_296,
        put: None,
    }
}

/// Answers 0.
fn nothing(_args: &[u64], _size: u64) -> Reply
    ensures result { result.result ≡ 0 }
    ensures put { result.put ≡ None }
{
    Reply {
        result: 0,
        put: None,
    }
}

/// Adds a host function from an i32 to an i32, unless there is one of this module and name.
fn adds(
    alloc: Global,
    host: &mut HostTable,
    from: &str,
    name: &str,
    call: Callback,
) -> Result<bool, Memory>
    requires room { entry_count host.old < 4294967295 }
    requires keeps { Keeps (Callback.pre call) (Callback.post call) (record { params = ValType.I32 ∷ []; results = ValType.I32 ∷ [] }) }
    ensures { entry_count host.new ≤ entry_count host.old + 1 }
{
    let ty = i32_to_i32(alloc)?;
    match host.add(alloc, from, name, ty, call) {
        Ok(()) => Ok(true),
        Err(refused) => {
            let is_there = refused.fault == AddFault::SameName;
            drop(refused);
            if is_there { Ok(false) } else { Err(Memory) }
        }
    }
}

/// Adds three host functions: one of the module `other`, and two of one module and name, of which the second isn't added. Tells whether all came
/// so.
fn adds_three(
    alloc: Global,
    host: &mut HostTable,
    from: &str,
    name: &str,
    other: Callback,
    call: Callback,
    again: Callback,
) -> bool
    requires room { entry_count host.old < 4294967293 }
    requires other { Keeps (Callback.pre other) (Callback.post other) (record { params = ValType.I32 ∷ []; results = ValType.I32 ∷ [] }) }
    requires call { Keeps (Callback.pre call) (Callback.post call) (record { params = ValType.I32 ∷ []; results = ValType.I32 ∷ [] }) }
    requires again { Keeps (Callback.pre again) (Callback.post again) (record { params = ValType.I32 ∷ []; results = ValType.I32 ∷ [] }) }
{
    let is_apart = adds(alloc, host, "other", name, other);
    let is_added = adds(alloc, host, from, name, call);
    let is_again = adds(alloc, host, from, name, again);
    matches!(
        (is_apart, is_added, is_again),
        (Ok(true), Ok(true), Ok(false))
    )
}

/// Performs a command of a row over a host function that answers the double: of the module `env`, or of another that
/// is named before it. It stands behind one of another module and before one of the same module and name, which isn't
/// added. These would answer 0.
pub fn perform_doubling(
    alloc: Global,
    words: &[String],
    table: &str,
    picker: &Picker,
    row: &mut Row,
    came: &mut Facts,
) -> Result<(), Memory> {
    let (from, name) = table.split_once(' ').unwrap_or(("env", table));
    let other: Callback = Box::new(alloc, nothing)?;
    let call: Callback = Box::new(alloc, doubled)?;
    let again: Callback = Box::new(alloc, nothing)?;
    let mut host = HostTable::new(alloc);
    let are_added = adds_three(alloc, &mut host, from, name, other, call, again);
    let performed = if are_added {
        perform_with(alloc, words, &host, picker, row, came)
    } else {
        Err(Memory)
    };
    drop(host);
    performed
}

/// Performs a command of a row over `knock` of the module `env`, which puts `k` at 1040.
pub fn perform_knocking(
    alloc: Global,
    words: &[String],
    picker: &Picker,
    row: &mut Row,
    came: &mut Facts,
) -> Result<(), Memory> {
    let letter = 107;
    let call: Callback = Box::new(
        alloc,
        move |_args: &[u64], size: u64| -> Reply
            ensures result { result.result ≡ 0 }
            ensures put { IfSome result.put (λ p. (p.len ≡ 1) × (p.at + 1 ≤ size)) }
        {
            let put = if size > 1040 {
                Some(Put {
                    at: 1040,
                    bytes: letter,
                    len: 1,
                })
            } else {
                None
            };
            Reply { result: 0, put }
        },
    )?;
    let ty = FuncType {
        params: List::of(Vec::new(alloc)),
        results: List::of(Vec::new(alloc)),
    };
    let mut host = HostTable::new(alloc);
    let performed = match host.add(alloc, "env", "knock", ty, call) {
        Ok(()) => perform_with(alloc, words, &host, picker, row, came),
        Err(refused) => {
            drop(refused);
            Err(Memory)
        }
    };
    drop(host);
    performed
}
