// Declared host functions of types that no module that is run has, and names without a type of their own.
use host_table::{HostMatch, HostNames};
use std::alloc::Global;
use wasm_form::{FuncType, List, Memory, ValType};

/// The type of a function from an f32 to an i32.
fn real(alloc: Global) -> Result<FuncType, Memory> {
    let params = vec![in alloc; ValType::F32; 1]?;
    let results = vec![in alloc; ValType::I32; 1]?;
    Ok(FuncType {
        params: List::of(params),
        results: List::of(results),
    })
}

/// What is found of a function of that type.
fn found(alloc: Global, names: &HostNames) -> Result<HostMatch, Memory> {
    let ty = real(alloc)?;
    let found = names.find("env", "a", &ty);
    drop(ty);
    Ok(found)
}

/// The rest of a module covers types of integers alone, and gives its names no type.
#[test]
fn the_rest_of_a_module(rt: HostRuntime) {
    let alloc = rt.alloc();
    let mut names = HostNames::new(alloc);
    let declared = names.declare_rest(alloc, "env");
    let found = found(alloc, &names);
    let is_typed = names.typed("env", "a").is_some();
    drop(names);
    assert!(rt; declared.is_ok() && found == Ok(HostMatch::OtherType) && !is_typed);
}
