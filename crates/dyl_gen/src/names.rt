// Members and their names.
ghost use Rattle.std.specs.Prelude.{◌≡◌, ◌<◌, ◌≤◌, IfOk, string_bytes};
ghost use Rattle.dyl_gen.specs.Generated.{is_main, is_last, next, file_name, function_name, value_name};

use std::alloc::Global;
use wasm_form::{Memory, Text};

// Whether a member is the main module.
pub(crate) fn is_main(k: u32) -> bool
    ensures { result ≡ is_main k }
{
    k == 0
}

// Whether a member is the last of n.
pub(crate) fn is_last(n: u32, k: u32) -> bool
    requires { k < n }
    ensures { result ≡ is_last n k }
{
    k + 1 == n
}

// The member after one of n.
pub(crate) fn next(n: u32, k: u32) -> u32
    requires { k < n }
    ensures { result ≡ next n k }
{
    if is_last(n, k) { 0 } else { k + 1 }
}

pub(crate) fn text(alloc: Global, text: &str) -> Result<Text, Memory>
    ensures { IfOk result (λ t. t ≡ text.now) }
{
    let copy = String::from_str(alloc, text)?;
    Ok(Text::of(copy))
}

// The file of a member that isn't the main module.
fn library_name(alloc: Global, k: u32) -> Result<String, Memory>
    requires { 0 < k }
    ensures { IfOk result (λ t. string_bytes t ≡ file_name k) }
{
    let name = format!(in alloc; "m{k}.so")?;
    Ok(name)
}

// The file of a member.
pub(crate) fn file_name(alloc: Global, k: u32) -> Result<Text, Memory>
    ensures { IfOk result (λ t. t ≡ file_name k) }
{
    if is_main(k) {
        return text(alloc, "m0.wasm");
    }
    let name = library_name(alloc, k)?;
    Ok(Text::of(name))
}

// The function that a member defines.
pub(crate) fn function_name(alloc: Global, k: u32) -> Result<Text, Memory>
    ensures { IfOk result (λ t. t ≡ function_name k) }
{
    let name = format!(in alloc; "f{k}")?;
    Ok(Text::of(name))
}

// The value that a member defines.
pub(crate) fn value_name(alloc: Global, k: u32) -> Result<Text, Memory>
    ensures { IfOk result (λ t. t ≡ value_name k) }
{
    let name = format!(in alloc; "v{k}")?;
    Ok(Text::of(name))
}
