// What decoding, checking and writing say of bytes.
ghost use Rattle.spec_binary.specs.WellFormed.{IsWellFormed};

use crate::code::hex;
use crate::record;
use dyl_section::RecordFault;
use std::alloc::{AllocError, Global};
use wasm_check::{Checked, Known, check, evaluate};
use wasm_decode::{DecodeFault, decode};
use wasm_encode::{EncodeFault, encode, round_trip};
use wasm_form::Module;

// The height of a body, if there is one.
fn height_at(checked: &Checked, body: usize) -> Option<u32> {
    if body < checked.module().codes.items().len() && body <= 0xFFFF_FFFF {
        Some(checked.height(body as u32))
    } else {
        None
    }
}

// The heights of the bodies, in order.
fn heights(alloc: Global, checked: &Checked) -> Result<String, AllocError> {
    let mut told = String::from_str(alloc, "heights")?;
    for body in 0..checked.module().codes.items().len() {
        if let Some(height) = height_at(checked, body) {
            write!(told, " {height}")?;
        }
    }
    Ok(told)
}

// The fault of a module, or that it has none, or the heights of its bodies.
fn checked(alloc: Global, verb: &str, m: Module) -> Result<String, AllocError>
    requires { IsWellFormed m }
{
    match check(alloc, m) {
        Ok(checked) => {
            let told = if verb == "heights" {
                heights(alloc, &checked)
            } else {
                String::from_str(alloc, "ok")
            };
            drop(checked);
            told
        }
        Err(refused) => {
            let told = format!(in alloc; "{:?}", refused.fault);
            drop(refused);
            told
        }
    }
}

// What is written of a module.
fn written(alloc: Global, m: &Module) -> Result<String, AllocError>
    requires { IsWellFormed m.now }
{
    match encode(alloc, m) {
        Ok(bytes) => hex(alloc, &bytes),
        Err(_) => String::from_str(alloc, "not written"),
    }
}

// What is written of a module once it went the way there and back.
fn written_again(alloc: Global, m: &Module) -> Result<Vec<u8>, EncodeFault>
    requires { IsWellFormed m.now }
{
    match round_trip(alloc, m) {
        Ok(again) => {
            let bytes = encode(alloc, &again);
            drop(again);
            bytes
        }
        Err(fault) => Err(fault),
    }
}

// Whether a module is written again the same.
fn kept(alloc: Global, m: &Module) -> Result<String, AllocError>
    requires { IsWellFormed m.now }
{
    match (encode(alloc, m), written_again(alloc, m)) {
        (Ok(once), Ok(again)) => {
            let is_same = once == again;
            String::from_str(alloc, if is_same { "ok" } else { "another module" })
        }
        _ => String::from_str(alloc, "not written"),
    }
}

// The values of the constant expressions of the globals, where the one that is imported is 1024.
fn values(alloc: Global, m: &Module) -> Result<String, AllocError> {
    let imported = [1024];
    let mut told = String::from_str(alloc, "values")?;
    for global in m.globals.items() {
        match evaluate(alloc, &global.init, &Known::Numbers(&imported)) {
            Ok(Some(value)) => write!(told, " {value:?}")?,
            Ok(None) => told.push_str(" none")?,
            Err(_) => told.push_str(" out of memory")?,
        }
    }
    Ok(told)
}

// What is said of a module that is kept.
fn of_lent(alloc: Global, verb: &str, m: &Module) -> Result<String, AllocError>
    requires { IsWellFormed m.now }
{
    match verb {
        "encode" => written(alloc, m),
        "record" => record::answer(alloc, m),
        "values" => values(alloc, m),
        _ => kept(alloc, m),
    }
}

// What is said of a module.
fn of_module(alloc: Global, verb: &str, m: Module) -> Result<String, AllocError>
    requires { IsWellFormed m }
{
    if verb == "check" || verb == "heights" {
        checked(alloc, verb, m)
    } else {
        let told = of_lent(alloc, verb, &m);
        drop(m);
        told
    }
}

/// What is told of want of memory: where bytes are decoded, or a record is read.
pub fn want(alloc: Global, part: &str) -> Result<String, AllocError> {
    match part {
        "decode" => format!(in alloc; "{}", DecodeFault::Memory),
        "record" => format!(in alloc; "{}", RecordFault::Memory),
        _ => String::from_str(alloc, "no fault"),
    }
}

/// What is said of the module of these bytes, or why there is none.
pub fn answer(alloc: Global, verb: &str, bytes: &[u8]) -> Result<String, AllocError> {
    match decode(alloc, bytes) {
        Ok(m) => of_module(alloc, verb, m),
        Err(fault) => format!(in alloc; "{fault}"),
    }
}
