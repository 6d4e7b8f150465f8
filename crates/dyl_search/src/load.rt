// The module of a member.
ghost use Rattle.std.specs.Prelude.{◌≡◌};
ghost use Rattle.spec_reading.specs.spec_binary.WellFormed.{IsWellFormed};
ghost use Rattle.dyl_search.specs.Loaded.{IsLoaded, IsTested, IsValid, decode_answer, record_answer, check_answer};

use dyl_section::{Dylink, RecordFault, read_dylink};
use spec_linking::SetFault;
use std::alloc::Global;
use wasm_check::{CheckFault, Checked, check};
use wasm_decode::{DecodeFault, decode};
use wasm_form::Module;

// The record of a module and the module, which has no fault.
#[derive(Drop)]
pub struct Loaded {
    pub dylink: Dylink,
    pub checked: Checked,
}

fn not_decoded(number: u32, fault: DecodeFault) -> SetFault
    ensures { result ≡ decode_answer number fault }
{
    match fault {
        DecodeFault::Memory => SetFault::Memory,
        fault => SetFault::Decode {
            module: number,
            fault,
        },
    }
}

fn not_recorded(number: u32, fault: RecordFault) -> SetFault
    ensures { result ≡ record_answer number fault }
{
    match fault {
        RecordFault::Memory => SetFault::Memory,
        fault => SetFault::Record {
            module: number,
            fault,
        },
    }
}

fn not_valid(number: u32, fault: CheckFault) -> SetFault
    ensures { result ≡ check_answer number fault }
{
    match fault {
        CheckFault::Memory => SetFault::Memory,
        fault => SetFault::Check {
            module: number,
            fault,
        },
    }
}

// A module without a fault.
fn valid(alloc: Global, number: u32, wasm: Module) -> Result<Checked, SetFault>
    requires { IsWellFormed wasm }
    ensures { IsValid number wasm result }
{
    match check(alloc, wasm) {
        Ok(checked) => Ok(checked),
        Err(refused) => {
            let fault = refused.fault;
            drop(refused.module);
            Err(not_valid(number, fault))
        }
    }
}

// A module with its record and without a fault.
fn tested(alloc: Global, number: u32, wasm: Module) -> Result<Loaded, SetFault>
    requires { IsWellFormed wasm }
    ensures { IsTested number wasm result }
{
    let dylink = match read_dylink(alloc, &wasm) {
        Ok(dylink) => dylink,
        Err(fault) => {
            drop(wasm);
            return Err(not_recorded(number, fault));
        }
    };
    match valid(alloc, number, wasm) {
        Ok(checked) => Ok(Loaded { dylink, checked }),
        Err(fault) => {
            drop(dylink);
            Err(fault)
        }
    }
}

// The module that the bytes of the member with this number are.
pub fn load(alloc: Global, number: u32, bytes: &[u8]) -> Result<Loaded, SetFault>
    ensures { IsLoaded number bytes.now result }
{
    match decode(alloc, bytes) {
        Ok(wasm) => tested(alloc, number, wasm),
        Err(fault) => Err(not_decoded(number, fault)),
    }
}
