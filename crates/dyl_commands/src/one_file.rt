// The file of a module that is run, or of a trace.
ghost use Rattle.std.specs.Prelude.{◌≡◌, IfErr, false};
ghost use Rattle.spec_reading.specs.spec_binary.WellFormed.{IsWellFormed};
ghost use Rattle.dyl_commands.specs.OneFile.{OfModule, OfBytes};
ghost use Rattle.dyl_commands.specs.Causes.{wants_inside};
ghost use Rattle.dyl_commands.specs.Fetched.{decode_fault, check_fault, OrMemory, IsMissing, IsUnread, FetchesFile, ReadsFile};

use dyl_link::dyl_search::name_of;
use dyl_link::wasm_check::{Checked, check};
use spec_hosts::dyl_outside::{FileFault, Files};
use spec_loading::spec_linking::SetFault;
use spec_loading::spec_validation::CheckFault;
use spec_reading::spec_binary::DecodeFault;
use std::alloc::Global;
use wasm_decode::decode;
use wasm_form::{Module, Text};

/// The most bytes of a module that is run, and of the text of a trace.
pub const MOST_RUN: usize = 67_108_864;

/// That there is no file at a path.
fn missing(alloc: Global, path: &str) -> SetFault
    ensures { IsMissing path.now result }
{
    match Text::copied(alloc, name_of(path)) {
        Ok(name) => SetFault::Missing { name },
        Err(_) => SetFault::Memory,
    }
}

/// That the file at a path can't be read.
fn unread(alloc: Global, path: &str) -> SetFault
    ensures { IsUnread path.now result }
{
    match Text::copied(alloc, path) {
        Ok(path) => SetFault::ReadFault { path },
        Err(_) => SetFault::Memory,
    }
}

/// That its bytes are no module.
fn not_decoded(fault: DecodeFault) -> SetFault
    ensures { result ≡ decode_fault fault }
{
    match fault {
        DecodeFault::Memory => SetFault::Memory,
        fault => SetFault::Decode { module: 0, fault },
    }
}

/// That its module isn't valid.
fn not_valid(fault: CheckFault) -> SetFault
    ensures { result ≡ check_fault fault }
{
    match fault {
        CheckFault::Memory => SetFault::Memory,
        fault => SetFault::Check { module: 0, fault },
    }
}

/// A module that is valid.
fn checked(alloc: Global, wasm: Module) -> Result<Checked, SetFault>
    requires { IsWellFormed wasm }
    ensures told { OrMemory (OfModule wasm) result }
    ensures inner { IfErr result (λ fault. wants_inside fault ≡ false) }
{
    match check(alloc, wasm) {
        Ok(checked) => Ok(checked),
        Err(refused) => {
            let fault = refused.fault;
            drop(refused);
            Err(not_valid(fault))
        }
    }
}

/// The module that bytes spell.
fn module_of(alloc: Global, bytes: &[u8]) -> Result<Checked, SetFault>
    ensures told { OrMemory (OfBytes bytes.now) result }
    ensures inner { IfErr result (λ fault. wants_inside fault ≡ false) }
{
    match decode(alloc, bytes) {
        Ok(wasm) => checked(alloc, wasm),
        Err(fault) => Err(not_decoded(fault)),
    }
}

/// The bytes of the file at a path, of which there may be so many, or why they aren't had.
pub fn fetch_file<F: Files>(alloc: Global, path: &str, files: &mut F) -> Result<Vec<u8>, SetFault>
    ensures { FetchesFile path.now result (F.seen files.old) (F.seen files.new) }
{
    match files.fetch(alloc, path, MOST_RUN) {
        Ok(bytes) => Ok(bytes),
        Err(FileFault::Absent) => Err(missing(alloc, path)),
        Err(FileFault::Failed) => Err(unread(alloc, path)),
        Err(FileFault::TooLong) => Err(SetFault::SetSize),
        Err(FileFault::Memory) => Err(SetFault::Memory),
    }
}

/// The module of the file at a path.
pub fn read_module<F: Files>(alloc: Global, path: &str, files: &mut F) -> Result<Checked, SetFault>
    ensures { ReadsFile path.now result (F.seen files.old) (F.seen files.new) }
{
    match fetch_file(alloc, path, files) {
        Ok(bytes) => module_of(alloc, &bytes),
        Err(fault) => Err(fault),
    }
}
