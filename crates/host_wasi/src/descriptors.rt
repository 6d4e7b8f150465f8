// The calls on a descriptor that move no bytes.
ghost use Rattle.std.specs.Prelude.{◌≡◌, [], not, IfOk};
ghost use Rattle.spec_hosts.specs.Calls as calls;
ghost use Rattle.host_wasi.specs.Wants.{wanted_by};

use crate::access::is_in;
use crate::replies::add_bytes;
use crate::want::{BADF, FAULT, SPIPE, Want, refuse, succeed};
use spec_hosts::wasm_form::Memory;
use std::alloc::Global;
use wasm_space::Space;

/// How many descriptors are open: the standard input, output and errors.
const OPEN: u32 = 3;

/// What fd_close wants: nothing comes of it.
pub(crate) fn fd_close(alloc: Global, fd: u32) -> Result<Want, Memory>
    ensures { IfOk result (λ w. wanted_by w ≡ calls.unless (not (calls.is_open fd)) calls.badf (calls.Says (calls.success []))) }
{
    if fd >= OPEN {
        return refuse(alloc, BADF);
    }
    succeed(alloc, Vec::new(alloc))
}

/// What fd_seek wants: no open descriptor can be sought in.
pub(crate) fn fd_seek(alloc: Global, fd: u32) -> Result<Want, Memory>
    ensures { IfOk result (λ w. wanted_by w ≡ calls.unless (not (calls.is_open fd)) calls.badf (calls.Says (calls.refused calls.spipe))) }
{
    if fd >= OPEN {
        return refuse(alloc, BADF);
    }
    refuse(alloc, SPIPE)
}

/// What fd_fdstat_get wants: what may be done with the descriptor is written.
pub(crate) fn fd_fdstat_get(
    alloc: Global,
    memory: &Space,
    fd: u32,
    out: u32,
) -> Result<Want, Memory>
    ensures { IfOk result (λ w. wanted_by w ≡ calls.fdstat_wanted memory.now fd out) }
{
    if fd >= OPEN {
        return refuse(alloc, BADF);
    }
    if !is_in(memory, out, 24) {
        return refuse(alloc, FAULT);
    }
    let mut writes = Vec::new(alloc);
    add_bytes(&mut writes, out, fdstat(alloc, fd)?)?;
    succeed(alloc, writes)
}

/// A character device, of which the input may be read and the others written.
fn fdstat(alloc: Global, fd: u32) -> Result<Vec<u8>, Memory>
    ensures { IfOk result (λ bytes. bytes.items ≡ calls.fdstat fd) }
{
    let mut bytes = vec![in alloc; 0; 24]?;
    bytes[0] = 2;
    bytes[8] = if fd == 0 { 2 } else { 64 };
    Ok(bytes)
}
