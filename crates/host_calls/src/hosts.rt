// The host functions of a run.
ghost use Rattle.std.specs.Prelude.{◌≡◌, map, IfOk, IsTrue};
ghost use Rattle.spec_hosts.specs.spec_runtime.Names.{host_match, Fits};
ghost use Rattle.spec_hosts.specs.spec_runtime.Hosts.{numbers_fit, answer_fits};
ghost use Rattle.spec_hosts.specs.Devices.{devices};
ghost use Rattle.host_table.specs.Names.{host_name_of};
ghost use Rattle.host_calls.specs.Embedders.{names_of, embedder, call_of, Asks};
ghost use Rattle.host_calls.specs.Bindings.{IsBinding, AreBindings, IsBound};

use crate::binding::{Binding, bindings_of};
use crate::table::ask_table;
use host_table::{HostName, HostTable};
use host_wasi::Wasi;
use spec_hosts::dyl_outside::{Ambient, Sink, Source};
use spec_hosts::wasm_form::{Answer, Asked, Memory};
use spec_hosts::{names_have_their_types, wasi_answers_fit};
use std::alloc::Global;
use wasm_space::Space;

/// The host functions of a run: WASI for a program, a host table, and what answers each function that a module imports, found once.
#[derive(Drop)]
pub struct Hosts<'a> {
    pub wasi: Wasi,
    pub table: &'a HostTable,
    pub bindings: Vec<Binding>,
}

impl<'a> Hosts<'a> {
    /// Finds what answers each of the host functions that a module imports.
    pub fn bind(
        alloc: Global,
        wasi: Wasi,
        table: &'a HostTable,
        hosts: &[HostName],
    ) -> Result<Hosts<'a>, Memory>
        ensures wasi { IfOk result (λ h. h.wasi ≡ wasi) }
        ensures table { IfOk result (λ h. h.table.now ≡ table.now) }
        ensures bound { IfOk result (λ h. AreBindings table.now (map (λ h. host_name_of h) hosts.now) h.bindings.items) }
    {
        let bindings = bindings_of(alloc, table, hosts)?;
        Ok(Hosts {
            wasi,
            table,
            bindings,
        })
    }

    /// What answers a host function by its number.
    fn binding_at(&self, host: &HostName, entry: u32) -> Binding
        requires { IsBound self.now entry (host_name_of host.now) }
        ensures { IsBinding self.now.table.now (host_name_of host.now) result }
    {
        match self.bindings.get(entry as usize) {
            Some(binding) => *binding,
            None => unreachable!(),
        }
    }

    /// The answer to a call of a host function that WASI or the table declares, over the memory at the call: that of WASI where the
    /// module is `wasi_snapshot_preview1`, and else that of the table's callback, with its put as the one write. At want of memory what
    /// the call wants of the devices may have been begun.
    pub fn ask<I: Source, O: Sink, E: Sink, A: Ambient>(
        &self,
        alloc: Global,
        host: &HostName,
        asked: &Asked,
        memory: &Space,
        input: &mut I,
        output: &mut O,
        errors: &mut E,
        ambient: &mut A,
    ) -> Result<Answer, Memory>
        requires bound { IsBound self.now asked.now.entry (host_name_of host.now) }
        requires declared { host_match (names_of self.now.table.now) host.now.«module» host.now.name host.now.ty ≡ Fits }
        requires arguments { IsTrue (numbers_fit host.now.ty.params asked.now.args) }
        ensures asked { Asks (embedder self.now) host.now asked.now memory.now result (devices (I.seen input.old) (O.seen output.old) (E.seen errors.old) (A.seen ambient.old)) (devices (I.seen input.new) (O.seen output.new) (E.seen errors.new) (A.seen ambient.new)) }
        ensures fits { IfOk result (λ a. IsTrue (answer_fits (call_of host.now asked.now) memory.now a)) }
    {
        names_have_their_types();
        wasi_answers_fit();
        match self.binding_at(host, asked.entry) {
            Binding::Wasi(call) => self
                .wasi
                .answer(alloc, call, asked, memory, input, output, errors, ambient),
            Binding::Table(entry) => ask_table(alloc, self.table, host, entry, asked, memory),
        }
    }
}
