// Host functions with their callbacks.
ghost use Rattle.std.specs.Prelude.{◌≡◌, ◌<◌, ◌≤◌, ◌+◌, length, vec_capacity, [], OnOk, OnErr, IfErr, IfOk, is_some, None, false, IsTrue};
ghost use Rattle.std.specs.List.{All};
ghost use Rattle.spec_runtime.specs.Names.{has_integers, with_names};
ghost use Rattle.host_table.specs.Names.{host_name_of};
ghost use Rattle.host_table.specs.Answers.{Keeps};
ghost use Rattle.host_table.specs.Numbers.{number_of, with_number};
ghost use Rattle.host_table.specs.Table.{is_same_name, functions_of, entry_count, entry_number, FitEntry, FitsEntry, GivesAnswer, Adds, IsUnchanged};

use crate::entry::{AddFault, AddRefused, Entry, HostTable};
use crate::{Callback, HostName, HostNames, HostNumbers, Reply};
use spec_runtime::wasm_form::{FuncType, Memory, Text};
use std::alloc::Global;

impl HostTable {
    /// A table without entries.
    pub fn new(alloc: Global) -> HostTable
        ensures none { functions_of result ≡ [] }
        ensures count { entry_count result ≡ 0 }
    {
        HostTable {
            entries: Vec::new(alloc),
            numbers: HostNumbers::new(alloc),
        }
    }

    /// The number of the entry of this module and name, None exactly where there is none.
    pub fn find(&self, from: &str, name: &str) -> Option<u32>
        ensures { result ≡ entry_number self.now from.now name.now }
    {
        self.numbers.find(from, name)
    }

    /// Adds a host function of integer parameters and at most one integer result, at the end. It is refused, with its
    /// callback, as `SameName` exactly where the table has its module and name, else for want of memory; the table
    /// then stays as it is.
    pub fn add(
        &mut self,
        alloc: Global,
        from: &str,
        name: &str,
        ty: FuncType,
        call: Callback,
    ) -> Result<(), AddRefused>
        requires room { entry_count self.old < 4294967295 }
        requires integers { IsTrue (has_integers ty) }
        requires results { length ty.results ≤ 1 }
        requires keeps { Keeps (Callback.pre call) (Callback.post call) ty }
        ensures fresh { OnOk result (is_some (entry_number self.old from.now name.now) ≡ false) }
        ensures added { OnOk result (Adds self.old (record { module_name = from.now; name = name.now; ty = ty }) call self.new) }
        ensures same { IfErr result (λ e. is_same_name e.fault ≡ is_some (entry_number self.old from.now name.now)) }
        ensures back { IfErr result (λ e. e.call ≡ call) }
        ensures unchanged { OnErr result (IsUnchanged self.old self.new) }
        ensures count { entry_count self.new ≤ entry_count self.old + 1 }
    {
        if self.find(from, name).is_some() {
            return Err(AddRefused {
                fault: AddFault::SameName,
                call,
            });
        }
        match named(alloc, from, name, ty) {
            Ok(host) => self.push(alloc, host, call),
            Err(_) => Err(AddRefused {
                fault: AddFault::Memory,
                call,
            }),
        }
    }

    // Adds an entry at the end, whose module and name no entry has.
    fn push(&mut self, alloc: Global, host: HostName, call: Callback) -> Result<(), AddRefused>
        requires room { entry_count self.old < 4294967295 }
        requires fresh { entry_number self.old host.«module» host.name ≡ None }
        requires integers { IsTrue (has_integers host.ty) }
        requires keeps { Keeps (Callback.pre call) (Callback.post call) host.ty }
        ensures added { OnOk result (Adds self.old (host_name_of host) call self.new) }
        ensures fault { IfErr result (λ e. is_same_name e.fault ≡ false) }
        ensures back { IfErr result (λ e. e.call ≡ call) }
        ensures unchanged { OnErr result (IsUnchanged self.old self.new) }
        ensures count { entry_count self.new ≤ entry_count self.old + 1 }
    {
        match prepare(alloc, &host, &mut self.entries, &mut self.numbers) {
            Ok(()) => match self.entries.push(Entry { host, call }) {
                Ok(()) => Ok(()),
                Err(_) => unreachable!(),
            },
            Err(Memory) => Err(AddRefused {
                fault: AddFault::Memory,
                call,
            }),
        }
    }

    /// Calls entry n with these arguments and a memory of `size` bytes: an answer that its callback gives, which fits
    /// the entry's type and the memory.
    pub fn call(&self, n: u32, args: &[u64], size: u64) -> Reply
        requires there { n < entry_count self.now }
        requires fit { FitEntry self.now n args.now }
        requires memory { size ≤ 4294967296 }
        ensures answers { GivesAnswer Callback.post self.now n args.now size result }
        ensures fits { FitsEntry self.now n size result }
    {
        self.entries[n as usize].ask(args, size)
    }

    /// These names, and then every entry of the table declared in order. Each has integers alone.
    pub fn names(&self, alloc: Global, first: HostNames) -> Result<HostNames, Memory>
        ensures declared { IfOk result (λ r. r ≡ with_names first (functions_of self.now)) }
        ensures integers { All (λ h. IsTrue (has_integers h.ty)) (functions_of self.now) }
    {
        let mut names = first;
        let mut rest = self.entries.as_slice();
        while let Some((entry, tail)) = rest.split_first() {
            entry.declare(alloc, &mut names)?;
            rest = tail;
        }
        Ok(names)
    }
}

// Makes room for one entry more, and numbers the host function that it will have.
fn prepare(
    alloc: Global,
    host: &HostName,
    entries: &mut Vec<Entry>,
    numbers: &mut HostNumbers,
) -> Result<(), Memory>
    requires few { length entries.old.items < 4294967295 }
    requires new { number_of numbers.old host.now.«module» host.now.name ≡ None }
    ensures entries { entries.new.items ≡ entries.old.items }
    ensures room { OnOk result (length entries.new.items < vec_capacity entries.new) }
    ensures ok { OnOk result (numbers.new ≡ with_number host.now.«module» host.now.name (length entries.old.items) numbers.old) }
    ensures err { OnErr result (numbers.new ≡ numbers.old) }
{
    entries.reserve(1)?;
    let number = entries.len() as u32;
    numbers.add(alloc, host.module.as_str(), host.name.as_str(), number)
}

// A host function of this module, name and type.
fn named(alloc: Global, from: &str, name: &str, ty: FuncType) -> Result<HostName, Memory>
    ensures { IfOk result (λ h. host_name_of h ≡ record { module_name = from.now; name = name.now; ty = ty }) }
{
    let module = Text::copied(alloc, from)?;
    let name = Text::copied(alloc, name)?;
    Ok(HostName { module, name, ty })
}
