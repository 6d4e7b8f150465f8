// The entries of a host table.
ghost use Rattle.std.specs.Prelude.{◌≡◌, ◌≤◌, length, OnOk, IsTrue};
ghost use Rattle.spec_runtime.specs.Names.{with_name, has_integers};
ghost use Rattle.spec_runtime.specs.Hosts.{numbers_fit};
ghost use Rattle.host_table.specs.Names.{host_name_of};
ghost use Rattle.host_table.specs.Answers.{Keeps, ReplyFits, AnswersAt};
ghost use Rattle.host_table.specs.Numbered.{AreNumbered};

use crate::copies::copied_type;
use crate::{Callback, HostName, HostNames, HostNumbers, Reply};
use spec_runtime::wasm_form::Memory;
use std::alloc::Global;

// A host function of integers alone with its callback, whose answers fit.
#[derive(Drop)]
pub struct Entry {
    pub host: HostName,
    pub call: Callback,
    ghost keeps: { Keeps (Callback.pre call) (Callback.post call) host.ty },
    ghost integers: { IsTrue (has_integers host.ty) },
}

impl Entry {
    // Calls it.
    pub fn ask(&self, args: &[u64], size: u64) -> Reply
        requires fit { IsTrue (numbers_fit self.now.host.ty.params args.now) }
        requires memory { size ≤ 4294967296 }
        ensures answers { AnswersAt (Callback.post self.now.call) args.now size result }
        ensures fits { ReplyFits self.now.host.ty size result }
    {
        (self.call)(args, size)
    }

    // Declares it.
    pub fn declare(&self, alloc: Global, names: &mut HostNames) -> Result<(), Memory>
        ensures { OnOk result (names.new ≡ with_name names.old (host_name_of self.now.host)) }
    {
        let ty = copied_type(alloc, &self.host.ty)?;
        names.declare(
            alloc,
            self.host.module.as_str(),
            self.host.name.as_str(),
            ty,
        )
    }
}

/// Why a host function wasn't added.
#[derive(Clone, Copy, Debug, PartialEq, Eq)]
pub enum AddFault {
    SameName,
    Memory,
}

/// A refusal to add a host function, with its callback.
#[derive(Drop)]
pub struct AddRefused {
    pub fault: AddFault,
    pub call: Callback,
}

/// Host functions with their callbacks, each beside the fact that its answers fit its type and the memory. No two
/// have the same module and name.
#[derive(Drop)]
pub struct HostTable {
    pub(crate) entries: Vec<Entry>,
    pub(crate) numbers: HostNumbers,
    ghost room: { length entries.items ≤ 4294967295 },
    ghost numbered: { AreNumbered (λ e. host_name_of e.host) numbers entries.items },
}
