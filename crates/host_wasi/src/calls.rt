// The names and the types of the calls.
ghost use Rattle.std.specs.Prelude.{◌≡◌, IfOk};
ghost use Rattle.std.specs.Option.{option_map};
ghost use Rattle.spec_hosts.specs.Calls as calls;
ghost use Rattle.host_wasi.specs.Wants.{meant};

use spec_hosts::wasm_form::{FuncType, List, Memory, ValType};
use std::alloc::Global;

/// A call of WASI preview 1.
#[derive(Clone, Copy, Debug, PartialEq, Eq)]
pub enum Call {
    ArgsSizesGet,
    ArgsGet,
    EnvironSizesGet,
    EnvironGet,
    FdWrite,
    FdRead,
    FdClose,
    FdSeek,
    FdFdstatGet,
    FdPrestatGet,
    FdPrestatDirName,
    ClockTimeGet,
    RandomGet,
    ProcExit,
}

/// The calls in the order in which they are declared.
pub(crate) const CALLS: [Call; 14] = [
    Call::ArgsSizesGet,
    Call::ArgsGet,
    Call::EnvironSizesGet,
    Call::EnvironGet,
    Call::FdWrite,
    Call::FdRead,
    Call::FdClose,
    Call::FdSeek,
    Call::FdFdstatGet,
    Call::FdPrestatGet,
    Call::FdPrestatDirName,
    Call::ClockTimeGet,
    Call::RandomGet,
    Call::ProcExit,
];

impl Call {
    /// The name under which a program imports it.
    pub(crate) fn name(self) -> &'static str
        ensures { result.now ≡ calls.name_of (meant self) }
    {
        match self {
            Call::ArgsSizesGet => "args_sizes_get",
            Call::ArgsGet => "args_get",
            Call::EnvironSizesGet => "environ_sizes_get",
            Call::EnvironGet => "environ_get",
            Call::FdWrite => "fd_write",
            Call::FdRead => "fd_read",
            Call::FdClose => "fd_close",
            Call::FdSeek => "fd_seek",
            Call::FdFdstatGet => "fd_fdstat_get",
            Call::FdPrestatGet => "fd_prestat_get",
            Call::FdPrestatDirName => "fd_prestat_dir_name",
            Call::ClockTimeGet => "clock_time_get",
            Call::RandomGet => "random_get",
            Call::ProcExit => "proc_exit",
        }
    }

    /// The type under which a program imports it.
    pub(crate) fn ty(self, alloc: Global) -> Result<FuncType, Memory>
        ensures { IfOk result (λ t. t ≡ calls.type_of_call (meant self)) }
    {
        let params = self.params().to_vec(alloc)?;
        let results = self.results().to_vec(alloc)?;
        Ok(FuncType {
            params: List::of(params),
            results: List::of(results),
        })
    }

    /// The types of its parameters.
    pub fn params(self) -> &'static [ValType]
        ensures { result.now ≡ calls.params_of (meant self) }
    {
        match self {
            Call::ProcExit | Call::FdClose => &[ValType::I32],
            Call::ArgsSizesGet
            | Call::ArgsGet
            | Call::EnvironSizesGet
            | Call::EnvironGet
            | Call::FdFdstatGet
            | Call::FdPrestatGet
            | Call::RandomGet => &[ValType::I32, ValType::I32],
            Call::FdPrestatDirName => &[ValType::I32, ValType::I32, ValType::I32],
            Call::ClockTimeGet => &[ValType::I32, ValType::I64, ValType::I32],
            Call::FdWrite | Call::FdRead => {
                &[ValType::I32, ValType::I32, ValType::I32, ValType::I32]
            }
            Call::FdSeek => &[ValType::I32, ValType::I64, ValType::I32, ValType::I32],
        }
    }

    fn results(self) -> &'static [ValType]
        ensures { result.now ≡ calls.results_of (meant self) }
    {
        match self {
            Call::ProcExit => &[],
            _ => &[ValType::I32],
        }
    }
}

/// The call of a name, if it is that of one.
pub fn call_named(name: &str) -> Option<Call>
    ensures { option_map meant result ≡ calls.call_named name.now }
{
    for call in &CALLS {
        if name == call.name() {
            return Some(*call);
        }
    }
    None
}
