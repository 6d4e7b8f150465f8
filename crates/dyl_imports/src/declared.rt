// The host functions that are declared.
ghost use Rattle.std.specs.Prelude.{◌≡◌};
ghost use Rattle.spec_loading.specs.spec_linking.LinkedSets as linked;

use host_table::{HostMatch, HostNames};
use spec_loading::spec_linking::Kind;
use wasm_form::FuncType;

// Whether a host function of this module and name is declared. It is asked for by any type.
pub(crate) fn is_declared(names: &HostNames, any: &FuncType, from: &str, name: &str) -> bool
    ensures { result ≡ linked.is_declared names.now from.now name.now }
{
    match names.find(from, name, any) {
        HostMatch::Unknown => false,
        HostMatch::Fits | HostMatch::OtherType => true,
    }
}

// The same for a name of `env` in an import of this kind.
pub(crate) fn is_host_for(names: &HostNames, any: &FuncType, kind: Kind, name: &str) -> bool
    ensures { result ≡ linked.is_host_for names.now kind name.now }
{
    match kind {
        Kind::Func => names.typed("env", name).is_some(),
        Kind::Function | Kind::Mem | Kind::Other => is_declared(names, any, "env", name),
    }
}
