// Modules without a fault.
ghost use Rattle.std.specs.Prelude.{◌≡◌, ◌<◌, length, Some, None, IfOk, IfErr, OnOk};
ghost use Rattle.spec_execution.specs.spec_binary.WellFormed.{IsWellFormed};
ghost use Rattle.spec_execution.specs.spec_binary.IndexSpaces.{function_space};
ghost use Rattle.spec_execution.specs.spec_validation.Faults.{support_fault, fault};
ghost use Rattle.spec_execution.specs.spec_binary.Indices.{function_type};
ghost use Rattle.wasm_check.specs.Answers.{ChecksTo, IsFirst};
ghost use Rattle.wasm_check.specs.Inside.{AreSupported};
ghost use Rattle.wasm_check.specs.Heights.{height_of, IsChecked};

use crate::bodies::bodies_typed;
use crate::fields::fields_fit;
use crate::inside::bodies_supported;
use crate::refers::refers_of;
use crate::spaces::spaces_of;
use crate::support::{
    elems_supported, functions_supported, globals_supported, imports_supported, supported_types,
    tables_supported,
};
use spec_execution::spec_validation::CheckFault;
use std::alloc::Global;
use std::marker::Model;
use wasm_form::{FuncType, Module};

/// A well formed module without a fault. Contracts see it as the module.
#[derive(Drop)]
pub struct Checked {
    wasm: Module,
    functions: Vec<u32>,
    heights: Vec<u32>,
}

impl Model for Checked {
    ghost use Rattle.wasm_form.specs.declared.module.Module.{Module};
    ghost use Rattle.wasm_form.specs.contracts.module.Module as modules;
    ghost use Rattle.wasm_check.specs.Heights.{IsChecked};

    ghost Value = { Module };

    ghost coded = { modules.the_row.coded };

    ghost view = { λ a. a.wasm };

    ghost invariant = { λ a. IsChecked a.wasm a.functions.items a.heights.items };
}

impl Checked {
    /// The module, which is well formed and has no fault.
    #[inline(always)]
    pub fn module(&self) -> &Module
        ensures same { result.now ≡ self.now }
        ensures formed { IsWellFormed self.now }
        ensures valid { fault self.now ≡ None }
    {
        &self.wasm
    }

    /// The module itself, which is well formed and has no fault.
    pub fn into_module(self) -> Module
        ensures same { result ≡ self }
        ensures formed { IsWellFormed self }
        ensures valid { fault self ≡ None }
    {
        self.wasm
    }

    /// The type of a function, by its index.
    #[inline(always)]
    pub fn func_type(&self, f: u32) -> &FuncType
        requires { f < length (function_space self.now) }
        ensures { Some result.now ≡ function_type self.now f }
    {
        &self.wasm.types.items()[self.functions[f as usize] as usize]
    }

    /// The height of a body, by its number, or 4,294,967,295 if it is greater.
    pub fn height(&self, body: u32) -> u32
        requires { body < length self.now.codes }
        ensures { Some result ≡ height_of self.now body }
    {
        self.heights[body as usize]
    }
}

/// A module, and why it is refused.
#[derive(Drop)]
pub struct CheckRefused {
    pub fault: CheckFault,
    pub module: Module,
}

// What is not supported, in the order of the sections.
fn module_supported(m: &Module, types: &[bool]) -> Result<(), CheckFault>
    requires formed { IsWellFormed m.now }
    requires types { AreSupported m.now types.now }
    ensures { ChecksTo result (support_fault m.now) }
{
    imports_supported(m, types)?;
    functions_supported(m, types)?;
    tables_supported(m.tables.items())?;
    globals_supported(m.globals.items())?;
    elems_supported(m.elems.items())?;
    bodies_supported(m, types)
}

// The functions of the module by the numbers of their types, and the heights of its bodies.
fn first_fault(alloc: Global, m: &Module) -> Result<(Vec<u32>, Vec<u32>), CheckFault>
    requires { IsWellFormed m.now }
    ensures tells { ChecksTo result (fault m.now) }
    ensures checked { IfOk result (λ kept. IsChecked m.now kept.0.items kept.1.items) }
{
    let types = supported_types(alloc, m)?;
    module_supported(m, &types)?;
    let spaces = spaces_of(alloc, m)?;
    fields_fit(alloc, m, &spaces)?;
    let refers = refers_of(alloc, m, &spaces.functions)?;
    let heights = bodies_typed(alloc, m, &spaces, &refers)?;
    Ok((spaces.functions, heights))
}

/// Gives a module without a fault, or else its first fault and the module.
pub fn check(alloc: Global, m: Module) -> Result<Checked, CheckRefused>
    requires { IsWellFormed m }
    ensures same { IfOk result (λ checked. checked ≡ m) }
    ensures valid { OnOk result (fault m ≡ None) }
    ensures first { IfErr result (λ refused. IsFirst refused.fault (fault m)) }
    ensures complete { fault m ≡ None → IfErr result (λ refused. refused.fault ≡ CheckFault.Memory) }
    ensures back { IfErr result (λ refused. refused.module ≡ m) }
{
    match first_fault(alloc, &m) {
        Ok((functions, heights)) => Ok(Checked {
            wasm: m,
            functions,
            heights,
        }),
        Err(fault) => Err(CheckRefused { module: m, fault }),
    }
}
