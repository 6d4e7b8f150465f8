//! The module that begins where a run of a module stands: it has the module's code, makes its steps, opens with what it holds, and is valid.
//!
//! Of the memory and of tables only some stretches are written, in active segments; whatever these are, they make up the memory and the
//! tables, so that long runs of zeros and of null entries can be left out.
#![tactic(auto)]

ghost use Rattle.snap_module.specs.Laws.{HeldEnters, HeldHasCode, HeldIsValid, HeldOpens, HeldSteps};

/// It has the types, imports, functions and bodies of the module, and makes its steps.
pub fn held_modules_step_alike()
    ensures code { HeldHasCode }
    ensures steps { HeldSteps }
{}

/// It opens with the parts and the memory that it holds, and its first step calls the entry (WebAssembly Core 2.0, section 4.5.4).
pub fn held_modules_open()
    ensures opens { HeldOpens }
    ensures enters { HeldEnters }
{}

/// It is valid, where the module is (section 3.4).
pub fn held_modules_are_valid()
    ensures { HeldIsValid }
{}
