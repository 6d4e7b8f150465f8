// Bodies (section 5.5.13).
ghost use Rattle.spec_reading.specs.spec_binary.Parts.{SpellsGroup, SpellsCode};
ghost use Rattle.spec_reading.specs.spec_binary.WellFormed.{IsFormedCode};
ghost use Rattle.wasm_encode.specs.SectionSizes.{IsTooLongBody};

use crate::fault::PartFault;
use crate::instr::put_expr;
use crate::part::{Part, put_sized, put_vec};
use std::alloc::Global;
use wasm_form::{Code, Group};
use wasm_leb::put_u32;

impl Part for Group {
    ghost writable = { λ _. Unit {0} };

    ghost spells = { SpellsGroup };

    ghost too_long = { λ _. ⊥ };

    fn put(&self, alloc: Global, to: &mut Vec<u8>) -> Result<(), PartFault> {
        put_u32(alloc, to, self.count)?;
        self.ty.put(alloc, to)
    }
}

impl Part for Code {
    ghost writable = { IsFormedCode };

    ghost spells = { SpellsCode };

    ghost too_long = { IsTooLongBody };

    fn put(&self, alloc: Global, to: &mut Vec<u8>) -> Result<(), PartFault> {
        let mut contents = Vec::new(alloc);
        put_vec(alloc, self.locals.items(), &mut contents)?;
        put_expr(alloc, &self.body, &mut contents)?;
        put_sized(alloc, &contents, to)
    }
}
