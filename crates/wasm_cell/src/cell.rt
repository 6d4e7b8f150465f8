// A value in 16 bytes, whose number or reference is read without a test where its kind is known.
ghost use Rattle.std.specs.Prelude.{◌≡◌, true, false};
ghost use Rattle.wasm_cell.specs.Cells.{is_number};

use std::marker::Model;
use wasm_form::{LoaderCall, Ref, Value};

/// A number by its bits; or a reference by the number of its kind, with the unit and the number of a function. Contracts see it as a
/// `Value`.
#[derive(Clone, Copy)]
pub struct Cell {
    bits: u64,
    kind: u32,
    unit: u32,
}

impl Model for Cell {
    ghost use Rattle.wasm_form.specs.declared.runtime.Value as values;

    ghost Value = { values.Value };

    ghost use Rattle.wasm_cell.specs.Cells.{value_of, fields_of, IsCell};

    ghost view = { value_of };

    ghost invariant = { IsCell };

    ghost inverse = { fields_of };

    ghost inverse_ok = { λ c h. h.inverse };
}

impl Cell {
    /// The cell of a number.
    #[inline(always)]
    pub fn number(n: u64) -> Cell
        ensures { result ≡ Value.Num n }
    {
        Cell {
            bits: n,
            kind: 0,
            unit: 0,
        }
    }

    /// The cell of a reference to a function, or of null.
    #[inline(always)]
    pub fn reference(r: Option<Ref>) -> Cell
        ensures { result ≡ Value.Func r }
    {
        let (kind, unit, n) = match r {
            None => (1, 0, 0),
            Some(Ref::Own { unit, func }) => (2, unit, func),
            Some(Ref::Stub { unit, func }) => (3, unit, func),
            Some(Ref::Host(entry)) => (4, 0, entry),
            Some(Ref::Loader(LoaderCall::Dlopen)) => (5, 0, 0),
            Some(Ref::Loader(LoaderCall::Dlsym)) => (6, 0, 0),
            Some(Ref::Loader(LoaderCall::Dlclose)) => (7, 0, 0),
            Some(Ref::Loader(LoaderCall::Dlerror)) => (8, 0, 0),
        };
        Cell {
            bits: u64::from(n),
            kind,
            unit,
        }
    }

    /// The cell of a value.
    #[inline(always)]
    pub fn of(v: Value) -> Cell
        ensures { result ≡ v }
    {
        match v {
            Value::Num(n) => Cell::number(n),
            Value::Func(r) => Cell::reference(r),
        }
    }

    /// The same value, read field by field: so it lies in registers.
    #[inline(always)]
    pub fn read(&self) -> Cell
        ensures { result ≡ self.now }
    {
        Cell {
            bits: self.bits,
            kind: self.kind,
            unit: self.unit,
        }
    }

    /// The value in it.
    #[inline(always)]
    pub fn value(self) -> Value
        ensures { result ≡ self }
    {
        if self.kind == 0 {
            Value::Num(self.bits)
        } else {
            Value::Func(self.func())
        }
    }

    /// The bits of a number.
    #[inline(always)]
    pub fn bits(self) -> u64
        requires { is_number self ≡ true }
        ensures { self ≡ Value.Num result }
    {
        self.bits
    }

    /// Puts another number in place of a number.
    #[inline(always)]
    pub fn set_bits(&mut self, n: u64)
        requires { is_number self.old ≡ true }
        ensures { self.new ≡ Value.Num n }
    {
        self.bits = n;
    }

    /// The function of a reference, or null.
    #[inline(always)]
    pub fn func(self) -> Option<Ref>
        requires { is_number self ≡ false }
        ensures { self ≡ Value.Func result }
    {
        let func = self.bits as u32;
        match self.kind {
            1 => None,
            2 => Some(Ref::Own {
                unit: self.unit,
                func,
            }),
            3 => Some(Ref::Stub {
                unit: self.unit,
                func,
            }),
            4 => Some(Ref::Host(func)),
            5 => Some(Ref::Loader(LoaderCall::Dlopen)),
            6 => Some(Ref::Loader(LoaderCall::Dlsym)),
            7 => Some(Ref::Loader(LoaderCall::Dlclose)),
            _ => Some(Ref::Loader(LoaderCall::Dlerror)),
        }
    }
}
