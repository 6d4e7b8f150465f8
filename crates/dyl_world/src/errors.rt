// The error of the loader.
ghost use Rattle.std.specs.Prelude.{◌≡◌, ◌≤◌};

use std::marker::Model;

/// The last error of the loader by its number, from 1 to 5, or 0 where none is set. Contracts see it as this number.
#[derive(Drop)]
pub struct Errors {
    last: u8,
}

impl Model for Errors {
    ghost use Rattle.std.specs.Prelude.{ℕ, ◌≤◌};

    ghost Value = { ℕ };

    ghost view = { λ e. e.last };

    ghost invariant = { λ e. e.last ≤ 5 };
}

impl Errors {
    /// No error is set.
    pub fn new() -> Errors
        ensures { result ≡ 0 }
    {
        Errors { last: 0 }
    }

    /// Sets an error in place of the last one.
    pub fn set(&mut self, e: u8)
        requires some { 1 ≤ e }
        requires last { e ≤ 5 }
        ensures { self.new ≡ e }
    {
        self.last = e;
    }

    /// The last error, or 0 where none is set.
    pub fn get(&self) -> u8
        ensures value { result ≡ self.now }
        ensures last { result ≤ 5 }
    {
        self.last
    }

    /// The same error, apart from this one.
    pub fn copied(&self) -> Errors
        ensures { result ≡ self.now }
    {
        Errors { last: self.last }
    }

    // The last error, which is set no longer.
    pub(crate) fn take(&mut self) -> u8
        ensures value { result ≡ self.old }
        ensures last { result ≤ 5 }
        ensures none { self.new ≡ 0 }
    {
        let e = self.last;
        self.last = 0;
        e
    }
}
