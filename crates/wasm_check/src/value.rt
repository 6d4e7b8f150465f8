// The values of constant expressions (section 3.3.10).

/// The value of a constant expression: a number by its bits, or a function by its index, if any.
#[derive(Clone, Copy, Debug, PartialEq, Eq)]
pub enum Constant {
    Num(u64),
    Func(Option<u32>),
}

/// What is known of the imported globals, in order: the number of each, or the bases that some of them are.
#[derive(Clone, Copy)]
pub enum Known<'a> {
    Numbers(&'a [u64]),
    Bases(&'a [Option<u32>]),
}
