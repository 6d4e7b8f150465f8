// How a set is linked.

/// The bytes of the stack, which are rounded up to a multiple of 16; the most pages of memory; and whether a name may be defined but once.
#[derive(Clone, Copy, Debug, PartialEq, Eq)]
pub struct LinkOptions {
    pub stack: u32,
    pub pages: u32,
    pub no_duplicates: bool,
}
