// What members ask for.
ghost use Rattle.std.specs.Prelude.{◌≡◌};
ghost use Rattle.dyl_plan.specs.Regions.{region_of, size_in, align_in};

/// The sizes of a member's regions, in bytes of memory and in table entries, each with its alignment as the exponent of a power of two.
#[derive(Clone, Copy, Debug, PartialEq, Eq)]
pub struct Region {
    pub mem_size: u32,
    pub mem_align: u32,
    pub table_size: u32,
    pub table_align: u32,
}

/// The bytes of the stack, a multiple of 16; the least and the greatest number of pages of memory; and the least and the greatest number of
/// table entries.
#[derive(Clone, Copy, Debug, PartialEq, Eq)]
pub struct Sizes {
    pub stack: u32,
    pub pages_min: u32,
    pub pages_max: u32,
    pub table_min: u32,
    pub table_max: u32,
}

// In which space regions lie.
#[derive(Clone, Copy)]
pub(crate) enum Space {
    Memory,
    Table,
}

impl Region {
    pub(crate) fn size(&self, space: Space) -> u32
        ensures { result ≡ size_in space (region_of self.now) }
    {
        match space {
            Space::Memory => self.mem_size,
            Space::Table => self.table_size,
        }
    }

    pub(crate) fn align(&self, space: Space) -> u32
        ensures { result ≡ align_in space (region_of self.now) }
    {
        match space {
            Space::Memory => self.mem_align,
            Space::Table => self.table_align,
        }
    }
}
