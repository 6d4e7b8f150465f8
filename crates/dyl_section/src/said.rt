// What the subsections so far say.
ghost use Rattle.std.specs.Prelude.{◌≡◌, ℕ, ◌≤◌, length, IfOk};
ghost use Rattle.spec_reading.specs.Steps.{whole};
ghost use Rattle.spec_reading.specs.Values.{name_at, vec_at};
ghost use Rattle.wasm_read.specs.Given.{Gives};
ghost use Rattle.dyl_section.specs.Reading.{
  align_at,
  regions_at,
  field_at,
  subsection_at,
  export_info_at,
  import_info_at,
  with_regions,
  with_needed,
  with_exports,
  with_imports,
  with_paths,
  seen,
  nothing_said,
};

use crate::record::{Dylink, ExportInfo, ImportInfo};
use std::alloc::Global;
use wasm_form::{List, Text};
use wasm_read::{Break, Item, u32_of, whole_of, whole_vec_of};

// The greatest alignment, as the exponent of a power of two.
const MOST_ALIGN: u32 = 31;

// The sizes and alignments of a memory region and a table region.
#[derive(Clone, Copy)]
pub(crate) struct Regions {
    mem_size: u32,
    mem_align: u32,
    table_size: u32,
    table_align: u32,
}

// The exponent of an alignment.
#[tactic(auto, unfolding(crate::specs::Reading::align_at))]
fn align_of(bytes: &[u8]) -> Result<(u32, &[u8]), Break>
    ensures reads { Gives (λ x. (x.0, x.1.now)) result (align_at bytes.now) }
    ensures shorter { IfOk result (λ x. length x.1.now ≤ length bytes.now) }
{
    let (align, rest) = u32_of(bytes)?;
    if align > MOST_ALIGN {
        return Err(Break::Broken);
    }
    Ok((align, rest))
}

#[tactic(auto, unfolding(crate::specs::Reading::regions_at))]
fn regions_of(bytes: &[u8]) -> Result<(Regions, &[u8]), Break>
    ensures reads { Gives (λ x. (x.0, x.1.now)) result (regions_at bytes.now) }
    ensures shorter { IfOk result (λ x. length x.1.now ≤ length bytes.now) }
{
    let (mem_size, rest) = u32_of(bytes)?;
    let (mem_align, rest) = align_of(rest)?;
    let (table_size, rest) = u32_of(rest)?;
    let (table_align, rest) = align_of(rest)?;
    Ok((
        Regions {
            mem_size,
            mem_align,
            table_size,
            table_align,
        },
        rest,
    ))
}

impl Item for Regions {
    ghost at = { regions_at };

    fn read(_: Global, bytes: &[u8]) -> Result<(Regions, &[u8]), Break> {
        regions_of(bytes)
    }
}

// A record under construction.
#[derive(Drop)]
pub(crate) struct Said {
    regions: Regions,
    needed: Vec<Text>,
    exports: Vec<ExportInfo>,
    imports: Vec<ImportInfo>,
    paths: Vec<Text>,
}

impl Said {
    // Nothing.
    pub(crate) fn new(alloc: Global) -> Said
        ensures { seen result ≡ nothing_said }
    {
        Said {
            regions: Regions {
                mem_size: 0,
                mem_align: 0,
                table_size: 0,
                table_align: 0,
            },
            needed: Vec::new(alloc),
            exports: Vec::new(alloc),
            imports: Vec::new(alloc),
            paths: Vec::new(alloc),
        }
    }

    // The whole record.
    pub(crate) fn finish(self) -> Dylink
        ensures { result ≡ seen self }
    {
        Dylink {
            mem_size: self.regions.mem_size,
            mem_align: self.regions.mem_align,
            table_size: self.regions.table_size,
            table_align: self.regions.table_align,
            needed: List::of(self.needed),
            exports: List::of(self.exports),
            imports: List::of(self.imports),
            paths: List::of(self.paths),
        }
    }

    // The numbers of memory information in place of those before.
    #[tactic(auto, unfolding(crate::specs::Reading::field_at))]
    fn with_regions(mut self, alloc: Global, contents: &[u8]) -> Result<Said, Break>
        ensures { Gives seen result (field_at regions_at with_regions (seen self) contents.now) }
    {
        self.regions = whole_of(alloc, contents)?;
        Ok(self)
    }

    // More modules that are needed.
    #[tactic(auto, unfolding(crate::specs::Reading::field_at))]
    fn with_needed(mut self, alloc: Global, contents: &[u8]) -> Result<Said, Break>
        ensures { Gives seen result (field_at (vec_at name_at) with_needed (seen self) contents.now) }
    {
        let mut names = whole_vec_of(alloc, contents)?;
        self.needed.append(&mut names)?;
        Ok(self)
    }

    // More notes on exports.
    #[tactic(auto, unfolding(crate::specs::Reading::field_at))]
    fn with_exports(mut self, alloc: Global, contents: &[u8]) -> Result<Said, Break>
        ensures { Gives seen result (field_at (vec_at export_info_at) with_exports (seen self) contents.now) }
    {
        let mut notes = whole_vec_of(alloc, contents)?;
        self.exports.append(&mut notes)?;
        Ok(self)
    }

    // More notes on imports.
    #[tactic(auto, unfolding(crate::specs::Reading::field_at))]
    fn with_imports(mut self, alloc: Global, contents: &[u8]) -> Result<Said, Break>
        ensures { Gives seen result (field_at (vec_at import_info_at) with_imports (seen self) contents.now) }
    {
        let mut notes = whole_vec_of(alloc, contents)?;
        self.imports.append(&mut notes)?;
        Ok(self)
    }

    // More paths.
    #[tactic(auto, unfolding(crate::specs::Reading::field_at))]
    fn with_paths(mut self, alloc: Global, contents: &[u8]) -> Result<Said, Break>
        ensures { Gives seen result (field_at (vec_at name_at) with_paths (seen self) contents.now) }
    {
        let mut paths = whole_vec_of(alloc, contents)?;
        self.paths.append(&mut paths)?;
        Ok(self)
    }

    // What the subsection with this code says besides; other codes are passed over.
    #[tactic(auto, unfolding(crate::specs::Reading::subsection_at))]
    pub(crate) fn with_subsection(
        self,
        alloc: Global,
        code: u8,
        contents: &[u8],
    ) -> Result<Said, Break>
        ensures { Gives seen result (subsection_at (seen self) code contents.now) }
    {
        match code {
            1 => self.with_regions(alloc, contents),
            2 => self.with_needed(alloc, contents),
            3 => self.with_exports(alloc, contents),
            4 => self.with_imports(alloc, contents),
            5 => self.with_paths(alloc, contents),
            _ => Ok(self),
        }
    }
}
