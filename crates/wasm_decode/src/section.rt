// Sections one after the other (WebAssembly Core 2.0, sections 5.5.2 to 5.5.15).
ghost use Rattle.std.specs.Prelude.{◌≡◌, ℕ, ◌≤◌, ◌<◌, length, IfOk};
ghost use Rattle.spec_reading.specs.spec_binary.Sections as said;
ghost use Rattle.spec_reading.specs.Values.{number_at, vec_at};
ghost use Rattle.spec_reading.specs.Types.{func_type_at, table_type_at, limits_at};
ghost use Rattle.spec_reading.specs.Parts.{import_at, global_at, export_at, elem_at, data_at};
ghost use Rattle.spec_reading.specs.Bodies.{usual_room};
ghost use Rattle.spec_reading.specs.Sections.{field_at, custom_at, code_section_at, contents_at, section_at, chain_at};
ghost use Rattle.wasm_decode.specs.Given.{Tells};
ghost use Rattle.wasm_decode.specs.Sections.{progress_of};

use crate::body::codes_of;
use crate::fault::fault_in_section;
use spec_reading::spec_binary::DecodeFault;
use std::alloc::Global;
use wasm_form::{
    Custom, Data, Elem, Export, FuncType, GlobalDef, Import, Limits, List, Module, TableType,
};
use wasm_read::{Item, contents_of, name_of, whole_of};

// What the sections so far say: the fields that they write but for the custom sections, these, the rank of the last
// section that isn't custom, and the greatest rank of one that isn't empty.
#[derive(Drop)]
pub(crate) struct Progress {
    fields: Module,
    customs: Vec<Custom>,
    last: u8,
    rank: u8,
}

// The greatest rank of a section that isn't empty, after one of this rank.
fn rank_with<T>(before: u8, rank: u8, items: &[T]) -> u8
    ensures { result ≡ said.rank_with before rank items.now }
{
    if items.is_empty() { before } else { rank }
}

impl Progress {
    // What is said before the first section.
    fn new(alloc: Global) -> Progress
        ensures { progress_of result ≡ said.at_start }
    {
        Progress {
            fields: Module {
                types: List::of(Vec::new(alloc)),
                imports: List::of(Vec::new(alloc)),
                funcs: List::of(Vec::new(alloc)),
                tables: List::of(Vec::new(alloc)),
                memories: List::of(Vec::new(alloc)),
                globals: List::of(Vec::new(alloc)),
                exports: List::of(Vec::new(alloc)),
                start: None,
                elems: List::of(Vec::new(alloc)),
                data_count: None,
                codes: List::of(Vec::new(alloc)),
                datas: List::of(Vec::new(alloc)),
                customs: List::of(Vec::new(alloc)),
            },
            customs: Vec::new(alloc),
            last: 0,
            rank: 0,
        }
    }

    // The module that the sections spell.
    pub(crate) fn module(self) -> Module
        ensures { result ≡ (progress_of self).fields }
    {
        Module {
            customs: List::of(self.customs),
            ..self.fields
        }
    }

    // What takes all of the contents of a section of this rank.
    #[tactic(auto, unfolding(spec_reading::specs::Sections::field_at))]
    fn field_of<T: Item>(
        &self,
        alloc: Global,
        rank: u8,
        contents: &[u8],
        section: u32,
    ) -> Result<T, DecodeFault>
        ensures { (put : said.Progress → T → said.Progress) → Tells (λ x. put (progress_of self.now) x) result (field_at T.at put rank section (progress_of self.now) contents.now) }
    {
        if self.last >= rank {
            return Err(DecodeFault::Malformed { section });
        }
        match whole_of(alloc, contents) {
            Ok(x) => Ok(x),
            Err(why) => Err(fault_in_section(why, section)),
        }
    }

    // The contents of a custom section: a name, and the bytes behind it.
    #[tactic(auto, unfolding(spec_reading::specs::Sections::custom_at))]
    fn read_custom(
        &mut self,
        alloc: Global,
        contents: &[u8],
        section: u32,
    ) -> Result<(), DecodeFault>
        ensures { Tells (λ x. progress_of self.new) result (custom_at section (progress_of self.old) contents.now) }
    {
        let (name, rest) = match name_of(alloc, contents) {
            Ok(read) => read,
            Err(why) => return Err(fault_in_section(why, section)),
        };
        let bytes = List::of(rest.to_vec(alloc)?);
        self.customs.push(Custom {
            rank: self.rank,
            name,
            bytes,
        })?;
        Ok(())
    }

    fn read_types(
        &mut self,
        alloc: Global,
        contents: &[u8],
        section: u32,
    ) -> Result<(), DecodeFault>
        ensures { Tells (λ x. progress_of self.new) result (field_at (vec_at func_type_at) said.with_types 1 section (progress_of self.old) contents.now) }
    {
        let types: List<FuncType> = self.field_of(alloc, 1, contents, section)?;
        self.last = 1;
        self.rank = rank_with(self.rank, 1, types.items());
        self.fields.types = types;
        Ok(())
    }

    fn read_imports(
        &mut self,
        alloc: Global,
        contents: &[u8],
        section: u32,
    ) -> Result<(), DecodeFault>
        ensures { Tells (λ x. progress_of self.new) result (field_at (vec_at import_at) said.with_imports 2 section (progress_of self.old) contents.now) }
    {
        let imports: List<Import> = self.field_of(alloc, 2, contents, section)?;
        self.last = 2;
        self.rank = rank_with(self.rank, 2, imports.items());
        self.fields.imports = imports;
        Ok(())
    }

    fn read_funcs(
        &mut self,
        alloc: Global,
        contents: &[u8],
        section: u32,
    ) -> Result<(), DecodeFault>
        ensures { Tells (λ x. progress_of self.new) result (field_at (vec_at (number_at 32)) said.with_funcs 3 section (progress_of self.old) contents.now) }
    {
        let funcs: List<u32> = self.field_of(alloc, 3, contents, section)?;
        self.last = 3;
        self.rank = rank_with(self.rank, 3, funcs.items());
        self.fields.funcs = funcs;
        Ok(())
    }

    fn read_tables(
        &mut self,
        alloc: Global,
        contents: &[u8],
        section: u32,
    ) -> Result<(), DecodeFault>
        ensures { Tells (λ x. progress_of self.new) result (field_at (vec_at table_type_at) said.with_tables 4 section (progress_of self.old) contents.now) }
    {
        let tables: List<TableType> = self.field_of(alloc, 4, contents, section)?;
        self.last = 4;
        self.rank = rank_with(self.rank, 4, tables.items());
        self.fields.tables = tables;
        Ok(())
    }

    fn read_memories(
        &mut self,
        alloc: Global,
        contents: &[u8],
        section: u32,
    ) -> Result<(), DecodeFault>
        ensures { Tells (λ x. progress_of self.new) result (field_at (vec_at limits_at) said.with_memories 5 section (progress_of self.old) contents.now) }
    {
        let memories: List<Limits> = self.field_of(alloc, 5, contents, section)?;
        self.last = 5;
        self.rank = rank_with(self.rank, 5, memories.items());
        self.fields.memories = memories;
        Ok(())
    }

    fn read_globals(
        &mut self,
        alloc: Global,
        contents: &[u8],
        section: u32,
    ) -> Result<(), DecodeFault>
        ensures { Tells (λ x. progress_of self.new) result (field_at (vec_at global_at) said.with_globals 6 section (progress_of self.old) contents.now) }
    {
        let globals: List<GlobalDef> = self.field_of(alloc, 6, contents, section)?;
        self.last = 6;
        self.rank = rank_with(self.rank, 6, globals.items());
        self.fields.globals = globals;
        Ok(())
    }

    fn read_exports(
        &mut self,
        alloc: Global,
        contents: &[u8],
        section: u32,
    ) -> Result<(), DecodeFault>
        ensures { Tells (λ x. progress_of self.new) result (field_at (vec_at export_at) said.with_exports 7 section (progress_of self.old) contents.now) }
    {
        let exports: List<Export> = self.field_of(alloc, 7, contents, section)?;
        self.last = 7;
        self.rank = rank_with(self.rank, 7, exports.items());
        self.fields.exports = exports;
        Ok(())
    }

    fn read_elems(
        &mut self,
        alloc: Global,
        contents: &[u8],
        section: u32,
    ) -> Result<(), DecodeFault>
        ensures { Tells (λ x. progress_of self.new) result (field_at (vec_at elem_at) said.with_elems 9 section (progress_of self.old) contents.now) }
    {
        let elems: List<Elem> = self.field_of(alloc, 9, contents, section)?;
        self.last = 9;
        self.rank = rank_with(self.rank, 9, elems.items());
        self.fields.elems = elems;
        Ok(())
    }

    fn read_datas(
        &mut self,
        alloc: Global,
        contents: &[u8],
        section: u32,
    ) -> Result<(), DecodeFault>
        ensures { Tells (λ x. progress_of self.new) result (field_at (vec_at data_at) said.with_datas 12 section (progress_of self.old) contents.now) }
    {
        let datas: List<Data> = self.field_of(alloc, 12, contents, section)?;
        self.last = 12;
        self.rank = rank_with(self.rank, 12, datas.items());
        self.fields.datas = datas;
        Ok(())
    }

    fn read_start(
        &mut self,
        alloc: Global,
        contents: &[u8],
        section: u32,
    ) -> Result<(), DecodeFault>
        ensures { Tells (λ x. progress_of self.new) result (field_at (number_at 32) said.with_start 8 section (progress_of self.old) contents.now) }
    {
        let number: u32 = self.field_of(alloc, 8, contents, section)?;
        self.last = 8;
        self.fields.start = Some(number);
        Ok(())
    }

    fn read_data_count(
        &mut self,
        alloc: Global,
        contents: &[u8],
        section: u32,
    ) -> Result<(), DecodeFault>
        ensures { Tells (λ x. progress_of self.new) result (field_at (number_at 32) said.with_data_count 10 section (progress_of self.old) contents.now) }
    {
        let number: u32 = self.field_of(alloc, 10, contents, section)?;
        self.last = 10;
        self.fields.data_count = Some(number);
        Ok(())
    }

    #[tactic(auto, unfolding(spec_reading::specs::Sections::code_section_at))]
    fn read_codes(
        &mut self,
        alloc: Global,
        contents: &[u8],
        section: u32,
    ) -> Result<(), DecodeFault>
        ensures { Tells (λ x. progress_of self.new) result (code_section_at usual_room section (progress_of self.old) contents.now) }
    {
        if self.last >= 11 {
            return Err(DecodeFault::Malformed { section });
        }
        let codes = codes_of(alloc, contents, section)?;
        self.last = 11;
        self.rank = rank_with(self.rank, 11, codes.items());
        self.fields.codes = codes;
        Ok(())
    }

    // The contents of the section with this number.
    #[tactic(auto, unfolding(spec_reading::specs::Sections::contents_at))]
    fn read_contents(
        &mut self,
        alloc: Global,
        id: u8,
        contents: &[u8],
        section: u32,
    ) -> Result<(), DecodeFault>
        ensures { Tells (λ x. progress_of self.new) result (contents_at usual_room section (progress_of self.old) id contents.now) }
    {
        match id {
            0 => self.read_custom(alloc, contents, section),
            1 => self.read_types(alloc, contents, section),
            2 => self.read_imports(alloc, contents, section),
            3 => self.read_funcs(alloc, contents, section),
            4 => self.read_tables(alloc, contents, section),
            5 => self.read_memories(alloc, contents, section),
            6 => self.read_globals(alloc, contents, section),
            7 => self.read_exports(alloc, contents, section),
            8 => self.read_start(alloc, contents, section),
            9 => self.read_elems(alloc, contents, section),
            10 => self.read_codes(alloc, contents, section),
            11 => self.read_datas(alloc, contents, section),
            12 => self.read_data_count(alloc, contents, section),
            _ => Err(DecodeFault::Malformed { section }),
        }
    }

    // The section at the front of the bytes, behind so many. It gives the bytes that follow.
    #[tactic(auto, unfolding(spec_reading::specs::Sections::section_at))]
    fn read_section<'a>(
        &mut self,
        alloc: Global,
        bytes: &'a [u8],
        section: u32,
    ) -> Result<&'a [u8], DecodeFault>
        ensures reads { Tells (λ rest. (progress_of self.new, rest.now)) result (section_at usual_room section (progress_of self.old) bytes.now) }
        ensures shorter { IfOk result (λ rest. length rest.now < length bytes.now) }
    {
        let [id, after @ ..] = bytes else {
            return Err(DecodeFault::Malformed { section });
        };
        let (contents, rest) = match contents_of(after) {
            Ok(read) => read,
            Err(why) => return Err(fault_in_section(why, section)),
        };
        self.read_contents(alloc, *id, contents, section)?;
        Ok(rest)
    }
}

// The sections up to the end of the bytes, behind nothing.
fn read_sections(progress: &mut Progress, alloc: Global, bytes: &[u8]) -> Result<(), DecodeFault>
    requires { progress_of progress.old ≡ said.at_start }
    ensures { (fuel : ℕ) → length bytes.now ≤ fuel → Tells (λ _. progress_of progress.new) result (chain_at usual_room fuel 0 said.at_start bytes.now) }
{
    let mut rest = bytes;
    let mut count = 0u32;
    while !rest.is_empty() {
        rest = progress.read_section(alloc, rest, count)?;
        count = count.saturating_add(1);
    }
    Ok(())
}

// The sections up to the end of the bytes.
pub(crate) fn sections_of(alloc: Global, bytes: &[u8]) -> Result<Progress, DecodeFault>
    ensures { (fuel : ℕ) → length bytes.now ≤ fuel → Tells (λ x. progress_of x) result (chain_at usual_room fuel 0 said.at_start bytes.now) }
{
    let mut progress = Progress::new(alloc);
    match read_sections(&mut progress, alloc, bytes) {
        Ok(()) => Ok(progress),
        Err(fault) => {
            drop(progress);
            Err(fault)
        }
    }
}
