// A member is placed in a run: its active element segments, its active data segments, and its fresh slots are written.
ghost use Rattle.std.specs.Prelude.{◌≡◌, ◌<◌, ◌≤◌, length, slice_get, Some, All};
ghost use Rattle.spec_loading.specs.spec_binary.WellFormed.{IsFormedItems, IsShort};
ghost use Rattle.spec_loading.specs.spec_execution.Segments.{items_count, elem_effects, data_effects};
ghost use Rattle.spec_loading.specs.Members.{set_instances, set_view};
ghost use Rattle.wasm_form.specs.declared.instr.Expr.{Expr};
ghost use Rattle.std.specs.Prelude.{ℕ, Option};
ghost use Rattle.dyl_frames.specs.Cores.{Places};
ghost use Rattle.dyl_store.specs.Placements.{Performs, PerformsElems, PerformsDatas, PlacesSo, IsPlaceable, IsPlacement, elem_offset, data_offset, slots_put};

use crate::world::World;
use dyl_link::Linked;
use wasm_form::{Data, DataMode, Elem, ElemItems, ElemMode, Ref, Trap};

// Where the element segments and the data segments of a member go, by their numbers, and what its fresh slots hold.
#[derive(Drop)]
pub(crate) struct Placement {
    pub elems: Vec<Option<u32>>,
    pub datas: Vec<Option<u32>>,
    pub slots: Vec<Option<Ref>>,
}

// How many entries the module gives a segment.
fn count(items: &ElemItems) -> u32
    requires { IsFormedItems items.now }
    ensures { result ≡ items_count items.now }
{
    match items {
        ElemItems::Funcs(numbers) => numbers.items().len() as u32,
        ElemItems::Exprs { items, .. } => items.items().len() as u32,
    }
}

// Where a segment goes, by its number.
fn offset_at(ats: &[Option<u32>], i: u32) -> Option<u32>
    requires { i < length ats.now }
    ensures { slice_get ats.now i ≡ Some result }
{
    ats[i as usize]
}

impl<'m> World<'m> {
    // An element segment of a member, which is applied if it is active and goes somewhere.
    fn place_elem(&mut self, m: u32, e: u32, segment: &Elem, at: Option<u32>) -> Result<(), Trap>
        requires elem { e < ((set_instances self.old.linked).counts m).elems }
        requires placeable { IsPlaceable ((set_instances self.old.linked).counts m).tables segment.now }
        ensures performed { (number : Expr → Option ℕ) → at ≡ elem_offset number segment.now → Performs m (elem_effects number e segment.now) self.old result self.new }
        ensures linked { self.new.linked ≡ self.old.linked }
    {
        match &segment.mode {
            ElemMode::Active { table, .. } => match at {
                Some(at) => self.apply_elem(m, e, *table, count(&segment.items), at),
                None => Ok(()),
            },
            ElemMode::Passive | ElemMode::Declarative => Ok(()),
        }
    }

    // The element segments of a member, in order.
    pub fn place_elems(
        &mut self,
        m: u32,
        segments: &[Elem],
        ats: &[Option<u32>],
    ) -> Result<(), Trap>
        requires elems { length segments.now ≤ ((set_instances self.old.linked).counts m).elems }
        requires count { length ats.now ≡ length segments.now }
        requires few { length segments.now < 4294967296 }
        requires placeable { All (IsPlaceable ((set_instances self.old.linked).counts m).tables) segments.now }
        ensures performed { PerformsElems m segments.now ats.now self.old result self.new }
        ensures linked { self.new.linked ≡ self.old.linked }
    {
        for e in 0..segments.len() as u32 {
            let at = offset_at(ats, e);
            self.place_elem(m, e, &segments[e as usize], at)?;
        }
        Ok(())
    }

    // A data segment of a member, which is applied if it is active and goes somewhere.
    fn place_data(&mut self, m: u32, d: u32, segment: &Data, at: Option<u32>) -> Result<(), Trap>
        requires data { d < ((set_instances self.old.linked).counts m).datas }
        requires short { IsShort segment.now.bytes }
        ensures performed { (number : Expr → Option ℕ) → at ≡ data_offset number segment.now → Performs m (data_effects number d segment.now) self.old result self.new }
        ensures linked { self.new.linked ≡ self.old.linked }
    {
        match &segment.mode {
            DataMode::Active { .. } => match at {
                Some(at) => self.apply_data(m, d, segment.bytes.items().len() as u32, at),
                None => Ok(()),
            },
            DataMode::Passive => Ok(()),
        }
    }

    // The data segments of a member, in order.
    pub fn place_datas(
        &mut self,
        m: u32,
        segments: &[Data],
        ats: &[Option<u32>],
    ) -> Result<(), Trap>
        requires datas { length segments.now ≤ ((set_instances self.old.linked).counts m).datas }
        requires count { length ats.now ≡ length segments.now }
        requires few { length segments.now < 4294967296 }
        requires short { All (λ x. IsShort x.bytes) segments.now }
        ensures performed { PerformsDatas m segments.now ats.now self.old result self.new }
        ensures linked { self.new.linked ≡ self.old.linked }
    {
        for d in 0..segments.len() as u32 {
            let at = offset_at(ats, d);
            self.place_data(m, d, &segments[d as usize], at)?;
        }
        Ok(())
    }

    // References are written to the shared table, from an index on.
    fn write_slots(&mut self, at: u32, items: &[Option<Ref>]) -> Result<(), Trap>
        requires few { length items.now < 4294967296 }
        ensures written { Places (slots_put self.old at items.now) result self.new.store self.new.memory }
        ensures linked { self.new.linked ≡ self.old.linked }
    {
        self.tables[0].init(at, items, 0, items.len() as u32)
    }

    // A member: its active element segments, then its active data segments, and then its fresh slots. A trap keeps what was written.
    pub fn place(&mut self, linked: &Linked, m: u32, placement: &Placement) -> Result<(), Trap>
        requires same { set_view self.old.linked ≡ set_view linked.now }
        requires member { m < length linked.now.set.members }
        requires placement { IsPlacement linked.now m placement.now }
        ensures placed { PlacesSo linked.now m self.old result self.new }
        ensures linked { self.new.linked ≡ self.old.linked }
    {
        let wasm = linked.member(m).checked.module();
        self.place_elems(m, wasm.elems.items(), &placement.elems)?;
        self.place_datas(m, wasm.datas.items(), &placement.datas)?;
        self.write_slots(linked.first_slot(m), &placement.slots)
    }
}
