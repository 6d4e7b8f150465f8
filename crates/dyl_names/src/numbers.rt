// Lists of numbers in which each stands once.
ghost use Rattle.std.specs.Prelude.{◌≡◌, ℕ, [], false, IfOk, OnOk, OnErr, slice_get, slice_index_or};
ghost use Rattle.spec_linking.specs.Orders.{is_among, with_number, with_numbers};

use spec_linking::wasm_form::{List, Memory};
use std::alloc::Global;
use std::marker::Model;

/// Numbers, each once, in the order in which they came. Of the small ones it is marked whether they are there, so that these are found fast.
#[derive(Drop)]
pub struct DistinctNumbers {
    list: Vec<u32>,
    marks: Vec<bool>,
}

impl Model for DistinctNumbers {
    ghost use Rattle.std.specs.Prelude.{List, ℕ};
    ghost use Rattle.dyl_names.specs.Marks.{AreMarked};

    ghost Value = { List ℕ };

    ghost view = { λ n. n.list.items };

    ghost invariant = { λ n. AreMarked n.marks.items n.list.items };
}

fn no_marks(alloc: Global, count: usize) -> Result<Vec<bool>, Memory>
    ensures { IfOk result (λ v. (k : ℕ) → slice_index_or v.items k false ≡ false) }
{
    let mut marks = Vec::new(alloc);
    for n in 0..count {
        let _n = n;
        marks.push(false)?;
    }
    Ok(marks)
}

impl DistinctNumbers {
    /// None so far. Those below `count` will be found fast; their marks take `count` bytes.
    pub fn new(alloc: Global, count: usize) -> Result<DistinctNumbers, Memory>
        ensures { IfOk result (λ n. n ≡ []) }
    {
        let marks = no_marks(alloc, count)?;
        Ok(DistinctNumbers {
            list: Vec::new(alloc),
            marks,
        })
    }

    /// Whether a number is there.
    pub fn contains(&self, n: u32) -> bool
        ensures { result ≡ is_among n self.now }
    {
        match self.marks.get(n as usize) {
            Some(mark) => *mark,
            None => self.list.contains(&n),
        }
    }

    /// The number at a place.
    pub fn get(&self, k: usize) -> Option<u32>
        ensures { result ≡ slice_get self.now k }
    {
        self.list.get(k).copied()
    }

    // Adds a number that isn't there.
    fn push(&mut self, n: u32) -> Result<(), Memory>
        requires new { is_among n self.old ≡ false }
        ensures added { OnOk result (self.new ≡ with_number self.old n) }
        ensures same { OnErr result (self.new ≡ self.old) }
    {
        self.list.push(n)?;
        if (n as usize) < self.marks.len() {
            self.marks[n as usize] = true;
        }
        Ok(())
    }

    /// Adds a number as the last one, unless it is there. At want of memory nothing is changed.
    pub fn add(&mut self, _alloc: Global, n: u32) -> Result<(), Memory>
        ensures added { OnOk result (self.new ≡ with_number self.old n) }
        ensures same { OnErr result (self.new ≡ self.old) }
    {
        if self.contains(n) {
            return Ok(());
        }
        self.push(n)
    }

    /// Adds those numbers that aren't there. `Memory` where no memory could be had.
    pub fn add_all(&mut self, alloc: Global, numbers: &[u32]) -> Result<(), Memory>
        ensures { OnOk result (self.new ≡ with_numbers self.old numbers.now) }
    {
        for n in numbers {
            self.add(alloc, *n)?;
        }
        Ok(())
    }

    /// The numbers, in the order in which they came.
    pub fn list(&self) -> &[u32]
        ensures { result.now ≡ self.now }
    {
        &self.list
    }

    /// The numbers, as a list.
    pub fn into_list(self) -> List<u32>
        ensures { result ≡ self }
    {
        List::of(self.list)
    }
}

/// Each of some numbers once, in the order in which they come first. `Memory` where no memory could be had.
pub fn distinct(alloc: Global, numbers: &[u32]) -> Result<List<u32>, Memory>
    ensures { IfOk result (λ l. l ≡ with_numbers [] numbers.now) }
{
    let mut known = DistinctNumbers::new(alloc, 256)?;
    known.add_all(alloc, numbers)?;
    Ok(known.into_list())
}
