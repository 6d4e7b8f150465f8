// The names that a member notes as weak.
ghost use Rattle.std.specs.Prelude.{◌≡◌, ◌||◌, ℕ, List, map, [], bytes_eq, IfOk, OnOk};
ghost use Rattle.std.specs.List.{list_any};
ghost use Rattle.spec_loading.specs.spec_linking.Definitions as defined;
ghost use Rattle.spec_loading.specs.spec_linking.Definitions.{is_one_of};
ghost use Rattle.dyl_section.specs.Recorded.{import_note};
ghost use Rattle.dyl_search.specs.Gathers.{member_of};
ghost use Rattle.dyl_imports.specs.Weak.{is_weak_entry, AreWeakOf};

use dyl_search::Member;
use dyl_section::ImportInfo;
use indexmap::IndexSet;
use std::alloc::Global;
use std::marker::Model;
use wasm_form::{Memory, owned};

#[derive(Drop)]
pub struct WeakNames {
    names: IndexSet<String>,
}

impl Model for WeakNames {
    ghost use Rattle.std.specs.Prelude.{List, ℕ, map, string_bytes};

    ghost Value = { List (List ℕ) };

    ghost view = { λ w. map string_bytes w.names.keys };
}

// Whether a note of one of the three modules says that its field is weak.
fn is_weak_entry(note: &ImportInfo) -> bool
    ensures { result ≡ is_weak_entry (import_note note.now) }
{
    let of_module = match note.module.as_str() {
        "env" | "GOT.mem" | "GOT.func" => true,
        _ => false,
    };
    of_module && note.flags % 4 == 1
}

impl WeakNames {
    // No name is weak.
    fn new(alloc: Global) -> WeakNames
        ensures { result ≡ [] }
    {
        WeakNames {
            names: IndexSet::new(alloc),
        }
    }

    // Whether a name is weak.
    pub fn contains(&self, name: &str) -> bool
        ensures { result ≡ is_one_of name.now self.now }
    {
        self.names.contains(name)
    }

    // One name more.
    fn add(&mut self, alloc: Global, name: &str) -> Result<(), Memory>
        ensures { OnOk result ((other : List ℕ) → is_one_of other self.new ≡ (is_one_of other self.old || bytes_eq name.now other)) }
    {
        let key = owned(alloc, name)?;
        self.names.insert(key)?;
        Ok(())
    }

    fn note(&mut self, alloc: Global, note: &ImportInfo) -> Result<(), Memory>
        ensures { OnOk result ((other : List ℕ) → is_one_of other self.new ≡ (is_one_of other self.old || defined.is_weak_note other (import_note note.now))) }
    {
        if is_weak_entry(note) {
            self.add(alloc, note.field.as_str())?;
        }
        Ok(())
    }

    // The weak names of a member by its notes.
    pub fn of(alloc: Global, notes: &[ImportInfo]) -> Result<WeakNames, Memory>
        ensures { IfOk result (λ w. (name : List ℕ) → is_one_of name w ≡ list_any (defined.is_weak_note name) (map import_note notes.now)) }
    {
        let mut weak = WeakNames::new(alloc);
        for note in notes {
            weak.note(alloc, note)?;
        }
        Ok(weak)
    }
}

// The weak names of members.
pub(crate) fn weak_of(alloc: Global, members: &[Member]) -> Result<Vec<WeakNames>, Memory>
    ensures { IfOk result (λ weak. AreWeakOf (map member_of members.now) weak.items) }
{
    let mut weak = Vec::new(alloc);
    for member in members {
        let names = WeakNames::of(alloc, member.dylink.imports.items())?;
        weak.push(names)?;
    }
    Ok(weak)
}
