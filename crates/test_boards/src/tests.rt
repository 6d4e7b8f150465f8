// How many programs a board takes.
ghost use Rattle.std.specs.Prelude.{◌<◌};
ghost use Rattle.spec_loading.specs.spec_linking.Gathering.{IsSet};
ghost use Rattle.dyl_link.specs.dyl_search.Gathers.{set_of};

use dyl_link::dyl_search::{ClosedSet, SetOptions, gather};
use dyl_link::host_table::HostNames;
use dyl_link::{LinkOptions, Linked, link};
use dyl_outside::MemFiles;
use dyl_store::Store;
use slice_board::{Board, BoardFault, Pick, Picker};
use std::alloc::Global;
use std::test::Fail;
use wasm_form::{List, Memory, Text};

// The smallest main module, of 53 bytes: the header, a `dylink.0` section of four zeros, the type of a function without parameters and results,
// one function of it, which is exported as `_start`, and its empty body.
const SMALLEST: [u8; 53] = [
    0x00, 0x61, 0x73, 0x6d, 0x01, 0x00, 0x00, 0x00, 0x00, 0x0f, 0x08, 0x64, 0x79, 0x6c, 0x69, 0x6e,
    0x6b, 0x2e, 0x30, 0x01, 0x04, 0x00, 0x00, 0x00, 0x00, 0x01, 0x04, 0x01, 0x60, 0x00, 0x00, 0x03,
    0x02, 0x01, 0x00, 0x07, 0x0a, 0x01, 0x06, 0x5f, 0x73, 0x74, 0x61, 0x72, 0x74, 0x00, 0x00, 0x0a,
    0x04, 0x01, 0x02, 0x00, 0x0b,
];

// The first program, whatever the turn is.
fn first(_turn: u64, count: u64) -> u64
    requires { 0 < count }
    ensures { result < count }
{
    0
}

// Adds a program of a set so often, and answers how many of them were given back, as they were, since the board was full.
fn given_back<'m>(
    alloc: Global,
    board: &mut Board<'m>,
    linked: &'m Linked,
    times: u32,
) -> Result<u32, Memory> {
    let mut back: u32 = 0;
    for _ in 0..times {
        let store = Store::load(alloc, linked)?;
        if let Err(refused) = board.add(alloc, store, 10) {
            let is_full = refused.fault == BoardFault::Full && refused.store.steps() == 0;
            drop(refused);
            if !is_full {
                return Err(Memory);
            }
            back = back.saturating_add(1);
        }
    }
    Ok(back)
}

// How many programs of a set a board takes of 66, and how many it gives back.
fn counts_of(alloc: Global, linked: &Linked) -> Result<(u32, u32), Memory> {
    let pick: Pick = Box::new(alloc, first)?;
    let picker = Picker::new(pick);
    let mut board = Board::new(alloc, &picker);
    let back = given_back(alloc, &mut board, linked, 66);
    let count = board.count();
    drop(board);
    Ok((count, back?))
}

// The same of the set that was gathered, or none where it doesn't link.
fn counts_of_set(alloc: Global, set: ClosedSet) -> Result<(u32, u32), Memory>
    requires { IsSet (set_of set) }
{
    let o = LinkOptions {
        stack: 65536,
        pages: 1024,
        no_duplicates: false,
    };
    match link(alloc, set, &o, &HostNames::new(alloc)) {
        Ok(linked) => {
            let counts = counts_of(alloc, &linked);
            drop(linked);
            counts
        }
        Err(refused) => {
            drop(refused);
            Ok((0, 0))
        }
    }
}

#[test]
fn takes_64_programs(rt: HostRuntime) -> Result<(), Fail> {
    let alloc = rt.alloc();
    let mut files = MemFiles::new(alloc);
    files.add(alloc, "main.wasm", SMALLEST.as_slice())?;
    let o = SetOptions {
        main: Text::of(String::from_str(alloc, "main.wasm")?),
        dl: List::of(Vec::new(alloc)),
        paths: List::of(Vec::new(alloc)),
    };
    let counts = match gather(alloc, &mut files, &o) {
        Ok(set) => counts_of_set(alloc, set)?,
        Err(fault) => {
            drop(fault);
            (0, 0)
        }
    };
    assert!(rt; counts == (64, 2));
    Ok(())
}
