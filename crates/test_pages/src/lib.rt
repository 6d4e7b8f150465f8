//! A memory as separate pages, through its public calls.
#![tactic(auto)]

#[cfg(test)]
mod compared;
#[cfg(test)]
mod flat;

use wasm_form::{Memory, Trap};
use wasm_space::Space;

// Eight bytes lie in two pages, also as they are copied, and a fill that passes the end changes nothing.
#[test]
fn bytes_lie_in_two_pages(rt: HostRuntime) {
    let mut space = Space::new(rt.alloc(), 2, 8).expect(&rt, "memory");
    assert_eq!(rt; space.store(65_532, 0, 8, 0x0807_0605_0403_0201), Ok(()));
    assert_eq!(rt; space.load(65_535, 0, 1), Ok(4));
    assert_eq!(rt; space.load(65_536, 0, 1), Ok(5));
    assert_eq!(rt; space.copy(65_534, 65_532, 8), Ok(()));
    assert_eq!(rt; space.load(65_534, 0, 8), Ok(0x0807_0605_0403_0201));
    assert_eq!(rt; space.load(65_532, 0, 4), Ok(0x0201_0201));
    assert_eq!(rt; space.fill(131_071, 7, 2), Err(Trap::MemoryBounds));
    assert_eq!(rt; space.load(131_071, 0, 1), Ok(0));
    drop(space);
}

// A growth by 3 pages of a memory of 2 asks five times: for a list, for each page, and for room in the old list. Whichever is refused, the memory is
// as it was. The memory itself has asked three times before, for its list and its pages.
#[test]
fn growth_is_whole_or_none(rt: HostRuntime) {
    let alloc = rt.alloc();
    let Ok(mut space) = Space::new(alloc, 2, 8) else {
        return;
    };
    assert_eq!(rt; space.store(65_532, 0, 8, 0x0807_0605_0403_0201), Ok(()));
    match space.grow(alloc, 3) {
        Ok(old) => {
            assert_eq!(rt; old, 2);
            assert_eq!(rt; space.size(), 5);
            assert_eq!(rt; space.load(327_679, 0, 1), Ok(0));
            assert_eq!(rt; space.load(327_680, 0, 1), Err(Trap::MemoryBounds));
        }
        Err(Memory) => {
            assert_eq!(rt; space.size(), 2);
            assert_eq!(rt; space.load(131_072, 0, 1), Err(Trap::MemoryBounds));
            println!(rt; "refused").expect(&rt, "output");
        }
    }
    assert_eq!(rt; space.load(65_532, 0, 8), Ok(0x0807_0605_0403_0201));
    drop(space);
}
