// A memory as pages beside a plain one, by calls that look random, most of them near the borders of pages.
ghost use Rattle.std.specs.Prelude.{◌<◌};
ghost use Rattle.wasm_space.specs.Access.{IsAccessLength};

use crate::flat::Flat;
use std::test::Fail;
use wasm_space::Space;

// Numbers that look random, from a first one.
#[derive(Drop)]
struct Numbers {
    state: u64,
}

impl Numbers {
    fn below(&mut self, bound: u32) -> u32
        requires { 0 < bound }
        ensures { result < bound }
    {
        let next = self.state.wrapping_mul(6_364_136_223_846_793_005);
        self.state = next.wrapping_add(1_442_695_040_888_963_407);
        (self.state >> 33) as u32 % bound
    }

    // An address not far from where a page begins: the first five follow on another, and the sixth is past the end.
    fn address(&mut self) -> u32 {
        let page = self.below(6) * 65_536;
        page + 65_516 + self.below(40)
    }

    // A few bytes, as a rule, and at times more than two pages.
    fn length(&mut self) -> u32 {
        let bound = if self.below(16) == 0 { 140_000 } else { 40 };
        self.below(bound)
    }

    fn access(&mut self) -> u8
        ensures { IsAccessLength result }
    {
        match self.below(4) {
            0 => 1,
            1 => 2,
            2 => 4,
            _ => 8,
        }
    }
}

// Whether a call on both has one answer.
fn is_alike(numbers: &mut Numbers, flat: &mut Flat, space: &mut Space) -> bool {
    let at = numbers.address();
    match numbers.below(4) {
        0 => {
            let len = numbers.access();
            let value = numbers.state;
            flat.store(at, len, value) == space.store(at, 0, len, value)
        }
        1 => {
            let from = numbers.address();
            let n = numbers.length();
            flat.copy(at, from, n) == space.copy(at, from, n)
        }
        2 => {
            let byte = numbers.below(256) as u8;
            let n = numbers.length();
            flat.fill(at, byte, n) == space.fill(at, byte, n)
        }
        _ => {
            let len = numbers.access();
            flat.load(at, len) == space.load(at, 0, len)
        }
    }
}

// How many of the first eight-byte numbers differ.
fn different(flat: &Flat, space: &Space, count: u32) -> u32 {
    let mut found: u32 = 0;
    for k in 0..count {
        let at = k.wrapping_mul(8);
        if flat.load(at, 8) != space.load(at, 0, 8) {
            found = found.saturating_add(1);
        }
    }
    found
}

// 600 calls on a memory of 3 pages, which grows to 5 midway.
#[test]
fn pages_are_as_one_list(rt: HostRuntime) -> Result<(), Fail> {
    let mut numbers = Numbers { state: 20 };
    let mut flat = Flat::new(rt.alloc(), 196_608)?;
    let mut space = Space::new(rt.alloc(), 3, 8)?;
    for k in 0..600 {
        if k == 300 {
            flat.grow(131_072)?;
            let _ = space.grow(rt.alloc(), 2)?;
        }
        assert!(rt; is_alike(&mut numbers, &mut flat, &mut space));
    }
    assert_eq!(rt; different(&flat, &space, 40_961), 0);
    Ok(())
}
