// Names in memory.
ghost use Rattle.std.specs.Prelude.{◌≡◌, ◌≤◌, ◌<◌, ◌+◌, ◌^◌, length, take, drop, map, Some, None, MatchOption, IfSome};
ghost use Rattle.std.specs.Str.{bytes_eq};
ghost use Rattle.spec_loading.specs.spec_runtime.Numerics.{W32};
ghost use Rattle.spec_loading.specs.spec_execution.Values.{low};
ghost use Rattle.spec_loading.specs.LoaderAnswers.{before_zero, string_at};

use std::marker::Model;
use wasm_space::Space;

/// The bytes of a page (WebAssembly Core 2.0, section 4.2.8).
const PAGE: usize = 65_536;

/// A name that stands in memory, in one page or in several. Contracts see it as its bytes.
#[derive(Drop)]
pub(crate) struct Name<'m> {
    memory: &'m Space,
    at: usize,
    size: usize,
}

impl<'m> Model for Name<'m> {
    ghost use Rattle.std.specs.Prelude.{ℕ, List, ◌≤◌, ◌+◌, length, take, drop};

    ghost Value = { List ℕ };

    ghost view = { λ n. take n.size (drop n.at n.memory.now.bytes) };

    ghost invariant = { λ n. (n.at + n.size ≤ length n.memory.now.bytes) × (n.at + n.size ≤ 4294967296) };
}

// The bytes before the first zero byte, if there is one.
#[tactic(auto, using(crate::proofs::ZeroBytes::first_zero, crate::proofs::ZeroBytes::no_zero))]
fn before_zero(bytes: &[u8]) -> Option<&[u8]>
    ensures { MatchOption result (before_zero bytes.now ≡ None) (λ s. before_zero bytes.now ≡ Some s.now) }
{
    for (i, b) in bytes.iter().enumerate() {
        if *b == 0 {
            return Some(&bytes[..i]);
        }
    }
    None
}

// Bytes are as code loads them.
#[tactic(auto, using(crate::proofs::ZeroBytes::loaded_bytes))]
fn are_loaded(bytes: &[u8])
    ensures { map (low W32) bytes.now ≡ bytes.now }
{}

// How many bytes stand at an address before a zero byte; none where no zero byte follows inside the memory.
fn size_at(memory: &Space, at: usize) -> Option<usize>
    ensures value { MatchOption result (string_at memory.now at ≡ None) (λ n. string_at memory.now at ≡ Some (take n (drop at memory.now.bytes))) }
    ensures within { IfSome result (λ n. at + n ≤ length memory.now.bytes) }
    ensures most { IfSome result (λ n. at + n ≤ 2 ^ 32) }
{
    let end = memory.size() as usize * PAGE;
    let mut place = at;
    while place < end {
        let rest = memory.rest_of_page(place);
        are_loaded(rest);
        match before_zero(rest) {
            Some(last) => return Some(place - at + last.len()),
            None => place += rest.len(),
        }
    }
    None
}

// The name at an address; none where no zero byte follows inside the memory.
pub(crate) fn name_at(memory: &Space, at: u32) -> Option<Name<'_>>
    ensures { MatchOption result (string_at memory.now at ≡ None) (λ n. string_at memory.now at ≡ Some n) }
{
    let at = at as usize;
    match size_at(memory, at) {
        Some(size) => Some(Name { memory, at, size }),
        None => None,
    }
}

// Whether these bytes stand at an address.
fn stand_at(memory: &Space, at: usize, bytes: &[u8]) -> bool
    requires within { at + length bytes.now ≤ length memory.now.bytes }
    requires most { at + length bytes.now ≤ 2 ^ 32 }
    ensures { result ≡ bytes_eq (take (length bytes.now) (drop at memory.now.bytes)) bytes.now }
{
    let mut done = 0;
    while done < bytes.len() {
        let rest = memory.rest_of_page(at + done);
        let n = rest.len().min(bytes.len() - done);
        if rest[..n] != bytes[done..done + n] {
            return false;
        }
        done += n;
    }
    true
}

impl<'m> Name<'m> {
    /// Whether these are its bytes.
    pub fn is(&self, bytes: &[u8]) -> bool
        ensures { result ≡ bytes_eq self.now bytes.now }
    {
        bytes.len() == self.size && stand_at(self.memory, self.at, bytes)
    }

    /// Its bytes, where they lie in one page.
    pub fn in_one_page(&self) -> Option<&[u8]>
        ensures { IfSome result (λ bytes. bytes.now ≡ self.now) }
    {
        let rest = self.memory.rest_of_page(self.at);
        if self.size > rest.len() {
            return None;
        }
        Some(&rest[..self.size])
    }
}
