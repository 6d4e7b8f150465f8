// Random words of a file, which is read in blocks.
ghost use Rattle.std.specs.Prelude.{◌≡◌, ◌+◌, ◌*◌, ◌<◌, ◌≤◌, ◌++◌, length, take, drop, IfOk, OnOk};
ghost use Rattle.std.specs.Int.{w64, from_le_bytes};
ghost use Rattle.std.specs.Option.{ForSome};
ghost use Rattle.std.specs.Io.KnownBytes.{Consumes};
ghost use Rattle.dyl_outside.specs.Adapters.{IsWord};

use crate::IoFault;
use crate::fault::system_fault;
use crate::room::room;
use std::alloc::Global;
use std::io::Read;
use wasm_form::Memory;

/// How many words a block has, of eight bytes each.
const WORDS: usize = 512;

/// A file of random bytes with the block that was read of it last, of which so many words were given.
#[derive(Drop)]
pub(crate) struct RandomFile<F> {
    file: F,
    block: Vec<u8>,
    given: usize,
    ghost size: { length block.items ≡ 4096 },
    ghost few: { given ≤ 512 },
}

impl<F: Read + Drop> RandomFile<F> {
    /// The words of a file, of which no block was read yet.
    pub fn new(alloc: Global, file: F) -> Result<RandomFile<F>, Memory>
        ensures file { IfOk result (λ r. r.file ≡ file) }
        ensures given { IfOk result (λ r. r.given ≡ 512) }
    {
        let block = room(alloc, 8 * WORDS)?;
        Ok(RandomFile {
            file,
            block,
            given: WORDS,
        })
    }

    /// The next word, the least of its bytes first.
    pub fn word(&mut self) -> Result<u64, IoFault>
        ensures { ForSome (F.remaining self.old.file) (λ left. IfOk result (IsWord (drop (8 * self.old.given) self.old.block.items ++ left))) }
    {
        if self.given < WORDS {
            return Ok(self.give());
        }
        fill(&mut self.file, &mut self.block)?;
        self.given = 0;
        Ok(self.give())
    }

    /// The next word of the block.
    fn give(&mut self) -> u64
        requires { self.old.given < 512 }
        ensures { result ≡ from_le_bytes w64 (take 8 (drop (8 * self.old.given) self.old.block.items)) }
    {
        let word = word_at(&self.block, 8 * self.given);
        self.given += 1;
        word
    }
}

/// Reads the next block.
fn fill<F: Read>(file: &mut F, block: &mut [u8]) -> Result<(), IoFault>
    ensures { OnOk result (Consumes (F.remaining file.old) (F.remaining file.new) block.new) }
{
    match file.read_exact(block) {
        Ok(()) => Ok(()),
        Err(error) => Err(system_fault(&error)),
    }
}

/// The eight bytes at a place as a word, the least first.
fn word_at(block: &[u8], at: usize) -> u64
    requires { at + 8 ≤ length block.now }
    ensures { result ≡ from_le_bytes w64 (take 8 (drop at block.now)) }
{
    let mut bytes = [0; 8];
    bytes.copy_from_slice(&block[at..at + 8]);
    u64::from_le_bytes(bytes)
}
