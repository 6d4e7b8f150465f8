// The arguments of the program, as a guest asks for them: texts, each with a zero byte after it.
ghost use Rattle.std.specs.Prelude.{◌≡◌, ◌≤◌, ◌<◌, ◌+◌, ◌*◌, ◌^◌, ◌++◌, length, IfOk, OnOk};
ghost use Rattle.spec_hosts.specs.Calls as calls;
ghost use Rattle.host_wasi.specs.Wants.{wanted_by};

use crate::access::is_in;
use crate::replies::{add_bytes, add_word};
use crate::want::{FAULT, Want, refuse, succeed};
use spec_hosts::wasm_form::{Memory, Text, Write};
use std::alloc::Global;
use wasm_space::Space;

/// What args_sizes_get wants: the number of texts and their size are written.
pub(crate) fn args_sizes_get(
    alloc: Global,
    texts: &[Text],
    memory: &Space,
    count: u32,
    size: u32,
) -> Result<Want, Memory>
    ensures { IfOk result (λ w. wanted_by w ≡ calls.sizes_wanted texts.now memory.now count size) }
{
    if !is_in(memory, count, 4) || !is_in(memory, size, 4) {
        return refuse(alloc, FAULT);
    }
    let lowest = texts_size(texts) % 0x1_0000_0000;
    let mut writes = Vec::new(alloc);
    add_word(alloc, &mut writes, count, texts.len() as u64)?;
    add_word(alloc, &mut writes, size, lowest as u64)?;
    succeed(alloc, writes)
}

/// What args_get wants: the pointers to the texts and the texts are written.
pub(crate) fn args_get(
    alloc: Global,
    texts: &[Text],
    memory: &Space,
    argv: u32,
    buf: u32,
) -> Result<Want, Memory>
    ensures { IfOk result (λ w. wanted_by w ≡ calls.texts_wanted texts.now memory.now argv buf) }
{
    let pointers = 4 * texts.len() as u128;
    if !is_in(memory, argv, pointers) || !is_in(memory, buf, texts_size(texts)) {
        return refuse(alloc, FAULT);
    }
    let mut writes = Vec::new(alloc);
    add_pointers(alloc, &mut writes, argv, buf, texts)?;
    add_texts(alloc, &mut writes, buf, texts)?;
    succeed(alloc, writes)
}

/// How many bytes texts take, with their zero bytes.
fn texts_size(texts: &[Text]) -> u128
    ensures { result ≡ calls.texts_size texts.now }
{
    let mut size = 0;
    for text in texts {
        size += text.as_str().len() as u128 + 1;
    }
    size
}

/// Adds the pointers to texts that lie one after the other.
fn add_pointers(
    alloc: Global,
    writes: &mut Vec<Write>,
    argv: u32,
    buf: u32,
    texts: &[Text],
) -> Result<(), Memory>
    requires pointers { argv + 4 * length texts.now ≤ 2 ^ 32 }
    requires bytes { buf + calls.texts_size texts.now ≤ 2 ^ 32 }
    ensures { OnOk result (writes.new.items ≡ writes.old.items ++ calls.pointers_at argv buf texts.now) }
{
    let mut at = u64::from(argv);
    let mut place = u64::from(buf);
    for text in texts {
        add_word(alloc, writes, at as u32, place)?;
        at += 4;
        place += text.as_str().len() as u64 + 1;
    }
    Ok(())
}

/// Adds texts one after the other.
fn add_texts(alloc: Global, writes: &mut Vec<Write>, buf: u32, texts: &[Text]) -> Result<(), Memory>
    requires { buf + calls.texts_size texts.now ≤ 2 ^ 32 }
    ensures { OnOk result (writes.new.items ≡ writes.old.items ++ calls.texts_at buf texts.now) }
{
    let mut place = u64::from(buf);
    for text in texts {
        let bytes = with_zero(alloc, text)?;
        add_bytes(writes, place as u32, bytes)?;
        place += text.as_str().len() as u64 + 1;
    }
    Ok(())
}

/// The bytes of a text and a zero byte.
fn with_zero(alloc: Global, text: &Text) -> Result<Vec<u8>, Memory>
    ensures { IfOk result (λ bytes. bytes.items ≡ calls.with_zero text.now) }
{
    let mut bytes = Vec::from_slice(alloc, text.as_str().as_bytes())?;
    bytes.push(0)?;
    Ok(bytes)
}
