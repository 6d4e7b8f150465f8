// Values as the format spells them, and how many bytes are left behind them.
use std::alloc::{AllocError, Global};
use std::fmt::Display;
use wasm_form::List;
use wasm_read::{
    Break, bits_of_eight, bits_of_four, byte_of, contents_of, name_of, s32_of, s33_of, s64_of,
    u32_of, whole_of, whole_vec_of,
};

fn left<T: Display + Drop>(
    alloc: Global,
    read: Result<(T, &[u8]), Break>,
) -> Result<String, AllocError> {
    match read {
        Ok((value, rest)) => format!(in alloc; "{value} and {} left", rest.len()),
        Err(_) => String::from_str(alloc, "none"),
    }
}

fn counted<T: Drop>(alloc: Global, read: Result<Vec<T>, Break>) -> Result<String, AllocError> {
    match read {
        Ok(values) => format!(in alloc; "{} values", values.len()),
        Err(_) => String::from_str(alloc, "none"),
    }
}

fn lists(alloc: Global, bytes: &[u8]) -> Result<String, AllocError> {
    match whole_of::<List<List<u32>>>(alloc, bytes) {
        Ok(values) => format!(in alloc; "{} values", values.items().len()),
        Err(_) => String::from_str(alloc, "none"),
    }
}

// What is read of a name, of contents behind their size, or of the byte 07.
fn part(alloc: Global, verb: &str, bytes: &[u8]) -> Result<String, AllocError> {
    match verb {
        "name_of" => match name_of(alloc, bytes) {
            Ok((name, rest)) => format!(in alloc; "{} and {} left", name.as_str(), rest.len()),
            Err(_) => String::from_str(alloc, "none"),
        },
        "contents_of" => match contents_of(bytes) {
            Ok((contents, rest)) => left(alloc, Ok((contents.len(), rest))),
            Err(why) => left::<usize>(alloc, Err(why)),
        },
        "byte_of" => match byte_of(7, bytes) {
            Ok(rest) => left(alloc, Ok((7, rest))),
            Err(why) => left::<usize>(alloc, Err(why)),
        },
        _ => String::from_str(alloc, "nothing that is done"),
    }
}

/// What a reader says of bytes.
pub fn answer(alloc: Global, verb: &str, bytes: &[u8]) -> Result<String, AllocError> {
    match verb {
        "u32_of" => left(alloc, u32_of(bytes)),
        "s32_of" => left(alloc, s32_of(bytes)),
        "s33_of" => left(alloc, s33_of(bytes)),
        "s64_of" => left(alloc, s64_of(bytes)),
        "bits_of_four" => left(alloc, bits_of_four(bytes)),
        "bits_of_eight" => left(alloc, bits_of_eight(bytes)),
        "whole_vec_of" => counted(alloc, whole_vec_of::<u32>(alloc, bytes)),
        "whole_of" => lists(alloc, bytes),
        _ => part(alloc, verb, bytes),
    }
}
