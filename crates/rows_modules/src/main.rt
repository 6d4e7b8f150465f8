//! Performs rows of text over the parts that read, check, write and compute, and says of each whether it came as told.
//!
//! The text comes from the standard input; its head says how it is written.
#![tactic(auto)]

mod code;
mod file;
mod module;
mod number;
mod record;
mod row;
mod value;

use row::{judged, row_of};
use rows_texts::Words;
use std::io;

// The words that lines of the text name. A line that can't be read is printed.
fn words_in<'a>(rt: &HostRuntime, text: &'a str) -> io::Result<Words<'a>> {
    let mut words = Words::new(rt.alloc());
    for line in text.lines() {
        if let Some(rest) = line.strip_prefix("word ") {
            if words.add(rt.alloc(), rest).is_err() {
                println!(rt; "{line} not performed")?;
            }
        }
    }
    Ok(words)
}

// Performs the rows, and prints a line of each.
fn perform(rt: &HostRuntime, words: &Words, rows: &str) -> io::Result<()> {
    let mut count = 0u32;
    let mut wrong = 0u32;
    for row in rows.split("\nrow ") {
        let (is_told, line) = judged(rt.alloc(), words, &row_of(row))?;
        println!(rt; "{line}")?;
        count = count.saturating_add(1);
        wrong = wrong.saturating_add(u32::from(!is_told));
    }
    println!(rt; "{count} rows, {wrong} not as told")
}

fn main(rt: HostRuntime) -> io::Result<()> {
    let text = io::read_to_string(rt.alloc(), rt.stdin())?;
    let words = words_in(&rt, text.as_str())?;
    let (_, rows) = text.as_str().split_once("\nrow ").unwrap_or(("", ""));
    let performed = perform(&rt, &words, rows);
    drop(words);
    performed
}
