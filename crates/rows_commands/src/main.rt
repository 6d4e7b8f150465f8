//! Performs the rows of a text: modules by their parts, files of them, commands over these with what is told of them.
//! Prints for each row whether all came as told.
#![tactic(auto)]

mod facts;
mod hosts;
mod lines;
mod orders;
mod pickers;
mod row;
mod script;
mod world;

use std::io;

/// The lines of the input.
fn lines_of(rt: &HostRuntime) -> io::Result<Vec<String>> {
    let mut lines = Vec::new(rt.alloc());
    for line in rt.lines(rt.alloc()) {
        lines.push(line?)?;
    }
    Ok(lines)
}

/// Prints a text, which is empty from then on.
fn print_all(rt: &HostRuntime, text: &mut String) -> io::Result<()> {
    if !text.is_empty() {
        print!(rt; "{text}")?;
        text.clear();
    }
    Ok(())
}

fn perform_with<'a>(
    rt: &HostRuntime,
    lines: &'a [String],
    script: &mut script::Script<'a>,
) -> io::Result<()> {
    for line in lines {
        script.take(rt.alloc(), line)?;
        print_all(rt, &mut script.printed)?;
    }
    script.end(rt.alloc())?;
    print_all(rt, &mut script.printed)
}

/// Performs the lines, and prints what came of each row as soon as it ends.
fn perform(rt: &HostRuntime, lines: &[String]) -> io::Result<()> {
    let mut script = script::Script::new(rt.alloc());
    let performed = perform_with(rt, lines, &mut script);
    drop(script);
    performed
}

fn main(rt: HostRuntime) -> io::Result<()> {
    let lines = lines_of(&rt)?;
    perform(&rt, &lines)
}
