// Commands over what stands in memory.
use crate::facts::Facts;
use crate::hosts::{perform_doubling, perform_knocking};
use crate::row::{Device, Row};
use dyl_app::{Outcome, Picker, Ran, RunEnd, serve, status};
use dyl_gen::make;
use dyl_outside::{
    Ambient, FileFault, Files, IoFault, MemAmbient, MemFiles, MemSink, MemSource, Sink, Source,
};
use host_table::HostTable;
use spec_binary::wasm_form::Memory;
use std::alloc::{AllocError, Global};

/// All that a command is over but its host functions.
#[derive(Drop)]
struct World {
    files: MemFiles,
    input: MemSource,
    output: MemSink,
    errors: MemSink,
    ambient: MemAmbient,
}

/// What a row says of input, clock and random words, with no files.
fn world_of(alloc: Global, row: &Row) -> Result<World, Memory> {
    let input = row.input.clone()?;
    let times = row.clock.clone()?;
    let words = row.random.clone()?;
    Ok(World {
        files: MemFiles::new(alloc),
        input: MemSource::new(alloc, input),
        output: MemSink::new(alloc),
        errors: MemSink::new(alloc),
        ambient: MemAmbient::new(alloc, times, words),
    })
}

/// Lets a call of a device fail.
fn let_fail(alloc: Global, world: &mut World, device: Device, call: u64) -> Result<(), Memory> {
    match device {
        Device::Files => world.files.fail_at(alloc, call),
        Device::Input => world.input.fail_at(alloc, call),
        Device::Output => world.output.fail_at(alloc, call),
        Device::Errors => world.errors.fail_at(alloc, call),
        Device::Clock => world.ambient.fail_at(alloc, call),
    }
}

/// Whether the next call of a device fails.
fn is_failing(alloc: Global, world: &mut World, device: Device) -> bool {
    match device {
        Device::Files => matches!(world.files.fetch(alloc, "", 0), Err(FileFault::Failed)),
        Device::Input => matches!(world.input.take(alloc, 1), Err(IoFault::Failed)),
        Device::Output => matches!(world.output.put(alloc, b""), Err(IoFault::Failed)),
        Device::Errors => matches!(world.errors.put(alloc, b""), Err(IoFault::Failed)),
        Device::Clock => matches!(world.ambient.now(alloc), Err(IoFault::Failed)),
    }
}

/// How many calls were made of a device, of which no later one is to fail yet: before the call that comes so many calls later, those with
/// numbers up to twice as many are let fail.
fn calls_of(alloc: Global, world: &mut World, device: Device) -> Result<u64, Memory> {
    let_fail(alloc, world, device, 0)?;
    for later in 0..100_000u64 {
        if is_failing(alloc, world, device) {
            return Ok(later);
        }
        let_fail(alloc, world, device, 2 * later + 1)?;
        let_fail(alloc, world, device, 2 * later + 2)?;
    }
    Err(Memory)
}

/// Notes how many calls were made of each device.
fn note_calls(alloc: Global, world: &mut World, came: &mut Facts) -> Result<(), Memory> {
    let mut space = "";
    for device in [
        Device::Files,
        Device::Input,
        Device::Output,
        Device::Errors,
        Device::Clock,
    ] {
        let calls = calls_of(alloc, world, device)?;
        came.add("calls", format!(in alloc; "{space}{calls}")?.into_bytes())?;
        space = " ";
    }
    Ok(())
}

/// The words of how a run ended.
fn end_shown(alloc: Global, end: RunEnd) -> Result<String, AllocError> {
    match end {
        RunEnd::Exit(code) => format!(in alloc; "exit {code}"),
        RunEnd::Return => String::from_str(alloc, "return"),
        RunEnd::Trap(_) => String::from_str(alloc, "trap"),
        RunEnd::StepLimit => String::from_str(alloc, "step limit"),
        RunEnd::DepthLimit => String::from_str(alloc, "depth limit"),
        RunEnd::HostCallLimit => String::from_str(alloc, "host call limit"),
        RunEnd::TurnLimit => String::from_str(alloc, "turn limit"),
    }
}

/// How a run ended, behind this text.
fn note_end(alloc: Global, end: RunEnd, space: &str, came: &mut Facts) -> Result<(), Memory> {
    let end = end_shown(alloc, end)?;
    came.add("end", format!(in alloc; "{space}{end}")?.into_bytes())
}

/// What came of a run, behind this text.
fn note_run(alloc: Global, ran: &Ran, space: &str, came: &mut Facts) -> Result<(), Memory> {
    note_end(alloc, ran.end, space, came)?;
    let answers = ran.answers.items().len();
    came.add(
        "steps",
        format!(in alloc; "{space}{}", ran.steps)?.into_bytes(),
    )?;
    came.add(
        "answers",
        format!(in alloc; "{space}{answers}")?.into_bytes(),
    )
}

/// What came of runs, one after the other.
fn note_runs(alloc: Global, runs: &[Ran], came: &mut Facts) -> Result<(), Memory> {
    let mut space = "";
    for ran in runs {
        note_run(alloc, ran, space, came)?;
        space = " ";
    }
    Ok(())
}

/// Which programs were picked, or that none was.
fn note_picks(alloc: Global, picks: &[u32], came: &mut Facts) -> Result<(), Memory> {
    let mut text = String::new(alloc);
    for pick in picks {
        text.push_str(if text.is_empty() { "" } else { " " })?;
        text.push_str(&format!(in alloc; "{pick}")?)?;
    }
    if text.is_empty() {
        text.push_str("none")?;
    }
    came.add("picks", text.into_bytes())
}

/// What came of a command but what it put.
fn note_outcome(alloc: Global, outcome: &Outcome, came: &mut Facts) -> Result<(), Memory> {
    let code = status(outcome);
    came.add("status", format!(in alloc; "{code}")?.into_bytes())?;
    match outcome {
        Outcome::Ran(ran) => note_run(alloc, ran, "", came),
        Outcome::Done(runs) => note_runs(alloc, runs.items(), came),
        Outcome::Board(board) => {
            note_picks(alloc, board.picks.items(), came)?;
            note_runs(alloc, board.runs.items(), came)
        }
        _ => Ok(()),
    }
}

/// What stands at a path. The one call that fails may be the first of these two.
fn fetched(alloc: Global, files: &mut MemFiles, path: &str) -> Option<Vec<u8>> {
    match files.fetch(alloc, path, usize::MAX) {
        Ok(bytes) => Some(bytes),
        Err(_) => files.fetch(alloc, path, usize::MAX).ok(),
    }
}

/// Notes what was written at a path, if that is new there.
fn note_new(
    alloc: Global,
    path: &str,
    bytes: Vec<u8>,
    row: &mut Row,
    written: &mut String,
    came: &mut Facts,
) -> Result<(), Memory> {
    if !row.changes(alloc, path, bytes)? {
        return Ok(());
    }
    written.push_str(if written.is_empty() { "" } else { " " })?;
    written.push_str(path)?;
    if let Some((_, held)) = row.files.last() {
        came.add("holds", held.clone()?)?;
    }
    Ok(())
}

/// Notes the paths whose contents changed, which the row's files have from now on, and these contents.
fn note_written(
    alloc: Global,
    paths: &[String],
    files: &mut MemFiles,
    row: &mut Row,
    came: &mut Facts,
) -> Result<(), Memory> {
    let mut written = String::new(alloc);
    for path in paths {
        if let Some(bytes) = fetched(alloc, files, path) {
            note_new(alloc, path, bytes, row, &mut written, came)?;
        }
    }
    came.add("wrote", written.into_bytes())
}

/// Adds the files of a generated set.
pub fn add_generated(alloc: Global, n: u32, row: &mut Row) -> Result<(), Memory> {
    let mut paths = Vec::new(alloc);
    paths.push(String::from_str(alloc, "m0.wasm")?)?;
    paths.push(String::from_str(alloc, "e.so")?)?;
    for member in 1..=n.min(255) {
        paths.push(format!(in alloc; "m{member}.so")?)?;
    }
    let Ok(mut files) = make(alloc, n) else {
        return Err(Memory);
    };
    let noted = note_written(alloc, &paths, &mut files, row, &mut Facts::new(alloc));
    drop(files);
    noted
}

/// Adds the files of a row, and lets the calls fail that it names.
fn set_up(alloc: Global, world: &mut World, row: &Row) -> Result<(), Memory> {
    row.put_files(alloc, &mut world.files)?;
    for (device, call) in &row.fails {
        let_fail(alloc, world, *device, *call)?;
    }
    Ok(())
}

/// Performs a command, and notes its outcome.
fn serve_in(
    alloc: Global,
    words: &[String],
    host: &HostTable,
    picker: &Picker,
    world: &mut World,
    came: &mut Facts,
) -> Result<(), Memory> {
    let outcome = serve(
        alloc,
        words,
        &mut world.files,
        &mut world.input,
        &mut world.output,
        &mut world.errors,
        &mut world.ambient,
        host,
        picker,
    );
    let noted = note_outcome(alloc, &outcome, came);
    drop(outcome);
    noted
}

/// Notes what a command put.
fn note_put(alloc: Global, world: &World, came: &mut Facts) -> Result<(), Memory> {
    came.add("out", world.output.held().to_vec(alloc)?)?;
    came.add("err", world.errors.held().to_vec(alloc)?)
}

/// Notes what a command did to all that it is over.
fn note_world(
    alloc: Global,
    words: &[String],
    world: &mut World,
    row: &mut Row,
    came: &mut Facts,
) -> Result<(), Memory> {
    note_put(alloc, world, came)?;
    if row.counts_calls {
        note_calls(alloc, world, came)?;
    }
    let paths = row.paths(alloc, words)?;
    note_written(alloc, &paths, &mut world.files, row, came)
}

/// Performs a command over all that it needs, and notes what came of it.
fn perform_in(
    alloc: Global,
    words: &[String],
    host: &HostTable,
    picker: &Picker,
    world: &mut World,
    row: &mut Row,
    came: &mut Facts,
) -> Result<(), Memory> {
    set_up(alloc, world, row)?;
    serve_in(alloc, words, host, picker, world, came)?;
    note_world(alloc, words, world, row, came)
}

/// Performs a command over these host functions.
pub fn perform_with(
    alloc: Global,
    words: &[String],
    host: &HostTable,
    picker: &Picker,
    row: &mut Row,
    came: &mut Facts,
) -> Result<(), Memory> {
    let mut world = world_of(alloc, row)?;
    let performed = perform_in(alloc, words, host, picker, &mut world, row, came);
    drop(world);
    performed
}

/// Performs a command of a row with this picker, over the row's host functions, and notes what came of it.
pub fn perform_over(
    alloc: Global,
    words: &[String],
    picker: &Picker,
    row: &mut Row,
    came: &mut Facts,
) -> Result<(), Memory> {
    match row.table {
        "knock" => perform_knocking(alloc, words, picker, row, came),
        "" => {
            let host = HostTable::new(alloc);
            let performed = perform_with(alloc, words, &host, picker, row, came);
            drop(host);
            performed
        }
        table => perform_doubling(alloc, words, table, picker, row, came),
    }
}
