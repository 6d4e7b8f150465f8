// The adapters: files of the system in folders of the test's own, streams, pipes, and the real clock and random words.
use super::answers::{fetches, takes};
use super::one_file::OneFile;
use super::readers::{BrokenReader, SlowReader, SlowWriter};
use dyl_outside::{
    Ambient, DiskFiles, FileFault, Files, HostAmbient, IoFault, Sink, Source, StreamSink,
    StreamSource,
};
use std::alloc::{AllocError, Global};
use std::fs::{self, Permissions};
use std::io::{self, ErrorKind, Write};
use std::os::unix::fs::PermissionsExt;
use std::rt::Files as FileSystem;
use std::test::Fail;

const FOLDER: &str = "test_adapters_folder";

const LARGE: &str = "test_adapters_folder/large";

const SMALL: &str = "test_adapters_folder/small";

const LOCKED: &str = "test_adapters_folder/locked";

/// A path and why no file is fetched there.
const FETCHES: &[(&str, FileFault)] = &[
    ("test_adapters_folder/missing", FileFault::Absent),
    ("test_adapters_folder/missing/below", FileFault::Absent),
    ("", FileFault::Absent),
    (FOLDER, FileFault::Failed),
    ("test_adapters_folder/", FileFault::Failed),
    ("test_adapters_folder/small/below", FileFault::Failed),
];

/// Paths at which no file is stored.
const STORES: &[&str] = &[
    "test_adapters_folder/missing/below",
    FOLDER,
    "",
    "/dev/full",
];

/// The bytes 0 to 250 over and over, 5,000,000 in all.
fn long_bytes(alloc: Global) -> Result<Vec<u8>, AllocError> {
    let mut bytes = Vec::new(alloc);
    for i in 0..5_000_000u32 {
        bytes.push((i % 251) as u8)?;
    }
    Ok(bytes)
}

/// Whether a long file and a short one are stored, and then fetched up to their length.
fn keeps<F: Files>(alloc: Global, files: &mut F) -> Result<bool, AllocError> {
    let bytes = long_bytes(alloc)?;
    Ok(
        files.store(alloc, LARGE, &bytes).is_ok()
            && files.store(alloc, SMALL, b"abc").is_ok()
            && fetches(alloc, files, LARGE, 5_000_000, Ok(&bytes))
            && fetches(alloc, files, LARGE, 4_999_999, Err(FileFault::TooLong))
            && fetches(alloc, files, SMALL, 3, Ok(b"abc")),
    )
}

/// Whether the short file is stored again without bytes, and then fetched.
fn empties<F: Files>(alloc: Global, files: &mut F) -> bool {
    files.store(alloc, SMALL, b"").is_ok() && fetches(alloc, files, SMALL, 0, Ok(b""))
}

/// The first path of which something else than its fault is told when a file is fetched.
fn first_fetched<F: Files>(alloc: Global, files: &mut F) -> Option<&'static str> {
    for (path, fault) in FETCHES {
        if !fetches(alloc, files, path, 9, Err(*fault)) {
            return Some(*path);
        }
    }
    None
}

/// The first path at which storing a file doesn't fail.
fn first_stored<F: Files>(alloc: Global, files: &mut F) -> Option<&'static str> {
    for path in STORES {
        if files.store(alloc, path, b"x") != Err(IoFault::Failed) {
            return Some(*path);
        }
    }
    None
}

/// Makes a file that may be neither read nor written.
fn lock<R: FileSystem>(rt: &R) -> io::Result<()> {
    fs::write(rt, LOCKED, "abc")?;
    fs::set_permissions(rt, LOCKED, Permissions::from_mode(0))
}

/// Whether that file is neither fetched nor stored.
fn is_refused<F: Files>(alloc: Global, files: &mut F) -> bool {
    fetches(alloc, files, LOCKED, 9, Err(FileFault::Failed))
        && files.store(alloc, LOCKED, b"x") == Err(IoFault::Failed)
}

#[test]
fn files_on_disk(rt: HostRuntime) -> Result<(), Fail> {
    let alloc = rt.alloc();
    let _ = fs::remove_dir_all(&rt, FOLDER);
    fs::create_dir(&rt, FOLDER)?;
    let mut files = DiskFiles::new(&rt);
    assert!(rt; keeps(alloc, &mut files)?);
    assert_eq!(rt; first_fetched(alloc, &mut files), None);
    assert_eq!(rt; first_stored(alloc, &mut files), None);
    assert!(rt; empties(alloc, &mut files));
    lock(&rt)?;
    // One who may read all files, as root, reads it nevertheless.
    let is_locked = fs::open(&rt, LOCKED).is_err();
    assert!(rt; !is_locked || is_refused(alloc, &mut files));
    fs::remove_dir_all(&rt, FOLDER)?;
    Ok(())
}

/// Whether a source over a reader that fails so fails too, and with this fault.
fn breaks(alloc: Global, kind: ErrorKind, fault: IoFault) -> bool {
    let mut source = StreamSource::new(BrokenReader(kind));
    takes(alloc, &mut source, 5, Err(fault))
}

/// Whether a source over a reader that is interrupted and gives a byte a call gives these.
fn goes_on(alloc: Global) -> bool {
    let mut source = StreamSource::new(SlowReader {
        bytes: b"ab",
        is_interrupted: false,
    });
    takes(alloc, &mut source, 5, Ok(b"a"))
        && takes(alloc, &mut source, 5, Ok(b"b"))
        && takes(alloc, &mut source, 5, Ok(b""))
}

#[test]
fn sources_over_readers(rt: HostRuntime) {
    let alloc = rt.alloc();
    assert!(rt; goes_on(alloc));
    assert!(rt; breaks(alloc, ErrorKind::BrokenPipe, IoFault::Failed));
    assert!(rt; breaks(alloc, ErrorKind::OutOfMemory, IoFault::Memory));
}

/// The room of a writer and its error past it, the pieces that it takes, a piece that it doesn't take whole, the fault then, and
/// what it holds.
type Put = (
    usize,
    Option<ErrorKind>,
    &'static [&'static str],
    &'static str,
    IoFault,
    &'static str,
);

const PUTS: &[Put] = &[
    (5, None, &["", "abc", "de"], "f", IoFault::Failed, "abcde"),
    (
        2,
        Some(ErrorKind::StorageFull),
        &[],
        "abc",
        IoFault::Failed,
        "ab",
    ),
    (
        2,
        Some(ErrorKind::OutOfMemory),
        &[],
        "abc",
        IoFault::Failed,
        "ab",
    ),
    (
        0,
        Some(ErrorKind::OutOfMemory),
        &[],
        "abc",
        IoFault::Memory,
        "",
    ),
];

/// Whether a sink takes all pieces.
fn puts<S: Sink>(alloc: Global, sink: &mut S, pieces: &[&str]) -> bool {
    for piece in pieces {
        if sink.put(alloc, piece.as_bytes()).is_err() {
            return false;
        }
    }
    true
}

/// Whether a sink over a writer does what the row says.
fn holds(alloc: Global, row: &Put) -> bool {
    let (room, when_full, pieces, last, fault, held) = row;
    let mut writer = SlowWriter::new(alloc, *room, *when_full);
    let mut sink = StreamSink::new(&mut writer);
    puts(alloc, &mut sink, pieces)
        && sink.put(alloc, last.as_bytes()) == Err(*fault)
        && writer.bytes.as_slice() == held.as_bytes()
}

#[test]
fn sink_over_a_writer(rt: HostRuntime) {
    for row in PUTS {
        assert!(rt; holds(rt.alloc(), row), "{row:?}");
    }
}

/// Whether what is put is taken, first as much as is asked for, and then what is left.
fn passes<I: Source, O: Sink>(alloc: Global, source: &mut I, sink: &mut O) -> bool {
    sink.put(alloc, b"abc").is_ok()
        && takes(alloc, source, 2, Ok(b"ab"))
        && takes(alloc, source, 5, Ok(b"c"))
}

#[test]
fn streams_over_a_pipe(rt: HostRuntime) -> Result<(), Fail> {
    let (reader, writer) = io::pipe(&rt)?;
    let mut source = StreamSource::new(reader);
    let mut sink = StreamSink::new(writer);
    let passes = passes(rt.alloc(), &mut source, &mut sink);
    drop(sink);
    assert!(rt; passes && takes(rt.alloc(), &mut source, 5, Ok(b"")));
    Ok(())
}

/// Whether a sink over a writer takes nothing.
fn fails<W: Write + Drop>(alloc: Global, writer: W) -> bool {
    let mut sink = StreamSink::new(writer);
    sink.put(alloc, b"abc") == Err(IoFault::Failed)
}

#[test]
fn sinks_that_fail(rt: HostRuntime) -> Result<(), Fail> {
    let (reader, writer) = io::pipe(&rt)?;
    drop(reader);
    assert!(rt; fails(rt.alloc(), writer));
    assert!(rt; fails(rt.alloc(), fs::create(&rt, "/dev/full")?));
    Ok(())
}

/// Whether a clock tells a time after the start of 2020.
fn tells_time<A: Ambient>(alloc: Global, ambient: &mut A) -> Result<bool, IoFault> {
    Ok(ambient.now(alloc)? > 1_577_836_800_000_000_000)
}

/// Whether 1,200 random words are other than the one before them.
fn draws_words<A: Ambient>(alloc: Global, ambient: &mut A) -> Result<bool, IoFault> {
    let first = ambient.word(alloc)?;
    for _ in 0..1200 {
        if ambient.word(alloc)? == first {
            return Ok(false);
        }
    }
    Ok(true)
}

#[test]
fn real_clock_and_random_words(rt: HostRuntime) {
    let alloc = rt.alloc();
    let mut ambient = HostAmbient::new(&rt);
    assert!(rt; tells_time(alloc, &mut ambient) == Ok(true));
    assert!(rt; draws_words(alloc, &mut ambient) == Ok(true));
}

const ZEROS: &str = "test_adapters_zeros";

/// Makes a file of 4,100 zeros: a block and a half word.
fn make_zeros<R: FileSystem>(rt: &R, alloc: Global) -> io::Result<()> {
    let zeros = vec![in alloc; 0u8; 4100]?;
    fs::write(rt, ZEROS, zeros.as_slice())
}

/// Whether so many random words are 0, and then neither a word nor a time is had.
fn ends_behind<A: Ambient>(alloc: Global, ambient: &mut A, count: u32) -> bool {
    for _ in 0..count {
        if ambient.word(alloc) != Ok(0) {
            return false;
        }
    }
    ambient.word(alloc) == Err(IoFault::Failed) && ambient.now(alloc) == Err(IoFault::Failed)
}

/// Whether a file in place of the random source gives so many words.
fn gives_words(rt: &HostRuntime, path: &'static str, count: u32) -> bool {
    let one_file = OneFile { rt, path };
    let mut ambient = HostAmbient::new(&one_file);
    ends_behind(rt.alloc(), &mut ambient, count)
}

#[test]
fn a_clock_and_random_sources_that_fail(rt: HostRuntime) -> Result<(), Fail> {
    make_zeros(&rt, rt.alloc())?;
    assert!(rt; gives_words(&rt, "test_adapters_missing", 0));
    assert!(rt; gives_words(&rt, "/dev/null", 0));
    assert!(rt; gives_words(&rt, ZEROS, 512));
    fs::remove_file(&rt, ZEROS)?;
    Ok(())
}
