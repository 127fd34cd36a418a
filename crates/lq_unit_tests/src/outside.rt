//! What is read, written and loaded, in memory and over the standard library.

use lq_outside::{
    Failed, Files, LoadErr, MemFiles, MemSink, MemSource, Memory, Sink, Source, StandardStream,
    StdFiles, StdSink, StdSource, SteadySource, write_all,
};
use std::alloc::Global;
use std::io::{self, ErrorKind, Read, Write};
use std::test::Fail;
use std::{env, fs, process};

/// What reads of three bytes give: how many bytes, what the buffer holds then, what is left, and
/// how many reads have failed.
const READS: &[(Result<usize, Failed>, &[u8], &[u8], u64)] = &[
    (Ok(3), b"abc", b"de", 0),
    (Err(Failed), b"abc", b"de", 1),
    (Ok(2), b"dec", b"", 1),
    (Ok(0), b"dec", b"", 1),
    (Err(Failed), b"dec", b"", 2),
];

#[test]
fn a_source_in_memory_fails_at_its_numbers(rt: HostRuntime) -> Result<(), Fail> {
    let alloc = rt.alloc();
    let bytes = Vec::from_slice(alloc, b"abcde")?;
    let mut source = MemSource::new(bytes, vec![in alloc; 1, 4]?);
    let mut buf = [0u8; 3];
    for (count, held, left, faults) in READS {
        assert!(rt; source.read(&mut buf) == *count);
        assert!(rt; buf.as_slice() == *held);
        assert!(rt; source.left() == *left);
        assert!(rt; source.faults() == *faults);
    }
    Ok(())
}

#[test]
fn a_steady_source_gives_all_its_bytes(rt: HostRuntime) -> Result<(), Fail> {
    let alloc = rt.alloc();
    let mut source = SteadySource::new(Vec::from_slice(alloc, b"abc")?);
    let mut buf = [0u8; 2];
    let reads: &[(usize, &[u8], &[u8])] = &[(2, b"ab", b"c"), (1, b"cb", b""), (0, b"cb", b"")];
    for (count, held, left) in reads {
        assert!(rt; source.read(&mut buf) == Ok(*count));
        assert!(rt; buf.as_slice() == *held);
        assert!(rt; source.left() == *left);
    }
    assert!(rt; source.faults() == 0);
    Ok(())
}

/// Pieces, and what their writes give.
const WRITES: &[(&[u8], Result<usize, Failed>)] = &[
    (b"ab", Ok(2)),
    (b"cd", Err(Failed)),
    (b"", Ok(0)),
    (b"ef", Ok(2)),
];

#[test]
fn a_sink_in_memory_fails_at_its_numbers(rt: HostRuntime) -> Result<(), Fail> {
    let mut sink = MemSink::new(rt.alloc(), vec![in rt.alloc(); 1]?);
    for (piece, count) in WRITES {
        assert!(rt; sink.write(*piece) == *count);
    }
    assert!(rt; sink.held() == b"abef".as_slice());
    assert!(rt; sink.faults() == 1);
    Ok(())
}

const FILES: &[(&str, &[u8])] = &[("a", b"one"), ("b", b"two!"), ("a", b"later")];

fn pairs(alloc: Global) -> Result<Vec<(String, Vec<u8>)>, Memory> {
    let mut pairs = Vec::new(alloc);
    for (path, bytes) in FILES {
        pairs.push((
            String::from_str(alloc, *path)?,
            Vec::from_slice(alloc, *bytes)?,
        ))?;
    }
    Ok(pairs)
}

#[test]
fn files_in_memory_answer_by_path_number_and_length(rt: HostRuntime) -> Result<(), Fail> {
    let alloc = rt.alloc();
    let mut files = MemFiles::new(pairs(alloc)?, vec![in alloc; 2, 3]?);
    let cases: &[(&str, u64, Result<&[u8], LoadErr>, u64)] = &[
        ("a", 3, Ok(b"one"), 0),
        ("c", 9, Err(LoadErr::Missing), 1),
        ("b", 9, Err(LoadErr::Failed), 2),
        ("c", 9, Err(LoadErr::Missing), 3),
        ("b", 3, Err(LoadErr::TooLarge), 3),
        ("b", 4, Ok(b"two!"), 3),
    ];
    for (path, most, expected, faults) in cases {
        assert!(rt;
            is_loaded(alloc, &mut files, (*path, *most), *expected),
            "at {path} {most}"
        );
        assert!(rt; files.faults() == *faults);
    }
    Ok(())
}

/// Whether loading at most so many bytes of a path gives what is expected.
fn is_loaded<F: Files>(
    alloc: Global,
    files: &mut F,
    (path, most): (&str, u64),
    expected: Result<&[u8], LoadErr>,
) -> bool {
    is_answer(&files.load(alloc, path, most), expected)
}

fn is_answer(loaded: &Result<Vec<u8>, LoadErr>, expected: Result<&[u8], LoadErr>) -> bool {
    match (loaded, expected) {
        (Ok(bytes), Ok(same)) => bytes.as_slice() == same,
        (Err(error), Err(same)) => *error == same,
        _ => false,
    }
}

// A sink that takes at most two bytes a write, and tells nothing.
#[derive(Drop)]
struct Narrow {
    inner: MemSink,
}

impl Sink for Narrow {
    ghost use Rattle.std.specs.Prelude.{None};

    ghost held = { λ _. None };

    ghost faults = { λ s. s.inner.faults };

    ghost other_side = { λ _. (None, 0) };

    fn write(&mut self, piece: &[u8]) -> Result<usize, Failed> {
        let count = piece.len().min(2);
        self.inner.write(&piece[..count])
    }
}

#[test]
fn short_writes_are_repeated_until_one_fails(rt: HostRuntime) -> Result<(), Fail> {
    let alloc = rt.alloc();
    let mut sink = Narrow {
        inner: MemSink::new(alloc, vec![in alloc; 5]?),
    };
    assert!(rt; write_all(&mut sink, b"abcde") == Ok(()));
    assert!(rt; write_all(&mut sink, b"") == Ok(()));
    assert!(rt; sink.inner.held() == b"abcde".as_slice());
    assert!(rt; write_all(&mut sink, b"fghijk") == Err(Failed));
    assert!(rt; sink.inner.held() == b"abcdefghi".as_slice());
    assert!(rt; sink.inner.faults() == 1);
    Ok(())
}

// A stream that fails at each read, and takes no byte at a write.
#[derive(Drop)]
struct Stuck;

impl Read for Stuck {
    fn read(&mut self, _buf: &mut [u8]) -> io::Result<usize> {
        Err(io::Error::from(ErrorKind::ConnectionReset))
    }
}

impl Write for Stuck {
    fn write(&mut self, _buf: &[u8]) -> io::Result<usize> {
        Ok(0)
    }

    fn flush(&mut self) -> io::Result<()> {
        Ok(())
    }
}

#[test]
fn a_reader_is_a_source(rt: HostRuntime) {
    let mut source = StdSource::new(b"abc".as_slice());
    let mut buf = [0u8; 2];
    assert!(rt; source.read(&mut buf) == Ok(2));
    assert!(rt; buf == *b"ab");
    assert!(rt; source.read(&mut buf) == Ok(1));
    assert!(rt; buf == *b"cb");
    assert!(rt; source.read(&mut buf) == Ok(0));
    assert!(rt; source.faults() == 0);

    let mut stuck = StdSource::new(Stuck);
    assert!(rt; stuck.read(&mut buf) == Err(Failed));
    assert!(rt; stuck.faults() == 1);
}

#[test]
fn a_writer_is_a_sink(rt: HostRuntime) -> Result<(), Fail> {
    let mut bytes = Vec::new(rt.alloc());
    {
        let mut sink = StdSink::new(&mut bytes);
        assert!(rt; write_all(&mut sink, b"abc") == Ok(()));
        assert!(rt; sink.write(b"d") == Ok(1));
        assert!(rt; sink.faults() == 0);
    }
    assert!(rt; bytes.as_slice() == b"abcd".as_slice());

    let mut stuck = StdSink::new(Stuck);
    assert!(rt; stuck.write(b"a") == Err(Failed));
    assert!(rt; stuck.write(b"") == Ok(0));
    assert!(rt; stuck.faults() == 1);

    for stream in [
        StandardStream::Output(rt.stdout()),
        StandardStream::Errors(rt.stderr()),
    ] {
        assert!(rt; write_all(&mut StdSink::new(stream), b"a line\n") == Ok(()));
    }
    Ok(())
}

#[test]
fn files_of_the_system_are_loaded(rt: HostRuntime) -> Result<(), Fail> {
    let alloc = rt.alloc();
    let folder = env::temp_dir(&rt)?;
    let id = process::id(rt.process());
    let path = format!(in alloc; "{}/lq_outside-{id}", folder.as_str())?;
    fs::write(&rt, path.as_str(), b"abc")?;
    let mut files = StdFiles::new(&rt);
    let cases: [(&str, u64, Result<&[u8], LoadErr>, u64); 6] = [
        (path.as_str(), 3, Ok(b"abc"), 0),
        (path.as_str(), u64::MAX, Ok(b"abc"), 0),
        (path.as_str(), 2, Err(LoadErr::TooLarge), 0),
        ("/nowhere/at/all", 9, Err(LoadErr::Missing), 1),
        ("/", 9, Err(LoadErr::Failed), 2),
        ("a\0b", 9, Err(LoadErr::Failed), 3),
    ];
    for (place, most, expected, faults) in cases {
        assert!(rt;
            is_loaded(alloc, &mut files, (place, most), expected),
            "at {place:?} {most}"
        );
        assert!(rt; files.faults() == faults);
    }
    fs::remove_file(&rt, path.as_str())?;
    Ok(())
}
