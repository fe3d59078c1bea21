//! What no clause says: the texts of errors, files of the system, and that there is memory enough.
use ftpp_outside::{
    InputError, MemShelf, MemSink, MemSource, Shelf, ShelfError, StdShelf, SteadySink,
    SteadySource, read_all, write_all,
};
use std::alloc::Global;
use std::fmt::Display;
use std::fs;
use std::test::Fail;

/// The most bytes of a file that the test of the system's files loads.
const LIMIT: usize = 1_048_576;

/// The text of an error.
fn text_of<T: Display>(alloc: Global, error: &T) -> Result<String, Fail> {
    Ok(format!(in alloc; "{error}")?)
}

/// What was read as text, or the text of the error.
fn read_as<T: Display + Drop>(alloc: Global, read: Result<Vec<u8>, T>) -> Result<String, Fail> {
    match read {
        Ok(all) => Ok(String::from_utf8(all).ok().ok_or("text")?),
        Err(error) => text_of(alloc, &error),
    }
}

#[test]
fn errors_read_as_their_names(rt: HostRuntime) -> Result<(), Fail> {
    for (error, text) in [
        (InputError::Read, "Read"),
        (InputError::TooLong, "TooLong"),
        (InputError::Memory, "Memory"),
    ] {
        assert!(rt; text_of(rt.alloc(), &error)?.as_str() == text, "{text}");
    }
    for (error, text) in [
        (ShelfError::Fault, "Fault"),
        (ShelfError::TooLong, "TooLong"),
        (ShelfError::Memory, "Memory"),
    ] {
        assert!(rt; text_of(rt.alloc(), &error)?.as_str() == text, "{text}");
    }
    Ok(())
}

/// What comes of reading five bytes: the bytes, or the text of the error.
fn read_five(alloc: Global, piece: usize, failing: u64, limit: usize) -> Result<String, Fail> {
    let bytes = Vec::from_array(alloc, *b"abcde")?;
    let failing = Vec::from_array(alloc, [failing])?;
    let mut source = MemSource::new(bytes, piece.max(1), failing);
    read_as(alloc, read_all(alloc, &mut source, limit))
}

#[test]
fn reads_whole_inputs(rt: HostRuntime) -> Result<(), Fail> {
    for (piece, failing, limit, want) in [
        (1, 0, usize::MAX, "abcde"),
        (3, 0, 5, "abcde"),
        (100, 0, 100, "abcde"),
        (1, 0, 4, "TooLong"),
        (100, 0, 0, "TooLong"),
        (1, 1, 100, "Read"),
        (4, 2, 100, "Read"),
        (1, 6, 100, "Read"),
        (1, 7, 100, "abcde"),
    ] {
        assert!(rt;
            read_five(rt.alloc(), piece, failing, limit)?.as_str() == want,
            "{piece} {failing} {limit}"
        );
    }
    let mut steady = SteadySource::new(Vec::from_array(rt.alloc(), *b"abcde")?);
    assert!(rt; read_all(rt.alloc(), &mut steady, 5).is_ok());
    Ok(())
}

/// Whether two texts are written whole.
fn writes_both(sink: &mut MemSink, first: &[u8], second: &[u8]) -> bool {
    write_all(sink, first).is_ok() && write_all(sink, second).is_ok()
}

/// Whether two texts are written whole, and how many of their bytes are kept, or `None` for others.
fn write_two(
    alloc: Global,
    room: usize,
    piece: usize,
    failing: u64,
) -> Result<(bool, Option<usize>), Fail> {
    let failing = Vec::from_array(alloc, [failing])?;
    let mut sink = MemSink::new(alloc, room, piece.max(1), failing)?;
    let is_whole = writes_both(&mut sink, b"abcde", b"fghij");
    Ok((is_whole, front_len(sink.bytes(), b"abcdefghij")))
}

/// How long the front of a text is, if it is one.
fn front_len(front: &[u8], text: &[u8]) -> Option<usize> {
    text.starts_with(front).then_some(front.len())
}

#[test]
fn writes_whole_texts(rt: HostRuntime) -> Result<(), Fail> {
    for (room, piece, failing, want) in [
        (100, 7, 0, (true, Some(10))),
        (10, 1, 0, (true, Some(10))),
        (7, 100, 0, (false, Some(7))),
        (0, 100, 0, (false, Some(0))),
        (100, 100, 1, (false, Some(0))),
        (100, 100, 2, (false, Some(5))),
        (100, 2, 2, (false, Some(2))),
    ] {
        assert!(rt;
            write_two(rt.alloc(), room, piece, failing)? == want,
            "{room} {piece} {failing}"
        );
    }
    Ok(())
}

#[test]
fn a_steady_sink_counts(rt: HostRuntime) {
    let mut steady = SteadySink::new();
    assert!(rt; write_all(&mut steady, b"abcde").is_ok());
    let before = steady;
    assert!(rt; write_all(&mut steady, b"fg").is_ok());
    assert!(rt; before.count() == 5 && steady.count() == 7);
}

/// A file in memory.
fn file(alloc: Global, name: &str, bytes: &[u8]) -> Result<(String, Vec<u8>), Fail> {
    Ok((
        String::from_str(alloc, name)?,
        Vec::from_slice(alloc, bytes)?,
    ))
}

/// What comes of a load: the bytes as text, or the text of the error.
fn loaded<S: Shelf>(
    alloc: Global,
    shelf: &mut S,
    name: &str,
    limit: usize,
) -> Result<String, Fail> {
    read_as(alloc, shelf.load(alloc, name, limit))
}

#[test]
fn loads_files_from_memory(rt: HostRuntime) -> Result<(), Fail> {
    let mut files = Vec::new(rt.alloc());
    files.push(file(rt.alloc(), "twice", b"first")?)?;
    files.push(file(rt.alloc(), "empty", b"")?)?;
    files.push(file(rt.alloc(), "twice", b"second")?)?;
    let mut shelf = MemShelf::new(files, Vec::from_array(rt.alloc(), [1, 4])?);
    for (name, limit, want) in [
        ("twice", 5, "Fault"),
        ("twice", 5, "first"),
        ("twice", 4, "TooLong"),
        ("missing", 0, "Fault"),
        ("missing", 100, "Fault"),
        ("twic", 100, "Fault"),
        ("empty", 0, ""),
        ("twice", usize::MAX, "first"),
    ] {
        assert!(rt;
            loaded(rt.alloc(), &mut shelf, name, limit)?.as_str() == want,
            "{name} {limit}"
        );
    }
    Ok(())
}

#[test]
fn loads_files_of_the_system(rt: HostRuntime) -> Result<(), Fail> {
    let mut bytes = Vec::with_capacity(rt.alloc(), LIMIT + 1)?;
    for at in 0..LIMIT {
        bytes.push((at % 251) as u8)?;
    }
    let _ = fs::remove_dir_all(&rt, "shelf_test");
    fs::create_dir(&rt, "shelf_test")?;
    fs::write(&rt, "shelf_test/whole", bytes.as_slice())?;
    let mut shelf = StdShelf::new(&rt);
    let whole = shelf.load(rt.alloc(), "shelf_test/whole", LIMIT);
    assert!(rt; whole.ok().ok_or("a file of the limit")? == bytes);
    bytes.push(0)?;
    fs::write(&rt, "shelf_test/longer", bytes.as_slice())?;
    fs::write(&rt, "shelf_test/short", b"abc".as_slice())?;
    for (name, limit, want) in [
        ("shelf_test/longer", LIMIT, "TooLong"),
        ("shelf_test/short", 3, "abc"),
        ("shelf_test/short", 2, "TooLong"),
        ("shelf_test/missing", LIMIT, "Fault"),
        ("shelf_test", LIMIT, "Fault"),
    ] {
        assert!(rt;
            loaded(rt.alloc(), &mut shelf, name, limit)?.as_str() == want,
            "{name} {limit}"
        );
    }
    fs::remove_dir_all(&rt, "shelf_test")?;
    Ok(())
}
