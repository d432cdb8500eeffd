//! What no clause says: that the calls succeed where memory is found, and what the real adapters do.

use super::*;
use std::test::Fail;
use std::{env, fs};

#[test]
fn forms_in_memory(rt: HostRuntime) -> Result<(), Fail> {
    let alloc = rt.alloc();
    let mut files = Vec::new(alloc);
    files.push((
        String::from_str(alloc, "four")?,
        Vec::from_slice(alloc, b"abcd")?,
    ))?;
    let mut shelf = MemShelf::new(files, Vec::from_slice(alloc, &[4])?);
    for (name, most, answer, taken) in [
        ("four", 3, Err(Fetch::TooLong), b"abcd".as_slice()),
        ("four", 4, Ok(()), b"abcd"),
        ("five", 4, Err(Fetch::Absent), b""),
        ("four", 4, Err(Fetch::Failed), b""),
        ("four", 2, Err(Fetch::TooLong), b"abc"),
    ] {
        let mut into = Vec::new(alloc);
        assert!(rt; shelf.fetch(name, most, &mut into) == answer);
        assert_eq!(rt; into.as_slice(), taken);
    }

    let mut source = MemSource::new(
        Vec::from_slice(alloc, b"abcde")?,
        2,
        Vec::from_slice(alloc, &[2])?,
    );
    let mut buf = [0u8; 3];
    for (answer, front) in [
        (Ok(2), b"ab".as_slice()),
        (Err(Failed), b""),
        (Ok(2), b"cd"),
        (Ok(1), b"e"),
        (Ok(0), b""),
    ] {
        assert!(rt; source.read(&mut buf) == answer);
        assert!(rt; buf.starts_with(front));
    }

    let sink = MemSink::new(alloc, 5, 2, Vec::from_slice(alloc, &[2])?);
    assert!(rt; sink.is_ok());
    let Ok(mut sink) = sink else {
        return Ok(());
    };
    assert!(rt; sink.write(b"abc") == Ok(2));
    assert!(rt; sink.write(b"cde") == Err(Failed));
    assert!(rt; write_whole(&mut sink, b"cdefg") == Err(Failed));
    assert_eq!(rt; sink.written(), b"abcde".as_slice());
    Ok(())
}

#[test]
fn real_shelf(rt: HostRuntime) -> Result<(), Fail> {
    let alloc = rt.alloc();
    let mut path = String::from_str(alloc, env::temp_dir(&rt)?.as_str())?;
    path.push_str("/rtime_real_shelf")?;
    fs::write(&rt, path.as_str(), "abcd")?;
    let mut shelf = HostShelf::new(&rt);
    for (most, answer, taken) in [
        (4, Ok(()), b"abcd".as_slice()),
        (5, Ok(()), b"abcd"),
        (3, Err(Fetch::TooLong), b"abcd"),
        (0, Err(Fetch::TooLong), b"a"),
    ] {
        let mut into = Vec::new(alloc);
        assert!(rt; shelf.fetch(path.as_str(), most, &mut into) == answer);
        assert_eq!(rt; into.as_slice(), taken);
    }
    fs::remove_file(&rt, path.as_str())?;
    let mut into = Vec::new(alloc);
    assert!(rt; shelf.fetch(path.as_str(), 4, &mut into) == Err(Fetch::Failed));
    Ok(())
}

#[test]
fn real_source_and_sink(rt: HostRuntime) -> Result<(), Fail> {
    let mut source = HostSource::new(b"abc".as_slice());
    let mut buf = [0u8; 2];
    assert!(rt; source.read(&mut buf) == Ok(2));
    assert_eq!(rt; buf, *b"ab");
    assert!(rt; source.read(&mut buf) == Ok(1));
    assert!(rt; source.read(&mut buf) == Ok(0));

    let mut bytes = Vec::new(rt.alloc());
    let mut sink = HostSink::new(&mut bytes);
    assert!(rt; write_whole(&mut sink, b"abcd") == Ok(()));
    assert_eq!(rt; bytes.as_slice(), b"abcd".as_slice());
    Ok(())
}
