//! Rows of commands, edits one after another, and files of edits.

use crate::{Command, CommandFault, EditFault, EditsFault, Id, InForce, read_command, read_edits};
use std::alloc::{AllocError, Global};
use std::process::Abort;
use std::test::Fail;
use unit_rules::Zone;

const SPACES: [u8; 201] = [b' '; 201];

// What a line is on a line of ten metres.
fn read(line: &[u8]) -> Result<Command, CommandFault> {
    read_command(line, 10)
}

// Whether a line is a `put` of that ID and zone.
fn puts(line: &[u8], id: &[u8], from: u32, to: u32, kmh: u32) -> bool {
    match (read(line), Id::of(id)) {
        (Ok(command), Some(id)) => {
            let zone = Zone { from, to, kmh };
            command == Command::Put { id, zone }
        }
        _ => false,
    }
}

// Whether a line is a `take` of that ID.
fn takes(line: &[u8], id: &[u8]) -> bool {
    match (read(line), Id::of(id)) {
        (Ok(command), Some(id)) => command == Command::Take { id },
        _ => false,
    }
}

#[test]
fn commands_are_read(rt: HostRuntime) -> Result<(), Fail> {
    assert!(rt; puts(b"put a 0 5 50", b"a", 0, 5, 50));
    assert!(rt; puts(b"  put   a.B_9-  0  10   1 ", b"a.B_9-", 0, 10, 1));
    assert!(rt; puts(b"put put 9 10 500", b"put", 9, 10, 500));
    assert!(rt; takes(b"take a", b"a"));
    assert!(rt; takes(b" take  7 ", b"7"));
    let longest = b"take 0123456789012345678901234567890123456789".as_slice();
    assert!(rt; takes(longest, b"0123456789012345678901234567890123456789"));
    let rows = [
        (b"envelope".as_slice(), Command::Envelope),
        (b"  envelope   ", Command::Envelope),
        (b"timetable", Command::Timetable),
        (b"cert", Command::Cert),
        (b"time End", Command::Time { start: 5, end: 8 }),
        (b"  time   West  End  ", Command::Time { start: 9, end: 18 }),
        (b"time \tEnd\t", Command::Time { start: 5, end: 10 }),
        (b"time time", Command::Time { start: 5, end: 9 }),
        (b"time a,\"", Command::Time { start: 5, end: 8 }),
    ];
    for (line, command) in rows {
        assert!(rt; read(line) == Ok(command));
    }
    Ok(())
}

#[test]
fn lines_that_are_no_command(rt: HostRuntime) -> Result<(), Fail> {
    let lines = [
        b"".as_slice(),
        b"   ",
        b"puts a 0 5 50",
        b"PUT a 0 5 50",
        b"put",
        b"put a 0 5",
        b"put a! 5",
        b"put a 0 5 50 7",
        b"put a! 0 5 50 7",
        b"put\ta 0 5 50",
        b"put a\t0 5 50",
        b"take",
        b"take a b",
        b"take a! b",
        b"time",
        b"time  ",
        b"time\tEnd",
        b"envelope 1",
        b"timetable a",
        b"cert a",
        b"\tcert",
        b"cert\r",
    ];
    for line in lines {
        assert!(rt; read(line) == Err(CommandFault::NoCommand));
    }
    Ok(())
}

#[test]
fn misspelled_commands(rt: HostRuntime) -> Result<(), Fail> {
    let lines = [
        b"put a! 0 5 50".as_slice(),
        b"put a\t 0 5 50",
        b"put 01234567890123456789012345678901234567890 0 5 50",
        b"take 01234567890123456789012345678901234567890",
        b"take a,b",
        b"take \xc3\xa9",
        b"put a 0 5 0",
        b"put a 0 5 501",
        b"put a 5 5 50",
        b"put a 6 5 50",
        b"put a 10 10 50",
        b"put a 0 11 50",
        b"put a 0 05 50",
        b"put a 00 5 50",
        b"put a +0 5 50",
        b"put a 0 +5 50",
        b"put a -1 5 50",
        b"put a 0 5 1.5",
        b"put a 0 4294967301 50",
        b"put a 0 5 50\r",
    ];
    for line in lines {
        assert!(rt; read(line) == Err(CommandFault::Spelling));
    }
    assert!(rt; read_command(b"put a 0 500001 5", 500000) == Err(CommandFault::Spelling));
    assert!(rt; read_command(b"put a 0 500000 5", 500000).is_ok());
    Ok(())
}

#[test]
fn a_line_has_at_most_200_bytes(rt: HostRuntime) -> Result<(), Fail> {
    assert!(rt; read(&SPACES) == Err(CommandFault::Long));
    assert!(rt; read(&SPACES[..200]) == Err(CommandFault::NoCommand));
    let mut line = [b'x'; 201];
    line[..5].copy_from_slice(b"time ");
    assert!(rt; read(&line) == Err(CommandFault::Long));
    assert!(rt; read(&line[..200]) == Ok(Command::Time { start: 5, end: 200 }));
    Ok(())
}

#[test]
fn ids_are_spelled(rt: HostRuntime) -> Result<(), Fail> {
    let id = Id::of(b"aZ09._-").ok_or("an ID")?;
    assert!(rt; id.bytes() == b"aZ09._-".as_slice());
    assert!(rt; Id::of(b"aZ09._-") == Some(id));
    assert!(rt; Id::of(b"aZ09._") != Some(id));
    assert!(rt; Id::of(&[b'x'; 40]).is_some());
    assert!(rt; Id::of(&[b'x'; 41]).is_none());
    let refused = [
        b"".as_slice(),
        b"a!",
        b"a b",
        b" a",
        b"a\0",
        b"a/b",
        b"a:",
        b"@",
        b"[",
        b"`",
        b"{",
    ];
    for text in refused {
        assert!(rt; Id::of(text).is_none());
    }
    Ok(())
}

// A zone of one metre at each place.
fn zone(from: u32) -> Zone {
    Zone {
        from: from % 1000,
        to: from % 1000 + 1,
        kmh: 50,
    }
}

// The ID `rN` of a number below 100,000, in five digits.
fn numbered(n: u32) -> Option<Id> {
    let n = n % 100_000;
    let digit = |place: u32| b'0' + (n / place % 10) as u8;
    Id::of(&[
        b'r',
        digit(10_000),
        digit(1_000),
        digit(100),
        digit(10),
        digit(1),
    ])
}

#[test]
fn edits_keep_the_order(rt: HostRuntime) -> Result<(), Fail> {
    let mut force = InForce::new(rt.alloc());
    let texts = [b"m".as_slice(), b"c", b"x", b"cc", b"b", b"z", b"C"];
    for (place, text) in texts.iter().enumerate() {
        let id = Id::of(text).ok_or("an ID")?;
        assert!(rt; force.get(id).is_none());
        assert!(rt; force.put(id, zone(place as u32)) == Ok(()));
        assert!(rt; force.put(id, zone(999)) == Err(EditFault::Present));
        assert!(rt; force.get(id) == Some(zone(place as u32)));
    }
    assert!(rt; force.len() == 7 && force.spare() == 0);
    let middle = Id::of(b"x").ok_or("an ID")?;
    assert!(rt; force.take(middle) == Ok(zone(2)));
    assert!(rt; force.take(middle) == Err(EditFault::Absent));
    assert!(rt; force.spare() == 1);
    for (place, text) in texts.iter().enumerate() {
        let id = Id::of(text).ok_or("an ID")?;
        let there = if place == 2 {
            None
        } else {
            Some(zone(place as u32))
        };
        assert!(rt; force.get(id) == there);
    }
    let kept = [b"m".as_slice(), b"c", b"cc", b"b", b"z", b"C"];
    assert!(rt; force.len() == 6);
    for (place, text) in kept.iter().enumerate() {
        prove!(place < 6);
        let (id, _zone) = force.nth(place as u32);
        assert!(rt; id.bytes() == *text);
    }
    assert!(rt; force.put(middle, zone(77)) == Ok(()));
    assert!(rt; force.get(middle) == Some(zone(77)));
    Ok(())
}

#[test]
fn equal_zones_under_two_ids(rt: HostRuntime) -> Result<(), Fail> {
    let mut force = InForce::new(rt.alloc());
    let first = Id::of(b"a").ok_or("an ID")?;
    let second = Id::of(b"b").ok_or("an ID")?;
    assert!(rt; force.put(first, zone(5)) == Ok(()));
    assert!(rt; force.put(second, zone(5)) == Ok(()));
    assert!(rt; force.take(second) == Ok(zone(5)));
    assert!(rt; force.get(first) == Some(zone(5)) && force.get(second).is_none());
    assert!(rt; force.take(first) == Ok(zone(5)) && force.len() == 0);
    Ok(())
}

#[test]
fn room_is_reserved(rt: HostRuntime) -> Result<(), Fail> {
    let mut force = InForce::new(rt.alloc());
    assert!(rt; force.reserve(3) == Ok(()));
    assert!(rt; force.reserve(2) == Ok(()) && force.spare() == 3);
    let id = Id::of(b"a").ok_or("an ID")?;
    assert!(rt; force.take(id) == Err(EditFault::Absent) && force.spare() == 3);
    assert!(rt; force.put(id, zone(0)) == Ok(()) && force.spare() == 2);
    assert!(rt; force.put(id, zone(0)) == Err(EditFault::Present) && force.spare() == 2);
    assert!(rt; force.reserve(usize::MAX).is_err() && force.spare() == 2);
    assert!(rt; force.take(id) == Ok(zone(0)) && force.spare() == 3);
    Ok(())
}

// As many as may be in force.
fn full(rt: &impl Abort, alloc: Global) -> InForce {
    let mut force = InForce::new(alloc);
    assert!(rt; force.reserve(10_000) == Ok(()));
    for n in 0..10_000 {
        if let Some(id) = numbered(n * 7919 % 10_000) {
            assert!(rt; force.put(id, zone(n)) == Ok(()));
        }
    }
    force
}

#[test]
fn no_more_than_ten_thousand(rt: HostRuntime) -> Result<(), Fail> {
    let mut force = full(&rt, rt.alloc());
    assert!(rt; force.len() == 10_000 && force.spare() == 0);
    let present = numbered(5_000).ok_or("an ID")?;
    let further = numbered(10_000).ok_or("an ID")?;
    assert!(rt; force.put(present, zone(1)) == Err(EditFault::Present));
    assert!(rt; force.put(further, zone(1)) == Err(EditFault::Full));
    assert!(rt; force.get(further).is_none());
    let there = force.get(present);
    assert!(rt; there.is_some());
    assert!(rt; force.take(present).ok() == there && force.len() == 9_999);
    assert!(rt; force.put(further, zone(1)) == Ok(()));
    assert!(rt; force.put(present, zone(1)) == Err(EditFault::Full));
    assert!(rt; force.get(further) == Some(zone(1)));
    for n in 0..10_000 {
        let id = numbered(n * 7919 % 10_000).ok_or("an ID")?;
        let place = if id == present { None } else { Some(zone(n)) };
        assert!(rt; force.get(id) == place);
    }
    Ok(())
}

// The line and the code that a file is refused for on a line of ten metres; no line and no code
// where memory is wanted, and `None` where it is read.
fn refused(alloc: Global, bytes: &[u8]) -> Option<(u64, u32)> {
    match read_edits(alloc, bytes, 10) {
        Ok(_) => None,
        Err(EditsFault::Bad { place, code }) => Some((place, code)),
        Err(EditsFault::Memory) => Some((0, 0)),
    }
}

// A restriction from point 0 to point 5: its ID, and its speed.
type Slow<'a> = (&'a [u8], u32);

// Whether a file is read on a line of ten metres, and exactly these are in force then.
fn leaves(alloc: Global, bytes: &[u8], rows: &[Slow]) -> bool {
    let Ok(force) = read_edits(alloc, bytes, 10) else {
        return false;
    };
    let mut same = force.len() as usize == rows.len();
    for (place, row) in rows.iter().enumerate() {
        if place < force.len() as usize {
            let (id, zone) = force.nth(place as u32);
            let wanted = Zone {
                from: 0,
                to: 5,
                kmh: row.1,
            };
            same = same && id.bytes() == row.0 && zone == wanted;
        }
    }
    same
}

#[test]
fn files_that_are_read(rt: HostRuntime) -> Result<(), Fail> {
    let none = [];
    let first = [(b"a".as_slice(), 50)];
    let again = [(b"a".as_slice(), 40)];
    let three = [(b"b".as_slice(), 50), (b"c", 30), (b"a", 20)];
    let rows = [
        (b"".as_slice(), none.as_slice()),
        (b"put a 0 5 50", &first),
        (b"put a 0 5 50\n", &first),
        (b"put a 0 5 50\r", &first),
        (b"put a 0 5 50\ntake a", &none),
        (b"put a 0 5 50\ntake a\r", &none),
        (b"put a 0 5 50\r\ntake a\r\nput a 0 5 40\r\n", &again),
        (
            b"put b 0 5 50\nput a 0 5 40\n  put  c 0 5 30 \ntake a\nput a 0 5 20",
            &three,
        ),
    ];
    for (bytes, slow) in rows {
        assert!(rt; leaves(rt.alloc(), bytes, slow));
    }
    Ok(())
}

#[test]
fn files_that_are_refused(rt: HostRuntime) -> Result<(), Fail> {
    let rows = [
        (b"put a 0 5 50\nput a 0 5 40\n".as_slice(), (2, 4)),
        (b"take a\n", (1, 5)),
        (b"put a 0 5 50\ntake a\ntake a", (3, 5)),
        (b"\n", (1, 2)),
        (b"\r", (1, 2)),
        (b"\r\n", (1, 2)),
        (b" ", (1, 2)),
        (b"put a 0 5 50\n\n", (2, 2)),
        (b"put a 0 5 50\n\nput a 0 5 50", (2, 2)),
        (b"put a 0 5 50\r\n\r\n", (2, 2)),
        (b"put a 0 5\n", (1, 2)),
        (b"puts a 0 5 50", (1, 2)),
        (b"envelope\n", (1, 2)),
        (b"put a 0 5 50\ntimetable", (2, 2)),
        (b"cert", (1, 2)),
        (b"time End", (1, 2)),
        (b"put a! 0 5 50\n", (1, 3)),
        (b"put a 0 5 501\n", (1, 3)),
        (b"put a 0 11 50\n", (1, 3)),
        (b"put a 0 5 50\rput b 0 5 50", (1, 2)),
        (b"\r\r\n", (1, 2)),
        (b"take a\r\r\n", (1, 3)),
        (b"put a 0 5 50\r\r", (1, 3)),
        (b"take b\nput a 0 5 501\nenvelope", (1, 5)),
        (b"put a 0 5 50\nenvelope\ntake b\nput a 0 5 50", (2, 2)),
    ];
    for (bytes, fault) in rows {
        assert!(rt; refused(rt.alloc(), bytes) == Some(fault));
    }
    Ok(())
}

#[test]
fn lines_of_files_have_at_most_200_bytes(rt: HostRuntime) -> Result<(), Fail> {
    let mut file = [b' '; 203];
    file[..12].copy_from_slice(b"put a 0 5 50");
    let slow = [(b"a".as_slice(), 50)];
    assert!(rt; leaves(rt.alloc(), &file[..200], &slow));
    assert!(rt; refused(rt.alloc(), &file[..201]) == Some((1, 1)));
    file[200] = b'\r';
    assert!(rt; leaves(rt.alloc(), &file[..201], &slow));
    file[201] = b'\n';
    assert!(rt; leaves(rt.alloc(), &file[..202], &slow));
    file[201] = b'\r';
    file[202] = b'\n';
    assert!(rt; refused(rt.alloc(), &file) == Some((1, 1)));
    file[200] = b'\n';
    assert!(rt; refused(rt.alloc(), &file) == Some((2, 2)));
    Ok(())
}

#[test]
fn a_very_long_line(rt: HostRuntime) -> Result<(), Fail> {
    let mut file = Vec::new(rt.alloc());
    file.extend_from_slice(b"put a 0 5 50\n")?;
    file.resize(1_000_000 + file.len(), b'x')?;
    assert!(rt; refused(rt.alloc(), &file) == Some((2, 1)));
    file.extend_from_slice(b"\ntake b\n")?;
    assert!(rt; refused(rt.alloc(), &file) == Some((2, 1)));
    Ok(())
}

// So many lines `put rN 0 5 50`, with N from 0.
fn many(alloc: Global, count: u32) -> Result<Vec<u8>, AllocError> {
    let mut file = Vec::new(alloc);
    for n in 0..count {
        let line = format!(in alloc; "put r{n} 0 5 50\n")?;
        file.extend_from_slice(line.as_bytes())?;
    }
    Ok(file)
}

#[test]
fn files_of_ten_thousand_lines(rt: HostRuntime) -> Result<(), Fail> {
    let mut file = many(rt.alloc(), 10_001)?;
    assert!(rt; refused(rt.alloc(), &file) == Some((10_001, 6)));
    file.extend_from_slice(b"take r0\n")?;
    assert!(rt; refused(rt.alloc(), &file) == Some((10_001, 6)));
    let mut file = many(rt.alloc(), 10_000)?;
    assert!(rt; refused(rt.alloc(), &file).is_none());
    file.extend_from_slice(b"put r9999 0 5 50\n")?;
    assert!(rt; refused(rt.alloc(), &file) == Some((10_001, 4)));
    let mut file = many(rt.alloc(), 10_000)?;
    file.extend_from_slice(b"take r77\nput r77 0 5 40\nput r77 0 5 40")?;
    assert!(rt; refused(rt.alloc(), &file) == Some((10_003, 4)));
    Ok(())
}
