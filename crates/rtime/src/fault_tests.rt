//! What no clause of `run` says: that it calls nothing more once a call of the outside has failed.

use super::*;
use crate::tests::{RUN, all_files, words_of};
use run_io::{MemShelf, MemSink, MemSource};
use std::alloc::{AllocError, Global};
use std::test::Fail;

// The timetable of a train over two metres.
const TIMES: &[u8] =
    b"0 start 0 0 0 0 0 0 -\n2 end 10182291298 10182363300 10182291298 10182363300 0 10183 -\n";

// A restriction there that is put in force and taken out, and the replies, of a line each.
const ORDERS: &[u8] = b"time End\nput a 0 2 1\ntime End\ntake a\ntime End\n";

const REPLIES: &[u8] =
    b"time 10182291298 10182363300\nok whole\ntime 14400000000 14400000000\nok whole\ntime 10182291298 10182363300\n";

// A run: its words, its input, its text, and how many bytes the output takes at a call; and how often
// the shelf, the input and the output are called, where the input gives a byte at a call.
struct Tried {
    words: &'static str,
    input: &'static [u8],
    text: &'static [u8],
    most: usize,
    fetches: u64,
    reads: u64,
    writes: u64,
}

const RUNS: [Tried; 3] = [
    Tried {
        words: "envelope ten.csv toy.toml",
        input: b"",
        text: RUN,
        most: 4,
        fetches: 2,
        reads: 0,
        writes: 21,
    },
    Tried {
        words: "plan two.csv toy.toml none.csv --print timetable",
        input: b"",
        text: TIMES,
        most: 8,
        fetches: 3,
        reads: 0,
        writes: 11,
    },
    Tried {
        words: "session two.csv toy.toml none.csv",
        input: ORDERS,
        text: REPLIES,
        most: 100,
        fetches: 3,
        reads: 47,
        writes: 5,
    },
];

// The call that fails.
#[derive(Clone, Copy)]
enum Failing {
    Nothing,
    Fetch(u64),
    Read(u64),
    Write(u64),
}

// How a run ends, how often the shelf, the input and the output were called, and how many bytes were
// written.
#[derive(Clone, Copy, PartialEq, Eq)]
struct Ending {
    status: Status,
    fetches: u64,
    reads: u64,
    writes: u64,
    written: u64,
}

// How many lines end in the first bytes of a text.
fn lines_in(text: &[u8], bytes: u64) -> u64 {
    let mut lines = 0u64;
    let mut at = 0u64;
    for byte in text {
        if at < bytes && *byte == b'\n' {
            lines = lines.saturating_add(1);
        }
        at = at.saturating_add(1);
    }
    lines
}

// Behind how many bytes of a text so many of its lines have ended.
fn bytes_to(text: &[u8], lines: u64) -> u64 {
    let mut left = lines;
    let mut at = 0u64;
    for byte in text {
        if left > 0 {
            at = at.saturating_add(1);
        }
        if *byte == b'\n' {
            left = left.saturating_sub(1);
        }
    }
    at
}

// How a run ends where a read fails: it has replied to the lines that ended before.
fn ending_at_read(tried: &Tried, call: u64) -> Ending {
    let lines = lines_in(tried.input, call.saturating_sub(1));
    Ending {
        status: Status::ReadFault,
        fetches: tried.fetches,
        reads: call,
        writes: lines,
        written: bytes_to(tried.text, lines),
    }
}

// How a run ends where a write fails: a reply of a line is a write.
fn ending_at_write(tried: &Tried, call: u64) -> Ending {
    let before = call.saturating_sub(1);
    let written = if tried.input.is_empty() {
        before.saturating_mul(tried.most as u64)
    } else {
        bytes_to(tried.text, before)
    };
    Ending {
        status: Status::WriteFault,
        fetches: tried.fetches,
        reads: bytes_to(tried.input, call),
        writes: call,
        written,
    }
}

// How a run ends whose call fails: nothing is called behind it.
fn ending_at(tried: &Tried, failing: Failing) -> Ending {
    match failing {
        Failing::Nothing => Ending {
            status: Status::Done,
            fetches: tried.fetches,
            reads: tried.reads,
            writes: tried.writes,
            written: tried.text.len() as u64,
        },
        Failing::Fetch(call) => Ending {
            status: Status::ReadFault,
            fetches: call,
            reads: 0,
            writes: 0,
            written: 0,
        },
        Failing::Read(call) => ending_at_read(tried, call),
        Failing::Write(call) => ending_at_write(tried, call),
    }
}

// The numbers of the calls that fail of a device.
fn numbers(alloc: Global, call: Option<u64>) -> Result<Vec<u64>, AllocError> {
    let mut numbers = Vec::new(alloc);
    if let Some(call) = call {
        numbers.push(call)?;
    }
    Ok(numbers)
}

// The calls that fail of the shelf, the input and the output.
fn failing_calls(failing: Failing) -> [Option<u64>; 3] {
    match failing {
        Failing::Nothing => [None, None, None],
        Failing::Fetch(call) => [Some(call), None, None],
        Failing::Read(call) => [None, Some(call), None],
        Failing::Write(call) => [None, None, Some(call)],
    }
}

// Whether a run ends as it has to over a shelf, an input and an output.
fn ends_over(
    words: &[String],
    shelf: &mut MemShelf,
    input: &mut MemSource,
    out: &mut MemSink,
    text: &[u8],
    alloc: Global,
) -> Option<Ending> {
    let status = start::<_, _, _, Brand>(alloc, words, shelf, input, out, Blank::new(1));
    if !text.starts_with(out.written()) {
        return None;
    }
    Some(Ending {
        status,
        fetches: shelf.calls(),
        reads: input.calls(),
        writes: out.calls(),
        written: out.written().len() as u64,
    })
}

// Whether a run whose call fails ends as it has to, with a front of its text.
fn ends_so(alloc: Global, tried: &Tried, failing: Failing) -> Result<bool, AllocError> {
    let [fetch, read, write] = failing_calls(failing);
    let words = words_of(alloc, tried.words)?;
    let mut shelf = MemShelf::new(all_files(alloc)?, numbers(alloc, fetch)?);
    let bytes = match Vec::from_slice(alloc, tried.input) {
        Ok(bytes) => bytes,
        Err(error) => return Err(error),
    };
    let mut input = MemSource::new(bytes, 1, numbers(alloc, read)?);
    let Ok(mut out) = MemSink::new(alloc, 1000, tried.most.max(1), numbers(alloc, write)?) else {
        return Ok(false);
    };
    let ending = ends_over(&words, &mut shelf, &mut input, &mut out, tried.text, alloc);
    Ok(ending == Some(ending_at(tried, failing)))
}

#[test]
fn nothing_is_called_behind_a_fault(rt: HostRuntime) -> Result<(), Fail> {
    let alloc = rt.alloc();
    for place in 0..3 {
        let tried = &RUNS[place];
        assert!(rt; ends_so(alloc, tried, Failing::Nothing)?, "run {place}");
        for call in 0..tried.fetches {
            assert!(rt;
                ends_so(alloc, tried, Failing::Fetch(call + 1))?,
                "run {place}, fetch"
            );
        }
        for call in 0..tried.reads {
            assert!(rt;
                ends_so(alloc, tried, Failing::Read(call + 1))?,
                "run {place}, read"
            );
        }
        for call in 0..tried.writes {
            assert!(rt;
                ends_so(alloc, tried, Failing::Write(call + 1))?,
                "run {place}, write"
            );
        }
    }
    Ok(())
}
