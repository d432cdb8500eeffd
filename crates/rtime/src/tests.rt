//! What no clause of `run` says: that a run succeeds where memory is found, and what it writes where a
//! call of the outside fails.

ghost use Rattle.std.specs.Prelude.{◌<◌};

use super::*;
use run_io::{MemShelf, MemSink, MemSource};
use std::alloc::{AllocError, Global};
use std::test::Fail;

const LIM: &[u8] = b"line,Lim,4\nlimit,1,2,36\n";

// The caps of that line for a train of 1 m and 60 km/h, by the rule: the limit binds at points 1 to 3.
const CAPS: &[u8] = b"0 36000000\n1 12960000\n2 12960000\n3 12960000\n4 36000000\n";

const TEN: &[u8] = b"line,Ten,10\n";

const TWO: &[u8] = b"line,Two,2\npoint,2,End\n";

const HILL: &[u8] = b"line,Hill,1000\ngradient,50,1000,100\n";

// On the level full effort adds 20000 to its squared speed in each metre, and its brakes take 25920.
const TOY: &[u8] =
    b"mass = 259200\nrotating = 0\nlength = 10\ntop = 60\neffort = [[0, 20000], [60, 20000]]\nresistance = [0, 0, 0]\nbrake = [[0, 100], [60, 100]]\n";

// Its fastest run over ten level metres.
pub(crate) const RUN: &[u8] =
    b"0 0\n1 20000\n2 40000\n3 60000\n4 80000\n5 100000\n6 103680\n7 77760\n8 51840\n9 25920\n10 0\n";

// The outside of a case: the calls of the shelf that fail, the room of the sink, the bytes that it
// takes at a call, and its calls that fail.
type Outside = (&'static [u64], usize, usize, &'static [u64]);

const FINE: Outside = (&[], 1000, 1000, &[]);

const FIRST_FETCH_FAILS: Outside = (&[1], 1000, 1000, &[]);

const SECOND_FETCH_FAILS: Outside = (&[2], 1000, 1000, &[]);

const SMALL: Outside = (&[], 4, 1000, &[]);

const SLOW: Outside = (&[], 1000, 3, &[]);

const FIRST_WRITE_FAILS: Outside = (&[], 1000, 1000, &[1]);

const THIRD_WRITE_FAILS: Outside = (&[], 1000, 4, &[3]);

// A case: the words, the outside, the status, and the text.
type Case = (&'static str, Outside, Status, &'static [u8]);

const LIMITED: &str = "caps lim.csv 1 60";

const FREE: &str = "envelope ten.csv toy.toml";

const STEEP: &str = "envelope hill.csv toy.toml";

const SHORT: &str = "envelope short.csv none.toml";

const TOO_SHORT: Status = Status::Refused {
    file: 1,
    place: 1,
    rule: 4,
};

const CASES: [Case; 18] = [
    (LIMITED, FINE, Status::Done, CAPS),
    (LIMITED, SLOW, Status::Done, CAPS),
    ("caps absent.csv 1 60", FINE, Status::ReadFault, b""),
    ("caps", FIRST_FETCH_FAILS, Status::Usage, b"usage\n"),
    ("", SMALL, Status::WriteFault, b"usag"),
    (FREE, FINE, Status::Done, RUN),
    (FREE, SLOW, Status::Done, RUN),
    (FREE, THIRD_WRITE_FAILS, Status::WriteFault, b"0 0\n1 20"),
    (FREE, SMALL, Status::WriteFault, b"0 0\n"),
    (FREE, FIRST_FETCH_FAILS, Status::ReadFault, b""),
    (FREE, SECOND_FETCH_FAILS, Status::ReadFault, b""),
    ("envelope ten.csv none.toml", FINE, Status::ReadFault, b""),
    (
        STEEP,
        FINE,
        Status::Stalled { point: 256 },
        b"stalled 256\n",
    ),
    (STEEP, THIRD_WRITE_FAILS, Status::WriteFault, b"stalled "),
    // the line file is judged before the stock file, which isn't there
    (SHORT, FINE, TOO_SHORT, b"refused 1 1 4\n"),
    (SHORT, SMALL, Status::WriteFault, b"refu"),
    (SHORT, FIRST_WRITE_FAILS, Status::WriteFault, b""),
    (SHORT, FIRST_FETCH_FAILS, Status::ReadFault, b""),
];

// The files that the words of the cases name.
const FILES: [(&str, &[u8]); 7] = [
    ("lim.csv", LIM),
    ("ten.csv", TEN),
    ("two.csv", TWO),
    ("hill.csv", HILL),
    ("short.csv", b"line,Short,1\n"),
    ("toy.toml", TOY),
    ("none.csv", b""),
];

fn file_at(alloc: Global, place: usize) -> Result<(String, Vec<u8>), AllocError>
    requires { place < 7 }
{
    let (name, bytes) = FILES[place];
    let name = String::from_str(alloc, name)?;
    match Vec::from_slice(alloc, bytes) {
        Ok(bytes) => Ok((name, bytes)),
        Err(error) => Err(error),
    }
}

pub(crate) fn all_files(alloc: Global) -> Result<Vec<(String, Vec<u8>)>, AllocError> {
    let mut files = Vec::new(alloc);
    for place in 0..7 {
        files.push(file_at(alloc, place)?)?;
    }
    Ok(files)
}

fn shelf_with(alloc: Global, failing: &[u64]) -> Result<MemShelf, AllocError> {
    let files = all_files(alloc)?;
    match Vec::from_slice(alloc, failing) {
        Ok(failing) => Ok(MemShelf::new(files, failing)),
        Err(error) => Err(error),
    }
}

pub(crate) fn words_of(alloc: Global, given: &str) -> Result<Vec<String>, AllocError> {
    let mut words = Vec::new(alloc);
    for word in given.split(' ') {
        words.push(String::from_str(alloc, word)?)?;
    }
    Ok(words)
}

// A sink of so much room, that takes so many bytes at a call.
fn sink_with(alloc: Global, room: usize, most: usize, failing: &[u64]) -> Option<MemSink> {
    match Vec::from_slice(alloc, failing) {
        Ok(failing) => MemSink::new(alloc, room, most.max(1), failing).ok(),
        Err(_) => None,
    }
}

// Whether words end so over a shelf and a sink.
fn ends_over(
    alloc: Global,
    words: &[String],
    shelf: &mut MemShelf,
    out: &mut MemSink,
    wanted: Status,
    text: &[u8],
) -> bool {
    let mut input = MemSource::new(Vec::new(alloc), 1, Vec::new(alloc));
    let status = start::<_, _, _, Brand>(alloc, words, shelf, &mut input, out, Blank::new(1));
    status == wanted && out.written() == text
}

// Whether a case ends with its status and its text.
fn ends_so(alloc: Global, case: &Case) -> Result<bool, AllocError> {
    let (given, (shelf_fails, room, most, sink_fails), wanted, text) = *case;
    let words = words_of(alloc, given)?;
    let mut shelf = shelf_with(alloc, shelf_fails)?;
    match sink_with(alloc, room, most, sink_fails) {
        Some(mut out) => Ok(ends_over(alloc, &words, &mut shelf, &mut out, wanted, text)),
        None => Ok(false),
    }
}

#[test]
fn statuses_and_texts(rt: HostRuntime) -> Result<(), Fail> {
    for place in 0..CASES.len() {
        assert!(rt; ends_so(rt.alloc(), &CASES[place])?, "case {place}");
    }
    Ok(())
}
