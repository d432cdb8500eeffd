//! What no clause says: that a session gets on where memory is found and nothing fails. And what lines
//! are, in bytes.

ghost use Rattle.std.specs.Prelude.{◌≡◌, ◌<◌};

use super::*;
use run_io::{MemSink, MemSource, write_whole};
use std::alloc::{AllocError, Global};
use std::marker::Brand;
use std::sync::ledger::Blank;
use std::test::Fail;

// Answers a line by one byte, its length, or 201 where it has more than 200 bytes. A line of nine bytes
// wants memory, and there is none.
#[derive(Drop)]
struct Lengths;

impl Responder for Lengths {
    ghost use Rattle.std.specs.Prelude.{ℕ, [], ◌∷◌, length, min};
    ghost use Rattle.std.proofs.Common.{arith, refl};

    ghost State = { Unit {0} };

    ghost Asked = { ℕ };

    ghost dialogue = { record {
      asked = λ s line. min (length line) 201;
      next = λ s a. s;
      replies = λ s a t. t ≡ a ∷ [];
      allows = λ s a n. n ≡ 1;
      wants = λ a. a ≡ 9;
    } };

    ghost stands = { λ s. tt };

    ghost law = { λ s. Unit {0} };

    fn respond<K: Sink, L: Ledger>(
        &mut self,
        line: &[u8],
        out: &mut K,
        steps: &mut Steps<L>,
    ) -> Result<(), Stop> {
        steps.tick();
        let length = line.len().min(201) as u8;
        if length == 9 {
            return Err(Stop::Memory);
        }
        match write_whole(out, &[length]) {
            Ok(()) => Ok(()),
            Err(_) => Err(Stop::Write),
        }
    }

    ghost lawful = { record {
      alike = λ s a b p q. omega arith;
      stays = λ s line l. tt;
      replied = λ s line l. (min (length line) 201 ∷ [], refl);
      allowed = λ s line l. (1, refl);
    } };
}

// The outside of a case: how many bytes a read gives, the reads that fail, the room of the sink, and
// its writes that fail.
type Outside = (usize, &'static [u64], usize, &'static [u64]);

const BYTES: Outside = (1, &[], 9000, &[]);

const PIECES: Outside = (5, &[], 9000, &[]);

const WHOLE: Outside = (9000, &[], 9000, &[]);

const SECOND_READ_FAILS: Outside = (5, &[2], 9000, &[]);

const SECOND_WRITE_FAILS: Outside = (5, &[], 9000, &[2]);

const SMALL: Outside = (9000, &[], 1, &[]);

// A case: the input, the outside, how the session ends, and what it wrote.
type Case = (&'static [u8], Outside, Ending, &'static [u8]);

const MIXED: &[u8] = b"ab\r\n\nc\rd\r\r\n\ne";

const CASES: [Case; 16] = [
    (b"", BYTES, Ending::Done, b""),
    (b"\n", WHOLE, Ending::Done, b"\x00"),
    (b"\r", WHOLE, Ending::Done, b"\x00"),
    (b"abc\r", BYTES, Ending::Done, b"\x03"),
    (MIXED, BYTES, Ending::Done, b"\x02\x00\x04\x00\x01"),
    (MIXED, PIECES, Ending::Done, b"\x02\x00\x04\x00\x01"),
    (MIXED, WHOLE, Ending::Done, b"\x02\x00\x04\x00\x01"),
    (&[b'x'; 10_000], WHOLE, Ending::Done, b"\xc9"),
    (&[b'\n'; 5_000], WHOLE, Ending::Done, &[0; 5_000]),
    (b"a\nbcdefghij\nk", PIECES, Ending::Memory, b"\x01"),
    (b"a\nbcdefghij\r", PIECES, Ending::Memory, b"\x01"),
    (
        b"a\nbc\nd",
        SECOND_READ_FAILS,
        Ending::ReadFault,
        b"\x01\x02",
    ),
    (b"a\nbcd\ne", SECOND_READ_FAILS, Ending::ReadFault, b"\x01"),
    (b"a\nbc\nd", SECOND_WRITE_FAILS, Ending::WriteFault, b"\x01"),
    (b"a\nbc\nd", SMALL, Ending::WriteFault, b"\x01"),
    (b"a\nb", SMALL, Ending::WriteFault, b"\x01"),
];

// How a session over an input ends.
fn ending<L: Ledger>(input: &mut MemSource, out: &mut MemSink, blank: Blank) -> Ending
    requires name { blank.name ≡ L.name }
    requires parts { blank.parts ≡ L.parts }
    requires one { blank.parts ≡ 1 }
{
    let mut steps = Steps::<L>::new(blank);
    answer_lines(&mut Lengths, input, out, &mut steps)
}

// Whether a session over an input ends so, and has written the text.
fn ends_over(input: &mut MemSource, out: &mut MemSink, wanted: Ending, text: &[u8]) -> bool {
    let ended = ending::<Brand>(input, out, Blank::new(1));
    ended == wanted && out.written() == text
}

// Whether a case ends as it says.
fn ends_so(alloc: Global, case: &Case) -> Result<bool, AllocError> {
    let (bytes, (most, read_fails, room, write_fails), wanted, text) = *case;
    let bytes = Vec::from_slice(alloc, bytes)?;
    let read_fails = Vec::from_slice(alloc, read_fails)?;
    let write_fails = Vec::from_slice(alloc, write_fails)?;
    let mut input = MemSource::new(bytes, most.max(1), read_fails);
    let Ok(mut out) = MemSink::new(alloc, room, 9000, write_fails) else {
        return Ok(false);
    };
    Ok(ends_over(&mut input, &mut out, wanted, text))
}

#[test]
fn lines_and_endings(rt: HostRuntime) -> Result<(), Fail> {
    for place in 0..CASES.len() {
        assert!(rt; ends_so(rt.alloc(), &CASES[place])?, "case {place}");
    }
    Ok(())
}
