//! The outside of a run: a shelf of files, a source of input and a sink of output, each with a count
//! of its faults; their forms in memory and their real adapters; and lines and rows of text, which go
//! out in blocks.
#![tactic(auto)]

ghost use Rattle.std.specs.Prelude.{◌≡◌, ℕ, ◌^◌, ◌<◌, ◌≤◌, List, [], length, Option, OnOk, OnErr};
ghost use Rattle.std.specs.Io.{ReadsAtMost};
ghost use Rattle.std.specs.Io.KnownBytes.{ReadConsumes, WriteAppends};
ghost use Rattle.run_io.specs.Fetches.{FetchCause, Fetches, Files};
ghost use Rattle.run_io.specs.Told.{HasCause, Told, Writes, WritesFront, one_more};
ghost use Rattle.run_io.specs.Writes.{TakesSome};

mod blocks;
mod host;
mod memory;
mod rows;

pub use blocks::{BLOCK, Block};
pub use host::{HostShelf, HostSink, HostSource};
pub use memory::{MemShelf, MemSink, MemSource};
pub use rows::{ROW, Rows, write_rows};

/// A read or a write failed.
#[derive(Clone, Copy, Debug, PartialEq, Eq)]
pub struct Failed;

/// Why a file was not fetched.
#[derive(Clone, Copy, Debug, PartialEq, Eq)]
pub enum Fetch {
    /// The shelf failed.
    Failed,
    /// There is no file of that name.
    Absent,
    /// The file has more bytes than were asked for.
    TooLong,
    Memory,
}

/// A shelf of named files.
pub trait Shelf {
    /// The files, where they are told, and how often the shelf has failed. No call changes the files.
    ghost told: { Self → Told Files };

    /// How often it was asked for a file, up to the end of that count's type.
    ghost asked: { Self → ℕ };

    /// Fetches a file of at most `most` bytes into an empty vector. After [`Fetch::TooLong`] there
    /// is one byte more, and after the other refusals nothing is said of `into`.
    fn fetch(&mut self, name: &str, most: u64, into: &mut Vec<u8>) -> Result<(), Fetch>
        requires empty { into.old.items ≡ [] }
        requires small { most ≤ 2 ^ 40 }
        ensures files { (told self.new).holds ≡ (told self.old).holds }
        ensures bytes { Fetches (told self.old).holds name.now most result into.new.items }
        ensures cause { FetchCause (told self.old) (told self.new) result }
        ensures asks { asked self.new ≡ one_more (asked self.old) };
}

/// A source of input.
pub trait Source {
    /// The bytes that are left, where they are told, and how often the source has failed.
    ghost told: { Self → Told (List ℕ) };

    /// Reads the next bytes into the front of the buffer; none only at the end of the input. A
    /// failure takes nothing.
    fn read(&mut self, buf: &mut [u8]) -> Result<usize, Failed>
        requires { 0 < length buf.old }
        ensures bound { ReadsAtMost result buf.new }
        ensures bytes { ReadConsumes (told self.old).holds (told self.new).holds result buf.new }
        ensures cause { HasCause (told self.old) (told self.new) result };
}

/// A sink of output.
pub trait Sink {
    /// The bytes written, where they are told, and how often the sink has failed.
    ghost told: { Self → Told (List ℕ) };

    /// Writes a front of the piece, of at least one byte. A failure writes nothing.
    fn write(&mut self, piece: &[u8]) -> Result<usize, Failed>
        requires { 0 < length piece.now }
        ensures bound { TakesSome result piece.now }
        ensures bytes { WriteAppends (told self.old).holds (told self.new).holds result piece.now }
        ensures cause { HasCause (told self.old) (told self.new) result };
}

/// Writes the whole piece. After a failure a front of it was written.
pub fn write_whole<K: Sink>(out: &mut K, piece: &[u8]) -> Result<(), Failed>
    ensures ok { OnOk result (Writes (K.told out.old) (K.told out.new) piece.now) }
    ensures failed { OnErr result (WritesFront (K.told out.old) (K.told out.new) piece.now) }
    ensures cause { HasCause (K.told out.old) (K.told out.new) result }
{
    let mut at = 0;
    while at < piece.len() {
        let count = out.write(&piece[at..])?;
        at += count;
    }
    Ok(())
}

#[cfg(test)]
mod tests;
