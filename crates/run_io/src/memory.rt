//! A shelf, a source and a sink in memory. Their calls are numbered from 1, and those that are named
//! fail.

ghost use Rattle.std.specs.Prelude.{option_map, IfErr, ◌≢◌, ◌^◌, ◌≡◌, ◌≤◌, ◌<◌, ◌-◌, ◌++◌, ◌↔◌, ℕ, List, [], length, map, min, take, drop, Some, IfOk, IsErr, Contains, OnErr, string_bytes};
ghost use Rattle.std.specs.Io.{ReadsAtMost};
ghost use Rattle.std.specs.Io.KnownBytes.{ReadConsumes, WriteAppends};
ghost use Rattle.run_io.specs.Fetches.{FetchCause, Fetches};
ghost use Rattle.run_io.specs.InMemory.{ShelfAfter, WriteFails, find_file, shelf_told, sink_told, source_told};
ghost use Rattle.run_io.specs.Told.{HasCause, one_more};
ghost use Rattle.run_io.specs.Writes.{TakesSome};

use crate::{Failed, Fetch, Shelf, Sink, Source};
use std::alloc::Global;
use std::marker::Model;
use unit_rules::Memory;

/// A sink with room for some bytes, of which it takes at most `most` at a call.
#[derive(Drop)]
pub struct MemSink {
    bytes: Vec<u8>,
    room: usize,
    most: usize,
    failing: Vec<u64>,
    calls: u64,
    faults: u64,
}

impl Model for MemSink {
    ghost use Rattle.std.specs.Prelude.{◌≤◌, vec_capacity, vec_len};
    ghost use Rattle.run_io.specs.InMemory.{SinkState};

    ghost Value = { SinkState };

    ghost view = { λ s. record {
      written = s.bytes.items;
      room = s.room;
      most = s.most;
      failing = s.failing.items;
      calls = s.calls;
      faults = s.faults;
    } };

    ghost invariant = { λ s. (vec_len s.bytes ≤ s.room) × (s.room ≤ vec_capacity s.bytes)
        × (1 ≤ s.most) };
}

impl MemSink {
    /// Takes memory for all its room at once.
    pub fn new(
        alloc: Global,
        room: usize,
        most: usize,
        failing: Vec<u64>,
    ) -> Result<MemSink, Memory>
        requires { 1 ≤ most }
        ensures { IfOk result (λ s. s ≡ record {
          written = [];
          room = room;
          most = most;
          failing = failing.items;
          calls = 0;
          faults = 0;
        }) }
    {
        match Vec::with_capacity(alloc, room) {
            Ok(bytes) => Ok(MemSink {
                bytes,
                room,
                most,
                failing,
                calls: 0,
                faults: 0,
            }),
            Err(_) => Err(Memory),
        }
    }

    /// The bytes written.
    pub fn written(&self) -> &[u8]
        ensures { result.now ≡ self.now.written }
    {
        self.bytes.as_slice()
    }

    /// How often it was called, up to the end of that count's type.
    pub fn calls(&self) -> u64
        ensures { result ≡ self.now.calls }
    {
        self.calls
    }
}

impl Sink for MemSink {
    ghost told = { sink_told };

    fn write(&mut self, piece: &[u8]) -> Result<usize, Failed>
        requires { 0 < length piece.now }
        ensures bound { TakesSome result piece.now }
        ensures bytes { WriteAppends (sink_told self.old).holds (sink_told self.new).holds
            result piece.now }
        ensures cause { HasCause (sink_told self.old) (sink_told self.new) result }
        ensures fails { IsErr result ↔ WriteFails self.old }
        ensures ok { IfOk result (λ n.
            (n ≡ min (min (length piece.now) (self.old.room - length self.old.written)) self.old.most)
            × (self.new ≡ record self.old {
              written = self.old.written ++ take n piece.now;
              calls = one_more self.old.calls;
            })) }
        ensures err { OnErr result (self.new ≡ record self.old {
          calls = one_more self.old.calls;
          faults = one_more self.old.faults;
        }) }
    {
        self.calls = self.calls.saturating_add(1);
        let free = self.room - self.bytes.len();
        if free == 0 || self.failing.contains(&self.calls) {
            self.faults = self.faults.saturating_add(1);
            return Err(Failed);
        }
        let count = piece.len().min(free).min(self.most);
        match self.bytes.extend_from_slice(&piece[..count]) {
            Ok(()) => Ok(count),
            Err(_) => unreachable!(),
        }
    }
}

/// A source of some bytes, of which it gives at most `most` at a call.
#[derive(Drop)]
pub struct MemSource {
    bytes: Vec<u8>,
    at: usize,
    most: usize,
    failing: Vec<u64>,
    calls: u64,
    faults: u64,
}

impl Model for MemSource {
    ghost use Rattle.std.specs.Prelude.{◌≤◌, drop, vec_len};
    ghost use Rattle.run_io.specs.InMemory.{SourceState};

    ghost Value = { SourceState };

    ghost view = { λ s. record {
      left = drop s.at s.bytes.items;
      most = s.most;
      failing = s.failing.items;
      calls = s.calls;
      faults = s.faults;
    } };

    ghost invariant = { λ s. (s.at ≤ vec_len s.bytes) × (1 ≤ s.most) };
}

impl MemSource {
    pub fn new(bytes: Vec<u8>, most: usize, failing: Vec<u64>) -> MemSource
        requires { 1 ≤ most }
        ensures { result ≡ record {
          left = bytes.items;
          most = most;
          failing = failing.items;
          calls = 0;
          faults = 0;
        } }
    {
        MemSource {
            bytes,
            at: 0,
            most,
            failing,
            calls: 0,
            faults: 0,
        }
    }

    /// How often it was called, up to the end of that count's type.
    pub fn calls(&self) -> u64
        ensures { result ≡ self.now.calls }
    {
        self.calls
    }
}

impl Source for MemSource {
    ghost told = { source_told };

    fn read(&mut self, buf: &mut [u8]) -> Result<usize, Failed>
        requires { 0 < length buf.old }
        ensures bound { ReadsAtMost result buf.new }
        ensures bytes { ReadConsumes (source_told self.old).holds (source_told self.new).holds
            result buf.new }
        ensures cause { HasCause (source_told self.old) (source_told self.new) result }
        ensures fails { IsErr result ↔ Contains self.old.failing (one_more self.old.calls) }
        ensures ok { IfOk result (λ n.
            (n ≡ min (min (length buf.old) (length self.old.left)) self.old.most)
            × (self.new ≡ record self.old {
              left = drop n self.old.left;
              calls = one_more self.old.calls;
            })) }
        ensures err { OnErr result (self.new ≡ record self.old {
          calls = one_more self.old.calls;
          faults = one_more self.old.faults;
        }) }
    {
        self.calls = self.calls.saturating_add(1);
        if self.failing.contains(&self.calls) {
            self.faults = self.faults.saturating_add(1);
            return Err(Failed);
        }
        let count = buf.len().min(self.bytes.len() - self.at).min(self.most);
        let end = self.at + count;
        buf[..count].copy_from_slice(&self.bytes[self.at..end]);
        self.at = end;
        Ok(count)
    }
}

/// A shelf of some files, of which the first of a name counts.
#[derive(Drop)]
pub struct MemShelf {
    files: Vec<(String, Vec<u8>)>,
    failing: Vec<u64>,
    calls: u64,
    faults: u64,
}

impl Model for MemShelf {
    ghost use Rattle.std.specs.Prelude.{map, string_bytes};
    ghost use Rattle.run_io.specs.InMemory.{ShelfState};

    ghost Value = { ShelfState };

    ghost view = { λ s. record {
      files = map (λ f. (string_bytes f.0, f.1.items)) s.files.items;
      failing = s.failing.items;
      calls = s.calls;
      faults = s.faults;
    } };
}

impl MemShelf {
    pub fn new(files: Vec<(String, Vec<u8>)>, failing: Vec<u64>) -> MemShelf
        ensures { result ≡ record {
          files = map (λ f. (string_bytes f.0, f.1.items)) files.items;
          failing = failing.items;
          calls = 0;
          faults = 0;
        } }
    {
        MemShelf {
            files,
            failing,
            calls: 0,
            faults: 0,
        }
    }

    /// How often it was called, up to the end of that count's type.
    pub fn calls(&self) -> u64
        ensures { result ≡ self.now.calls }
    {
        self.calls
    }
}

// The bytes of the first file of a name.
fn find_file<'a>(files: &'a [(String, Vec<u8>)], name: &str) -> Option<&'a [u8]>
    ensures { option_map (λ s. s.now) result
        ≡ find_file (map (λ f. (string_bytes f.0, f.1.items)) files.now) name.now }
{
    for file in files {
        if file.0.as_str() == name {
            return Some(file.1.as_slice());
        }
    }
    None
}

// Puts at most so many bytes of a file into an empty vector, or one byte more.
fn copy_file(file: &[u8], most: u64, into: &mut Vec<u8>) -> Result<(), Fetch>
    requires empty { into.old.items ≡ [] }
    requires small { most ≤ 2 ^ 40 }
    ensures bytes { Fetches (Some (λ n. Some file.now)) [] most result into.new.items }
    ensures known { IfErr result (λ e. (e ≢ Fetch.Failed) × (e ≢ Fetch.Absent)) }
{
    let most = most as usize;
    let (front, answer) = if file.len() <= most {
        (file, Ok(()))
    } else {
        (&file[..most + 1], Err(Fetch::TooLong))
    };
    match into.extend_from_slice(front) {
        Ok(()) => answer,
        Err(_) => Err(Fetch::Memory),
    }
}

impl Shelf for MemShelf {
    ghost told = { shelf_told };

    ghost asked = { λ s. s.calls };

    fn fetch(&mut self, name: &str, most: u64, into: &mut Vec<u8>) -> Result<(), Fetch>
        requires empty { into.old.items ≡ [] }
        requires small { most ≤ 2 ^ 40 }
        ensures files { (shelf_told self.new).holds ≡ (shelf_told self.old).holds }
        ensures bytes { Fetches (shelf_told self.old).holds name.now most result into.new.items }
        ensures cause { FetchCause (shelf_told self.old) (shelf_told self.new) result }
        ensures fails { (result ≡ Err Fetch.Failed) ↔ Contains self.old.failing
            (one_more self.old.calls) }
        ensures after { ShelfAfter self.old self.new result }
        ensures asks { self.new.calls ≡ one_more self.old.calls }
    {
        self.calls = self.calls.saturating_add(1);
        if self.failing.contains(&self.calls) {
            self.faults = self.faults.saturating_add(1);
            return Err(Fetch::Failed);
        }
        match find_file(self.files.as_slice(), name) {
            Some(file) => copy_file(file, most, into),
            None => Err(Fetch::Absent),
        }
    }
}
