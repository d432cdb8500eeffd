//! A shelf, a source and a sink of the system. Each counts the errors of std, and the shelf how often
//! it was asked. Of a file they tell no bytes.

ghost use Rattle.std.specs.Prelude.{◌≡◌, ◌≢◌, ◌≤◌, ◌<◌, ◌^◌, [], None, Some, IfErr, IfSome, OnOk, length, option_map, take};
ghost use Rattle.std.specs.Io.{ReadsAtMost};
ghost use Rattle.std.specs.Io.KnownBytes.{ReadConsumes, WriteAppends};
ghost use Rattle.run_io.specs.Fetches.{FetchCause, FetchCounts, Fetches};
ghost use Rattle.run_io.specs.InHost.{host_shelf_told, host_sink_told, host_source_told};
ghost use Rattle.run_io.specs.Told.{Counts, HasCause, one_more};
ghost use Rattle.run_io.specs.Writes.{TakesSome};

use crate::{Failed, Fetch, Shelf, Sink, Source};
use std::fs;
use std::io::{Read, Write};
use std::rt::Files;

/// The files of the system, by their paths.
#[derive(Drop)]
pub struct HostShelf<R: Files> {
    rt: R,
    asked: u64,
    faults: u64,
}

impl<R: Files> HostShelf<R> {
    pub fn new(rt: R) -> HostShelf<R>
        ensures told { host_shelf_told result ≡ record { holds = None; faults = 0 } }
        ensures asked { result.asked ≡ 0 }
    {
        HostShelf {
            rt,
            asked: 0,
            faults: 0,
        }
    }
}

// Reads the front of what is left of a file, of so many bytes, or all where there are no more.
fn read_front<S: Source>(file: &mut S, most: usize, into: &mut Vec<u8>) -> Result<(), Fetch>
    requires empty { into.old.items ≡ [] }
    ensures bound { length into.new.items ≤ most }
    ensures front { OnOk result (IfSome (S.told file.old).holds
        (λ left. into.new.items ≡ take most left)) }
    ensures cause { FetchCause (S.told file.old) (S.told file.new) result }
    ensures known { IfErr result (λ e. (e ≢ Fetch.Absent) × (e ≢ Fetch.TooLong)) }
{
    let mut buf = [0u8; 65536];
    while into.len() < most {
        let count = match file.read(&mut buf) {
            Ok(0) => return Ok(()),
            Ok(count) => count.min(most - into.len()),
            Err(_) => return Err(Fetch::Failed),
        };
        if into.extend_from_slice(&buf[..count]).is_err() {
            return Err(Fetch::Memory);
        }
    }
    Ok(())
}

// Fetches what is left of a file.
fn fetch_left<S: Source>(file: &mut S, most: u64, into: &mut Vec<u8>) -> Result<(), Fetch>
    requires empty { into.old.items ≡ [] }
    requires small { most ≤ 2 ^ 40 }
    ensures bytes { Fetches (option_map (λ left name. Some left) (S.told file.old).holds) [] most
        result into.new.items }
    ensures cause { FetchCause (S.told file.old) (S.told file.new) result }
    ensures known { IfErr result (λ e. e ≢ Fetch.Absent) }
{
    let most = most as usize;
    match read_front(file, most + 1, into) {
        Ok(()) if into.len() > most => Err(Fetch::TooLong),
        answer => answer,
    }
}

impl<R: Files> Shelf for HostShelf<R> {
    ghost told = { host_shelf_told };

    ghost asked = { λ s. s.asked };

    fn fetch(&mut self, name: &str, most: u64, into: &mut Vec<u8>) -> Result<(), Fetch>
        requires empty { into.old.items ≡ [] }
        requires small { most ≤ 2 ^ 40 }
        ensures files { (host_shelf_told self.new).holds ≡ (host_shelf_told self.old).holds }
        ensures bytes { Fetches (host_shelf_told self.old).holds name.now most result
            into.new.items }
        ensures cause { FetchCause (host_shelf_told self.old) (host_shelf_told self.new) result }
        ensures counts { FetchCounts (host_shelf_told self.old) (host_shelf_told self.new)
            result }
        ensures asks { self.new.asked ≡ one_more self.old.asked }
    {
        self.asked = self.asked.saturating_add(1);
        let Ok(file) = fs::open(&self.rt, name) else {
            self.faults = self.faults.saturating_add(1);
            return Err(Fetch::Failed);
        };
        match fetch_left(&mut HostSource::new(file), most, into) {
            Err(Fetch::Failed) => {
                self.faults = self.faults.saturating_add(1);
                Err(Fetch::Failed)
            }
            answer => answer,
        }
    }
}

/// A reader of std, with a count of its errors.
#[derive(Drop)]
pub struct HostSource<T: Read> {
    inner: T,
    faults: u64,
}

impl<T: Read> HostSource<T> {
    pub fn new(inner: T) -> HostSource<T>
        ensures { host_source_told T.remaining result
            ≡ record { holds = T.remaining inner; faults = 0 } }
    {
        HostSource { inner, faults: 0 }
    }
}

impl<T: Read> Source for HostSource<T> {
    ghost told = { host_source_told T.remaining };

    fn read(&mut self, buf: &mut [u8]) -> Result<usize, Failed>
        requires { 0 < length buf.old }
        ensures bound { ReadsAtMost result buf.new }
        ensures bytes { ReadConsumes (host_source_told T.remaining self.old).holds
            (host_source_told T.remaining self.new).holds result buf.new }
        ensures cause { HasCause (host_source_told T.remaining self.old)
            (host_source_told T.remaining self.new) result }
        ensures counts { Counts (host_source_told T.remaining self.old)
            (host_source_told T.remaining self.new) result }
    {
        match self.inner.read(buf) {
            Ok(count) => Ok(count),
            Err(_) => {
                self.faults = self.faults.saturating_add(1);
                Err(Failed)
            }
        }
    }
}

/// A writer of std, with a count of its errors. A writer that takes nothing of a piece has failed.
#[derive(Drop)]
pub struct HostSink<W: Write> {
    inner: W,
    faults: u64,
}

impl<W: Write> HostSink<W> {
    pub fn new(inner: W) -> HostSink<W>
        ensures { host_sink_told W.contents result
            ≡ record { holds = W.contents inner; faults = 0 } }
    {
        HostSink { inner, faults: 0 }
    }
}

impl<W: Write> Sink for HostSink<W> {
    ghost told = { host_sink_told W.contents };

    fn write(&mut self, piece: &[u8]) -> Result<usize, Failed>
        requires { 0 < length piece.now }
        ensures bound { TakesSome result piece.now }
        ensures bytes { WriteAppends (host_sink_told W.contents self.old).holds
            (host_sink_told W.contents self.new).holds result piece.now }
        ensures cause { HasCause (host_sink_told W.contents self.old)
            (host_sink_told W.contents self.new) result }
        ensures counts { Counts (host_sink_told W.contents self.old)
            (host_sink_told W.contents self.new) result }
    {
        match self.inner.write(piece) {
            Ok(count) if count > 0 => Ok(count),
            _ => {
                self.faults = self.faults.saturating_add(1);
                Err(Failed)
            }
        }
    }
}
