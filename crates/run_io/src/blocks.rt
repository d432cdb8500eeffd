//! Text that is put together from its end on, in the place from which it is written out.

ghost use Rattle.std.specs.Prelude.{◌≡◌, ◌+◌, ◌*◌, ◌≤◌, ◌∷◌, ◌++◌, [], length, drop, OnOk, OnErr};
ghost use Rattle.std.specs.Fmt.{decimal, signed_decimal};
ghost use Rattle.run_io.specs.Texts.{numbers_text, piece};
ghost use Rattle.run_io.specs.Told.{HasCause, Writes, WritesFront};

use crate::{Failed, Sink, write_whole};
use itoa::write_digits;
use std::marker::Model;

/// How many bytes a block holds.
pub const BLOCK: usize = 65536;

/// Text that is put together from its end on: each text that is put goes before what is there. So the
/// digits of a number, which are found from the last to the first, are written once and where they
/// stay. It takes no memory.
#[derive(Drop)]
pub struct Block {
    bytes: [u8; BLOCK],
    at: usize,
}

impl Model for Block {
    ghost use Rattle.std.specs.Prelude.{List, ℕ, ◌≤◌, drop};

    ghost Value = { List ℕ };

    ghost view = { λ b. drop b.at b.bytes };

    ghost invariant = { λ b. b.at ≤ 65536 };
}

impl Block {
    /// An empty block.
    pub fn new() -> Block
        ensures { result ≡ [] }
    {
        Block {
            bytes: [0; BLOCK],
            at: BLOCK,
        }
    }

    /// Puts bytes before the text.
    pub fn put(&mut self, bytes: &[u8])
        requires { length self.old + length bytes.now ≤ BLOCK }
        ensures { self.new ≡ bytes.now ++ self.old }
    {
        let at = self.at - bytes.len();
        self.bytes[at..self.at].copy_from_slice(bytes);
        self.at = at;
    }

    /// Puts a number in decimal before the text.
    pub fn put_number(&mut self, number: u64)
        requires { length self.old + 20 ≤ BLOCK }
        ensures text { self.new ≡ decimal number ++ self.old }
        ensures short { length self.new ≤ length self.old + 20 }
    {
        self.at = write_digits(number, &mut self.bytes, self.at);
    }

    /// Puts a piece of a line of numbers before the text.
    pub fn put_piece(&mut self, numbers: &[i64], place: usize)
        requires room { length self.old + 21 ≤ BLOCK }
        requires listed { place ≤ length numbers.now }
        ensures text { self.new ≡ piece numbers.now place ++ self.old }
        ensures short { length self.new ≤ length self.old + 21 }
    {
        self.at = write_piece(numbers, place, &mut self.bytes, self.at);
    }

    /// Puts a line before the text: the numbers in decimal, with one space between.
    #[inline]
    pub fn put_line(&mut self, numbers: &[i64])
        requires { length self.old + 21 * length numbers.now + 1 ≤ BLOCK }
        ensures text { self.new ≡ numbers_text numbers.now ++ self.old }
        ensures short { length self.new ≤ length self.old + 21 * length numbers.now + 1 }
    {
        let mut at = write_byte(b'\n', &mut self.bytes, self.at);
        for place in (0..numbers.len()).rev() {
            at = write_piece(numbers, place, &mut self.bytes, at);
        }
        self.at = at;
    }

    /// Writes the text out. After a failure a front of it was written.
    pub fn flush<K: Sink>(&mut self, out: &mut K) -> Result<(), Failed>
        ensures ok { OnOk result (Writes (K.told out.old) (K.told out.new) self.old) }
        ensures empty { OnOk result (self.new ≡ []) }
        ensures failed { OnErr result (WritesFront (K.told out.old) (K.told out.new) self.old) }
        ensures cause { HasCause (K.told out.old) (K.told out.new) result }
    {
        write_whole(out, &self.bytes[self.at..])?;
        self.at = BLOCK;
        Ok(())
    }
}

// Writes a byte before `end`, and returns where it stands.
#[inline]
fn write_byte(byte: u8, bytes: &mut [u8], end: usize) -> usize
    requires { (1 ≤ end) × (end ≤ length bytes.old) }
    ensures start { result + 1 ≡ end }
    ensures written { drop result bytes.new ≡ byte ∷ drop end bytes.old }
{
    bytes[end - 1] = byte;
    end - 1
}

// Writes a number in decimal before `end`, and returns where it starts.
#[inline]
fn write_number(number: i64, bytes: &mut [u8], end: usize) -> usize
    requires { (20 ≤ end) × (end ≤ length bytes.old) }
    ensures start { (end ≤ result + 20) × (result ≤ end) }
    ensures written { drop result bytes.new ≡ signed_decimal number ++ drop end bytes.old }
{
    let at = write_digits(number.unsigned_abs(), bytes, end);
    if number >= 0 {
        return at;
    }
    write_byte(b'-', bytes, at)
}

// Writes a piece of a line of numbers before `end`, and returns where it starts: a number, behind a
// space where it isn't the first, or the line end.
#[inline]
fn write_piece(numbers: &[i64], place: usize, bytes: &mut [u8], end: usize) -> usize
    requires within { (21 ≤ end) × (end ≤ length bytes.old) }
    requires listed { place ≤ length numbers.now }
    ensures start { (end ≤ result + 21) × (result ≤ end) }
    ensures written { drop result bytes.new ≡ piece numbers.now place ++ drop end bytes.old }
{
    if place == numbers.len() {
        return write_byte(b'\n', bytes, end);
    }
    let at = write_number(numbers[place], bytes, end);
    if place == 0 {
        return at;
    }
    write_byte(b' ', bytes, at)
}
