//! The beginning of a line.

ghost use Rattle.std.specs.Prelude.{◌≡◌, [], ◌++◌, take};

use std::marker::Model;

/// How many bytes of a line are kept: one more than the longest command and a CR behind it have.
pub(crate) const KEPT: usize = 202;

/// The first bytes of a line.
#[derive(Drop)]
pub(crate) struct KeptLine {
    bytes: [u8; KEPT],
    len: usize,
}

impl Model for KeptLine {
    ghost use Rattle.std.specs.Prelude.{ℕ, List, length, take, ◌≤◌};

    ghost Value = { List ℕ };

    ghost view = { λ l. take l.len l.bytes };

    ghost invariant = { λ l. l.len ≤ length l.bytes };
}

impl KeptLine {
    /// Nothing of a line.
    pub(crate) fn new() -> KeptLine
        ensures { result ≡ [] }
    {
        KeptLine {
            bytes: [0; KEPT],
            len: 0,
        }
    }

    /// The bytes that are kept.
    pub(crate) fn bytes(&self) -> &[u8]
        ensures { result.now ≡ self.now }
    {
        &self.bytes[..self.len]
    }

    /// Forgets the line.
    pub(crate) fn clear(&mut self)
        ensures { self.new ≡ [] }
    {
        self.len = 0;
    }

    /// Adds bytes of the line, as many as there is room for.
    pub(crate) fn extend(&mut self, more: &[u8])
        ensures { self.new ≡ take KEPT (self.old ++ more.now) }
    {
        let count = more.len().min(KEPT - self.len);
        let end = self.len + count;
        self.bytes[self.len..end].copy_from_slice(&more[..count]);
        self.len = end;
    }
}
