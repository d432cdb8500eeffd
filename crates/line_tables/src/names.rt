//! Names of lines and points.

ghost use Rattle.std.specs.Prelude.{◌≡◌, ◌<◌, IfOk, IsTrue, None, Some, if◌then◌else◌, length};
ghost use Rattle.std.specs.List.{list_all};
ghost use Rattle.std.specs.Str.{is_utf8};
ghost use Rattle.line_tables.specs.Names.{is_name, is_name_byte, is_tight};

use std::alloc::Global;
use std::marker::Model;
use unit_rules::Memory;

/// The name of a line or of a point, as it was spelled: 1 to 60 bytes of UTF-8 with no control
/// byte, comma or double quote, and no space at either end.
#[derive(Drop)]
pub struct Name {
    bytes: Vec<u8>,
}

impl Model for Name {
    ghost use Rattle.std.specs.Prelude.{List, ℕ, IsTrue};
    ghost use Rattle.line_tables.specs.Names.{is_name};

    ghost Value = { List ℕ };

    ghost view = { λ n. n.bytes.items };

    ghost invariant = { λ n. IsTrue (is_name n.bytes.items) };
}

impl Name {
    /// The name of these bytes; `None` exactly where they are no name.
    pub fn of(alloc: Global, text: &[u8]) -> Result<Option<Name>, Memory>
        ensures { IfOk result
            (λ name. name ≡ (if is_name text.now then Some text.now else None)) }
    {
        if !is_name(text) {
            return Ok(None);
        }
        Ok(Some(Name::copied(alloc, text)?))
    }

    // The name of these bytes, which are one.
    pub(crate) fn copied(alloc: Global, text: &[u8]) -> Result<Name, Memory>
        requires { IsTrue (is_name text.now) }
        ensures { IfOk result (λ name. name ≡ text.now) }
    {
        match Vec::from_slice(alloc, text) {
            Ok(bytes) => Ok(Name { bytes }),
            Err(_) => Err(Memory),
        }
    }

    /// The bytes of the name, in UTF-8.
    pub fn bytes(&self) -> &[u8]
        ensures bytes { result.now ≡ self.now }
        ensures kept { IsTrue (is_name self.now) }
    {
        self.bytes.as_slice()
    }

    // The bytes alone.
    pub(crate) fn into_bytes(self) -> Vec<u8>
        ensures { result.items ≡ self }
    {
        let Name { bytes } = self;
        bytes
    }
}

fn is_name_byte(byte: u8) -> bool
    ensures { result ≡ is_name_byte byte }
{
    byte >= 32 && byte != b'"' && byte != b',' && byte != 127
}

fn is_text(bytes: &[u8]) -> bool
    ensures { result ≡ is_utf8 bytes.now }
{
    match str::from_utf8(bytes) {
        Ok(_) => true,
        Err(_) => false,
    }
}

fn are_name_bytes(bytes: &[u8]) -> bool
    ensures { result ≡ list_all is_name_byte bytes.now }
{
    bytes.iter().all(|byte| is_name_byte(*byte))
}

// Whether there is no space at either end.
fn is_tight(bytes: &[u8]) -> bool
    requires { 0 < length bytes.now }
    ensures { result ≡ is_tight bytes.now }
{
    bytes[0] != b' ' && bytes[bytes.len() - 1] != b' '
}

// Whether the bytes are a name.
pub(crate) fn is_name(bytes: &[u8]) -> bool
    ensures { result ≡ is_name bytes.now }
{
    if bytes.is_empty() || bytes.len() > 60 {
        return false;
    }
    is_text(bytes) && are_name_bytes(bytes) && is_tight(bytes)
}
