//! IDs of restrictions.

ghost use Rattle.std.specs.Prelude.{◌≡◌, IsTrue, None, Some, if◌then◌else◌};
ghost use Rattle.std.specs.List.{list_all};
ghost use Rattle.restrictions.specs.Ids.{is_id, is_id_byte};

use std::marker::Model;

/// The most bytes of an ID.
const MOST_BYTES: usize = 40;

/// The ID of a restriction: 1 to 40 bytes, each of them an ASCII letter, a digit, `.`, `_` or `-`.
/// It holds them in place.
#[derive(Clone, Copy, Debug, PartialEq, Eq)]
pub struct Id {
    room: [u8; 40],
    size: usize,
}

impl Model for Id {
    ghost use Rattle.std.specs.Prelude.{List, ℕ, length};

    ghost Value = { List ℕ };

    ghost use Rattle.restrictions.specs.Padded.{IsPadded, bytes_of, padded, padded-bytes_of};

    ghost view = { bytes_of };

    ghost invariant = { IsPadded };

    ghost inverse = { λ bytes. record { room = padded bytes; size = length bytes } };

    ghost inverse_ok = { padded-bytes_of };
}

impl Id {
    /// The ID with these bytes; `None` exactly where they are no ID.
    pub fn of(text: &[u8]) -> Option<Id>
        ensures { result ≡ (if is_id text.now then Some text.now else None) }
    {
        if !is_id(text) {
            return None;
        }
        let mut room = [0; 40];
        room[..text.len()].copy_from_slice(text);
        Some(Id {
            room,
            size: text.len(),
        })
    }

    /// Its bytes.
    pub fn bytes(&self) -> &[u8]
        ensures bytes { result.now ≡ self.now }
        ensures spelled { IsTrue (is_id self.now) }
    {
        &self.room[..self.size]
    }
}

fn is_id_byte(byte: u8) -> bool
    ensures { result ≡ is_id_byte byte }
{
    byte.is_ascii_alphanumeric() || byte == b'.' || byte == b'_' || byte == b'-'
}

// Whether the bytes are an ID.
fn is_id(bytes: &[u8]) -> bool
    ensures { result ≡ is_id bytes.now }
{
    !bytes.is_empty() && bytes.len() <= MOST_BYTES && are_id_bytes(bytes)
}

fn are_id_bytes(bytes: &[u8]) -> bool
    ensures { result ≡ list_all is_id_byte bytes.now }
{
    bytes.iter().all(|byte| is_id_byte(*byte))
}
