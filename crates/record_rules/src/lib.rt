//! The records of a record file, such as a line file, as `csv` gives them; what their fields say; and
//! the first of them that breaks a rule. [`read_records`] reads any kind, by its [`RecordReader`].
#![tactic(auto)]

ghost use Rattle.std.specs.Prelude.{◌≡◌, ◌++◌, ◌∷◌, [], List, ℕ, Option};
ghost use Rattle.csv.specs.Records.{fields_of};
ghost use Rattle.unit_rules.specs.Numeral.{whole_of};
ghost use Rattle.record_rules.specs.Records.{Record, field, file_records};
ghost use Rattle.record_rules.specs.Faults.{ReadsAll, TakesOne, first_fault};

mod rules;

use csv::{ByteRecord, ReaderBuilder};
pub use rules::{
    FIELD_COUNT, MISSPELLED, NO_SUCH_POINT, OUT_OF_ORDER, OUT_OF_RANGE, REPEATED, TOO_MANY,
    UNKNOWN_KIND,
};
use std::alloc::Global;
use unit_rules::read_whole;

/// Why a record is not taken.
#[derive(Clone, Copy, Debug, PartialEq, Eq)]
pub enum Stop {
    /// The least rule that it breaks.
    Broken { rule: u32 },
    Memory,
}

/// Why a file is not read: the first record that breaks a rule, counted from 1, with the least rule
/// that it breaks.
#[derive(Clone, Copy, Debug, PartialEq, Eq)]
pub enum RecordFault {
    Broken { place: u64, rule: u32 },
    Memory,
}

/// A reader of one kind of record file, which takes its records one after another. What they say, and
/// which rules they break, may hang on how the reader began, as on a line that a file speaks of.
pub trait RecordReader {
    /// The least rule that a record breaks after the records before it, if it breaks one, for a
    /// reader that began as this one.
    ghost rule: { Self → List Record → Record → Option ℕ };

    /// The second reader began as the first, and what it took says what these records say.
    ghost says: { Self → Self → List Record → Type 0 };

    /// Takes the next record, or names the least rule that it breaks.
    fn take(&mut self, alloc: Global, row: &ByteRecord) -> Result<(), Stop>
        ensures { (begun : Self) → (before : List Record) → says begun self.old before
            → TakesOne (rule begun before (fields_of row.now))
            (says begun self.new (before ++ fields_of row.now ∷ [])) result };
}

/// Takes the records of a file in their order, up to the first that breaks a rule: commas, double
/// quotes, no header, and any number of fields.
pub fn read_records<T: RecordReader>(
    alloc: Global,
    bytes: &[u8],
    reader: &mut T,
) -> Result<(), RecordFault>
    requires { T.says reader.old reader.old [] }
    ensures { ReadsAll (first_fault (T.rule reader.old) [] (file_records bytes.now))
        (T.says reader.old reader.new (file_records bytes.now)) result }
{
    let mut rows = ReaderBuilder::new()
        .has_headers(false)
        .flexible(true)
        .from_reader(alloc, bytes);
    let mut row = ByteRecord::new(alloc);
    // Each record takes a byte at least, so that the last of these reads finds none.
    let reads = bytes.len() as u64 + 1;
    for done in 0..reads {
        match rows.read_byte_record(&mut row) {
            Ok(true) => {}
            Ok(false) => return Ok(()),
            Err(_) => return Err(RecordFault::Memory),
        }
        match reader.take(alloc, &row) {
            Ok(()) => {}
            Err(Stop::Broken { rule }) => {
                return Err(RecordFault::Broken {
                    place: done + 1,
                    rule,
                });
            }
            Err(Stop::Memory) => return Err(RecordFault::Memory),
        }
    }
    unreachable!()
}

/// The field at a place, counted from 0; empty past the last.
pub fn field(row: &ByteRecord, place: usize) -> &[u8]
    ensures { result.now ≡ field (fields_of row.now) place }
{
    match row.get(place) {
        Some(text) => text,
        None => &[],
    }
}

/// The number that the field at a place is the canonical numeral of, if it is one of an `i64`.
pub fn numeral(row: &ByteRecord, place: usize) -> Option<i64>
    ensures { result ≡ whole_of (field (fields_of row.now) place) }
{
    read_whole(field(row, place))
}
