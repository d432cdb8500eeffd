//! The rules of records, which are the same in every kind of record file, by number. A record is
//! judged by them in this order.

/// The first field names no kind of record.
pub const UNKNOWN_KIND: u32 = 1;

/// The record has more or fewer fields than its kind.
pub const FIELD_COUNT: u32 = 2;

/// A field is no canonical numeral, or no name.
pub const MISSPELLED: u32 = 3;

/// A number is outside its range.
pub const OUT_OF_RANGE: u32 = 4;

/// The record comes too early, or its numbers aren't in order.
pub const OUT_OF_ORDER: u32 = 5;

/// The record says once more what an earlier one has said.
pub const REPEATED: u32 = 6;

/// No point of the line has the name that the record gives.
pub const NO_SUCH_POINT: u32 = 7;

/// There are already as many records of the kind as a file may have.
pub const TOO_MANY: u32 = 8;
