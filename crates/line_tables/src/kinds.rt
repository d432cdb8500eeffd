//! The kinds of records of a line file.

ghost use Rattle.std.specs.Prelude.{◌≡◌};
ghost use Rattle.line_tables.specs.LineFile.{kind_of};

#[derive(Clone, Copy, PartialEq, Eq)]
pub(crate) enum Kind {
    Comment,
    Line,
    Gradient,
    Limit,
    Point,
}

// The kind of record that a first field names.
pub(crate) fn kind_of(word: &[u8]) -> Option<Kind>
    ensures { result ≡ kind_of word.now }
{
    if !word.is_empty() && word[0] == b'#' {
        Some(Kind::Comment)
    } else if word == b"line".as_slice() {
        Some(Kind::Line)
    } else if word == b"gradient".as_slice() {
        Some(Kind::Gradient)
    } else if word == b"limit".as_slice() {
        Some(Kind::Limit)
    } else if word == b"point".as_slice() {
        Some(Kind::Point)
    } else {
        None
    }
}
