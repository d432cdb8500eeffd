//! The lines of a certificate.

ghost use Rattle.std.specs.Prelude.{◌≡◌, ◌==◌, ◌+◌, ◌≤◌, ◌∷◌, [], MatchOption, IfSome, length, position};
ghost use Rattle.std.specs.List.{slice_split};
ghost use Rattle.certificate.specs.Lines.{line_of, line_of_two, line_of_words, number_of, row_of};

use unit_rules::{Reach, number_in};

// What a line says.
#[derive(Clone, Copy, Debug, PartialEq, Eq)]
pub(crate) enum Line {
    // Both numbers of a point.
    Full { c: u32, e: u32 },
    // The first number of a point at which the second isn't known.
    Dashed { c: u32 },
    // How far the train gets.
    Verdict(Reach),
}

// A part of a text, up to a byte that ends it, and what is behind that byte.
#[derive(Clone, Copy)]
pub(crate) struct Part<'a> {
    pub(crate) part: &'a [u8],
    pub(crate) rest: &'a [u8],
}

// The part of a text before the first `end`, where there is one.
pub(crate) fn part_before<'a>(text: &'a [u8], end: u8) -> Option<Part<'a>>
    ensures parts { MatchOption result
        (slice_split (λ b. b == end) text.now ≡ text.now ∷ [])
        (λ p. slice_split (λ b. b == end) text.now
        ≡ p.part.now ∷ slice_split (λ b. b == end) p.rest.now) }
    ensures shorter { IfSome result (λ p. length p.rest.now + 1 ≤ length text.now) }
{
    let at = position_of(text, end)?;
    Some(Part {
        part: &text[..at],
        rest: &text[at + 1..],
    })
}

// Where the first of these bytes stands.
fn position_of(text: &[u8], byte: u8) -> Option<usize>
    ensures { result ≡ position (λ b. b == byte) text.now }
{
    text.iter().position(|b| *b == byte)
}

// What a line says, where it has one of the four forms.
#[tactic(auto, unfolding(crate::specs::Lines::line_of))]
pub(crate) fn line_of(line: &[u8]) -> Option<Line>
    ensures { result ≡ line_of line.now }
{
    let Some(first) = part_before(line, b' ') else {
        return whole_line(line);
    };
    if let Some(_second) = part_before(first.rest, b' ') {
        return None;
    }
    line_of_two(first.part, first.rest)
}

// What a word says by itself.
fn whole_line(word: &[u8]) -> Option<Line>
    ensures { result ≡ line_of_words (word.now ∷ []) }
{
    if word == b"whole".as_slice() {
        Some(Line::Verdict(Reach::Whole))
    } else {
        None
    }
}

// What two words say.
fn line_of_two(first: &[u8], second: &[u8]) -> Option<Line>
    ensures { result ≡ line_of_two first.now second.now }
{
    if first == b"stalled".as_slice() {
        let k = word_number(second)?;
        return Some(Line::Verdict(Reach::Stalled { k }));
    }
    let c = word_number(first)?;
    row_of(c, second)
}

// The row of a number and a word.
fn row_of(c: u32, word: &[u8]) -> Option<Line>
    ensures { result ≡ row_of word.now c }
{
    if word == b"-".as_slice() {
        return Some(Line::Dashed { c });
    }
    let e = word_number(word)?;
    Some(Line::Full { c, e })
}

// The number that a word is the numeral of.
fn word_number(word: &[u8]) -> Option<u32>
    ensures { result ≡ number_of word.now }
{
    number_in(0, u32::MAX, word)
}
