//! The breaks of the caps of zones: the points from which they are others than before.

ghost use Rattle.std.specs.Prelude.{◌≡◌, ℕ, ◌+◌, ◌-◌, ◌≤◌, ◌<◌, List, ◌++◌, IfOk, length, slice_index_or, take, vec_len, vec_capacity};
ghost use Rattle.limit_profile.specs.Breaks.{AreBegun, breaks_below};
ghost use Rattle.limit_profile.specs.Pieces.{ArePieces, IsPiece};

use crate::pieces::Piece;
use std::alloc::Global;
use unit_rules::Memory;

/// A point from which the cap of the zones is another than before.
#[derive(Clone, Copy, Debug, PartialEq, Eq)]
pub struct Break {
    /// The point.
    pub at: u32,
    /// The cap from there on up to the next break, in (0.01 km/h)².
    pub most: u32,
}

// The breaks of a number that is given in pieces, with room for as many as are wanted.
pub(crate) fn list_breaks(
    alloc: Global,
    pieces: &[Piece],
    room: usize,
) -> Result<Vec<Break>, Memory>
    requires { length pieces.now ≤ room }
    ensures listed { (f : ℕ → ℕ) (to : ℕ) → ArePieces f 0 pieces.now to
        → IfOk result (λ breaks. breaks.items ≡ breaks_below f to) }
    ensures room { IfOk result (λ breaks. room ≤ vec_capacity breaks) }
{
    let Ok(mut breaks) = Vec::with_capacity(alloc, room) else {
        return Err(Memory);
    };
    let mut from = 0;
    let mut most = 0;
    for piece in pieces {
        most = begin(&mut breaks, from, most, *piece);
        from = piece.until;
    }
    Ok(breaks)
}

// Adds a break where a piece begins with another number than the one before, `most`. The answer is the
// number at the end of the piece. `breaks` are those past a front of them, which may be empty.
pub(crate) fn begin(breaks: &mut Vec<Break>, from: u32, most: u32, piece: Piece) -> u32
    requires room { vec_len breaks.old < vec_capacity breaks.old }
    ensures listed { (f : ℕ → ℕ) (front : List Break) → IsPiece f from piece
        → (0 < from → f (from - 1) ≡ most) → front ++ breaks.old.items ≡ breaks_below f from
        → (0 < piece.until → f (piece.until - 1) ≡ result)
        × (front ++ breaks.new.items ≡ breaks_below f piece.until) }
    ensures one { vec_len breaks.new ≤ vec_len breaks.old + 1 }
    ensures room { vec_capacity breaks.new ≡ vec_capacity breaks.old }
{
    if from == piece.until {
        return most;
    }
    if from > 0 && most == piece.most {
        return most;
    }
    breaks.push_reserved(Break {
        at: from,
        most: piece.most,
    });
    piece.most
}

// The piece that a break begins, from a point in it on. The last one goes on up to `end`.
pub(crate) fn held_piece(breaks: &[Break], index: usize, point: u32, end: u32) -> Piece
    requires bound { index < length breaks.now }
    requires last { (d : Break) → (slice_index_or breaks.now index d).at ≤ point }
    requires next { (d : Break) → index + 1 < length breaks.now
        → point < (slice_index_or breaks.now (index + 1) d).at }
    requires short { point < end }
    ensures past { point < result.until }
    ensures piece { (f : ℕ → ℕ) (d : Break) → breaks.now ≡ breaks_below f end
        → IsPiece f (slice_index_or breaks.now index d).at result }
{
    if index + 1 < breaks.len() {
        return Piece {
            until: breaks[index + 1].at,
            most: breaks[index].most,
        };
    }
    Piece {
        until: end,
        most: breaks[index].most,
    }
}

// Where in the list the last break up to a point stands, from one before it on.
pub(crate) fn break_from(breaks: &[Break], index: usize, point: u32) -> usize
    requires bound { index < length breaks.now }
    requires before { (d : Break) → (slice_index_or breaks.now index d).at ≤ point }
    ensures bound { result < length breaks.now }
    ensures last { (d : Break) → (slice_index_or breaks.now result d).at ≤ point }
    ensures next { (d : Break) → result + 1 < length breaks.now
        → point < (slice_index_or breaks.now (result + 1) d).at }
{
    let mut last = index;
    while last + 1 < breaks.len() && breaks[last + 1].at <= point {
        last += 1;
    }
    last
}

// Where in the list the last break up to a point stands, by halving.
pub(crate) fn break_up_to(breaks: &[Break], point: u32) -> usize
    requires { AreBegun breaks.now }
    ensures bound { result < length breaks.now }
    ensures last { (d : Break) → (slice_index_or breaks.now result d).at ≤ point }
    ensures next { (d : Break) → result + 1 < length breaks.now
        → point < (slice_index_or breaks.now (result + 1) d).at }
{
    let mut last = 0;
    let mut past = breaks.len();
    while last + 1 < past {
        let middle = last + (past - last) / 2;
        if breaks[middle].at <= point {
            last = middle;
            continue;
        }
        past = middle;
    }
    last
}

// How many breaks stand below a point.
pub(crate) fn count_below(breaks: &[Break], point: u32) -> usize
    requires { AreBegun breaks.now }
    ensures bound { result ≤ length breaks.now }
    ensures below { (f : ℕ → ℕ) (to : ℕ) → breaks.now ≡ breaks_below f to → point ≤ to
        → take result breaks.now ≡ breaks_below f point }
{
    if point == 0 {
        return 0;
    }
    break_up_to(breaks, point - 1) + 1
}
