//! The caps of zones as pieces of a line that have one cap each. A list of them is made for either half
//! of the zones, and the two lists met to one of the lesser caps, so that the work grows little faster
//! than the zones.

ghost use Rattle.std.specs.Prelude.{◌≡◌, ℕ, ◌+◌, ◌≤◌, ◌<◌, ◌==◌, ◌∷◌, [], All, IfOk, cond, min};
ghost use Rattle.unit_rules.specs.Zone.{LiesOn};
ghost use Rattle.run_rules.specs.Caps.{binds_at};
ghost use Rattle.limit_profile.specs.Course.{IsCourse, zoned};
ghost use Rattle.limit_profile.specs.Pieces.{ArePieces, IsPiece};

use run_rules::squared;
use std::alloc::Global;
use unit_rules::{Memory, Zone};

/// What the zones of a line bind: a train of `train` metres and `top` km/h on a line of `length` metres.
#[derive(Clone, Copy)]
pub(crate) struct Course {
    pub length: u32,
    pub train: u32,
    pub top: u32,
}

/// A cap that holds below a point, from where the piece before it ended.
#[derive(Clone, Copy)]
pub(crate) struct Piece {
    pub until: u32,
    pub most: u32,
}

// The pieces of the least of the top speed and of all zones that bind.
pub(crate) fn zoned_pieces(
    alloc: Global,
    course: Course,
    zones: &[Zone],
) -> Result<Vec<Piece>, Memory>
    requires course { IsCourse course }
    requires lie { All (LiesOn course.length) zones.now }
    ensures { IfOk result (λ pieces. ArePieces (zoned course zones.now) 0 pieces.items
        (course.length + 1)) }
{
    if zones.is_empty() {
        return list_pieces(alloc, &[free_piece(course)]);
    }
    if zones.len() == 1 {
        return bound_pieces(alloc, course, zones[0]);
    }
    let middle = zones.len() / 2;
    let left = zoned_pieces(alloc, course, &zones[..middle])?;
    let right = zoned_pieces(alloc, course, &zones[middle..])?;
    meet(alloc, &left, &right)
}

// The one piece of a line with no zones.
pub(crate) fn free_piece(course: Course) -> Piece
    requires { IsCourse course }
    ensures until { result.until ≡ course.length + 1 }
    ensures piece { IsPiece (zoned course []) 0 result }
{
    Piece {
        until: course.length + 1,
        most: squared(course.top),
    }
}

// The pieces of a line with one zone: before it, in it, and past it.
fn bound_pieces(alloc: Global, course: Course, zone: Zone) -> Result<Vec<Piece>, Memory>
    requires course { IsCourse course }
    requires lies { LiesOn course.length zone }
    ensures { IfOk result (λ pieces. ArePieces (zoned course (zone ∷ [])) 0 pieces.items
        (course.length + 1)) }
{
    let free = squared(course.top);
    let before = Piece {
        until: zone.from,
        most: free,
    };
    let within = Piece {
        until: released(course, zone),
        most: free.min(squared(zone.kmh)),
    };
    list_pieces(alloc, &[before, within, free_piece(course)])
}

// The first point at which a zone binds no more.
pub(crate) fn released(course: Course, zone: Zone) -> u32
    requires course { IsCourse course }
    requires lies { LiesOn course.length zone }
    ensures { result ≡ min course.length (zone.to + course.train) + 1 }
{
    course.length.min(zone.to + course.train) + 1
}

// A list of pieces.
fn list_pieces(alloc: Global, pieces: &[Piece]) -> Result<Vec<Piece>, Memory>
    ensures { IfOk result (λ list. list.items ≡ pieces.now) }
{
    let Ok(list) = Vec::from_slice(alloc, pieces) else {
        return Err(Memory);
    };
    Ok(list)
}

// Whether a zone binds at a point.
pub(crate) fn binds(course: Course, zone: Zone, point: u32) -> bool
    requires course { IsCourse course }
    requires lies { LiesOn course.length zone }
    ensures { result ≡ binds_at course.length course.train point zone }
{
    zone.from <= point && point < released(course, zone)
}

// Up to where a zone binds as it does at a point, or doesn't.
pub(crate) fn bound_until(course: Course, zone: Zone, point: u32) -> u32
    requires course { IsCourse course }
    requires lies { LiesOn course.length zone }
    requires on_line { point ≤ course.length }
    ensures past { point < result }
    ensures on_line { result ≤ course.length + 1 }
    ensures same { (i : ℕ) → point ≤ i → i < result → binds_at course.length course.train i zone
        ≡ binds_at course.length course.train point zone }
{
    if point < zone.from {
        return zone.from;
    }
    if point < released(course, zone) {
        return released(course, zone);
    }
    course.length + 1
}

// The piece of the cap of one zone from a point on.
pub(crate) fn zone_piece(course: Course, zone: Zone, point: u32) -> Piece
    requires course { IsCourse course }
    requires lies { LiesOn course.length zone }
    requires on_line { point ≤ course.length }
    ensures past { point < result.until }
    ensures on_line { result.until ≤ course.length + 1 }
    ensures piece { IsPiece (zoned course (zone ∷ [])) point result }
{
    let until = bound_until(course, zone, point);
    let free = squared(course.top);
    if binds(course, zone, point) {
        return Piece {
            until,
            most: free.min(squared(zone.kmh)),
        };
    }
    Piece { until, most: free }
}

// The piece of the lesser of two caps, from a piece of each.
pub(crate) fn lesser(one: Piece, other: Piece) -> Piece
    ensures until { result.until ≡ min one.until other.until }
    ensures most { result.most ≡ min one.most other.most }
{
    Piece {
        until: one.until.min(other.until),
        most: one.most.min(other.most),
    }
}

// The pieces of the lesser of two caps, from the pieces of both.
fn meet(alloc: Global, left: &[Piece], right: &[Piece]) -> Result<Vec<Piece>, Memory>
    ensures { (f g h : ℕ → ℕ) (to : ℕ) → ((i : ℕ) → h i ≡ min (f i) (g i))
        → ArePieces f 0 left.now to → ArePieces g 0 right.now to
        → IfOk result (λ met. ArePieces h 0 met.items to) }
{
    let mut met = Vec::new(alloc);
    let mut at_left = 0;
    let mut at_right = 0;
    while at_left < left.len() && at_right < right.len() {
        let here = left[at_left];
        let there = right[at_right];
        let piece = lesser(here, there);
        let Ok(()) = met.push(piece) else {
            return Err(Memory);
        };
        at_left += passed(here, piece.until);
        at_right += passed(there, piece.until);
    }
    Ok(met)
}

// One for a piece that ends there, and none for another.
fn passed(piece: Piece, until: u32) -> usize
    ensures { result ≡ cond (piece.until == until) 1 0 }
{
    if piece.until == until { 1 } else { 0 }
}
