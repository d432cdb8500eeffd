//! What a change of the zones makes of the breaks, with no memory. Only the breaks from where the changed
//! zone begins to bind up to where it has ended are made anew.

ghost use Rattle.std.specs.Prelude.{◌≡◌, true, false, ℕ, ◌+◌, ◌-◌, ◌*◌, ◌≤◌, ◌<◌, [], ◌∷◌, ◌++◌, All, drop, length, min, take, vec_len, vec_capacity};
ghost use Rattle.unit_rules.specs.Zone.{LiesOn};
ghost use Rattle.run_rules.specs.Caps.{binds_at};
ghost use Rattle.run_rules.specs.Speeds.{squared};
ghost use Rattle.limit_profile.specs.Breaks.{AreBegun, breaks_below};
ghost use Rattle.limit_profile.specs.Changes.{AreBefore, ComesFrom, changed};
ghost use Rattle.limit_profile.specs.Course.{IsCourse, zoned};
ghost use Rattle.limit_profile.specs.Pieces.{IsPiece};
ghost use Rattle.limit_profile.specs.Ranks.{rank_of};
ghost use Rattle.std.specs.List.Sorted.{IsNonDecreasingBy};

use crate::breaks::{Break, begin, break_from, break_up_to, count_below, held_piece};
use crate::near::zones_piece;
use crate::pieces::{Course, Piece, binds, bound_until, released};
use run_rules::squared;
use unit_rules::Zone;

/// What was done to a zone.
#[derive(Clone, Copy)]
pub(crate) enum Change {
    Added,
    Removed,
}

// Makes of the breaks from before a zone was added or removed those that are after it. `zones` are those
// that are left; where one was added, none is looked at.
pub(crate) fn change_breaks(
    course: Course,
    change: Change,
    zone: Zone,
    zones: &[Zone],
    breaks: &mut Vec<Break>,
    list: &mut Vec<Break>,
)
    requires course { IsCourse course }
    requires lies { LiesOn course.length zone }
    requires lie { All (LiesOn course.length) zones.now }
    requires ranked { IsNonDecreasingBy rank_of zones.now }
    requires before { AreBefore course change zone zones.now breaks.old.items
        (min (vec_capacity breaks.old) (vec_capacity list.old)) }
    ensures listed { (f g : ℕ → ℕ) → ComesFrom course change zone zones.now f g
        → breaks.old.items ≡ breaks_below f (course.length + 1)
        → breaks.new.items ≡ breaks_below g (course.length + 1) }
    ensures room { vec_capacity breaks.old ≤ vec_capacity breaks.new }
    ensures list_room { vec_capacity list.old ≤ vec_capacity list.new }
{
    let until = released(course, zone).min(course.length) + 1;
    list_stretch(course, change, zone, zones, breaks, until, list);
    let first = count_below(breaks, zone.from);
    let past = count_below(breaks, until);
    put_between(breaks, first, past, list);
}

// Makes of the breaks from before a zone was removed those of the zones that are left.
pub(crate) fn free_breaks(
    course: Course,
    zone: Zone,
    zones: &[Zone],
    breaks: &mut Vec<Break>,
    list: &mut Vec<Break>,
)
    requires course { IsCourse course }
    requires lies { LiesOn course.length zone }
    requires lie { All (LiesOn course.length) zones.now }
    requires ranked { IsNonDecreasingBy rank_of zones.now }
    requires before { breaks.old.items ≡ breaks_below (λ i. min (zoned course zones.now i)
        (zoned course (zone ∷ []) i)) (course.length + 1) }
    requires room { 2 * length zones.now + 2 ≤ vec_capacity breaks.old }
    requires list_room { 2 * length zones.now + 2 ≤ vec_capacity list.old }
    ensures listed { breaks.new.items ≡ breaks_below (zoned course zones.now) (course.length + 1) }
    ensures room { vec_capacity breaks.old ≤ vec_capacity breaks.new }
    ensures list_room { vec_capacity list.old ≤ vec_capacity list.new }
{
    if is_hidden(course, zone, breaks) {
        return;
    }
    change_breaks(course, Change::Removed, zone, zones, breaks, list);
}

// Lists the breaks from where a changed zone begins to bind up to a point.
fn list_stretch(
    course: Course,
    change: Change,
    zone: Zone,
    zones: &[Zone],
    breaks: &[Break],
    until: u32,
    list: &mut Vec<Break>,
)
    requires course { IsCourse course }
    requires lies { LiesOn course.length zone }
    requires lie { All (LiesOn course.length) zones.now }
    requires ranked { IsNonDecreasingBy rank_of zones.now }
    requires past { zone.from ≤ until }
    requires on_line { until ≤ course.length + 1 }
    requires before { AreBefore course change zone zones.now breaks.now (vec_capacity list.old) }
    ensures listed { (f g : ℕ → ℕ) → ComesFrom course change zone zones.now f g
        → breaks.now ≡ breaks_below f (course.length + 1)
        → breaks_below g zone.from ++ list.new.items ≡ breaks_below g until }
    ensures room { vec_capacity list.new ≡ vec_capacity list.old }
{
    list.clear();
    let mut index = break_up_to(breaks, zone.from.saturating_sub(1));
    let mut point = zone.from;
    let mut most = breaks[index].most;
    while point < until {
        index = break_from(breaks, index, point);
        let held = held_piece(breaks, index, point, course.length + 1);
        let piece = cut(
            changed_piece(course, change, zone, zones, held, point),
            until,
        );
        most = begin(list, point, most, piece);
        point = piece.until;
    }
}

// Puts a list in place of the breaks from one index up to another. Those past it are copied behind the
// list and back, as whole pieces of memory.
fn put_between(breaks: &mut Vec<Break>, first: usize, past: usize, list: &mut Vec<Break>)
    requires ordered { first ≤ past }
    requires bound { past ≤ vec_len breaks.old }
    requires room { first + vec_len list.old + (vec_len breaks.old - past)
        ≤ vec_capacity breaks.old }
    requires list_room { vec_len list.old + (vec_len breaks.old - past) ≤ vec_capacity list.old }
    ensures items { breaks.new.items ≡ take first breaks.old.items
        ++ (list.old.items ++ drop past breaks.old.items) }
    ensures room { vec_capacity breaks.old ≤ vec_capacity breaks.new }
    ensures list_room { vec_capacity list.old ≤ vec_capacity list.new }
{
    append(list, &breaks[past..]);
    breaks.truncate(first);
    append(breaks, list);
}

// Puts breaks behind others, for which there is room.
fn append(breaks: &mut Vec<Break>, more: &[Break])
    requires { vec_len breaks.old + length more.now ≤ vec_capacity breaks.old }
    ensures items { breaks.new.items ≡ breaks.old.items ++ more.now }
    ensures room { vec_capacity breaks.old ≤ vec_capacity breaks.new }
{
    match breaks.extend_from_slice(more) {
        Ok(()) => (),
        Err(_) => unreachable!(),
    }
}

// The piece of the caps from a point on, from the piece before the change. Where the zone doesn't bind,
// the caps are as before.
fn changed_piece(
    course: Course,
    change: Change,
    zone: Zone,
    zones: &[Zone],
    held: Piece,
    point: u32,
) -> Piece
    requires course { IsCourse course }
    requires lies { LiesOn course.length zone }
    requires lie { All (LiesOn course.length) zones.now }
    requires ranked { IsNonDecreasingBy rank_of zones.now }
    requires on_line { point ≤ course.length }
    requires past { point < held.until }
    ensures past { point < result.until }
    ensures piece { (f g : ℕ → ℕ) → ComesFrom course change zone zones.now f g
        → IsPiece f point held → IsPiece g point result }
{
    let until = bound_until(course, zone, point);
    if binds(course, zone, point) {
        return cut(bound_piece(course, change, zone, zones, held, point), until);
    }
    cut(held, until)
}

// The piece of the caps from a point on at which the changed zone binds.
fn bound_piece(
    course: Course,
    change: Change,
    zone: Zone,
    zones: &[Zone],
    held: Piece,
    point: u32,
) -> Piece
    requires course { IsCourse course }
    requires lies { LiesOn course.length zone }
    requires lie { All (LiesOn course.length) zones.now }
    requires ranked { IsNonDecreasingBy rank_of zones.now }
    requires on_line { point ≤ course.length }
    requires past { point < held.until }
    ensures past { point < result.until }
    ensures piece { (f : ℕ → ℕ) → IsPiece f point held
        → IsPiece (changed course change zone zones.now f) point result }
{
    match change {
        Change::Added => Piece {
            until: held.until,
            most: held.most.min(squared(zone.kmh)),
        },
        Change::Removed => zones_piece(course, zones, point),
    }
}

// What of a piece lies below a point.
fn cut(piece: Piece, until: u32) -> Piece
    ensures until { result.until ≡ min piece.until until }
    ensures most { result.most ≡ piece.most }
{
    Piece {
        until: piece.until.min(until),
        most: piece.most,
    }
}

// Whether the caps are below that of a zone wherever it binds, so that nothing changes without it.
fn is_hidden(course: Course, zone: Zone, breaks: &[Break]) -> bool
    requires course { IsCourse course }
    requires lies { LiesOn course.length zone }
    requires begun { AreBegun breaks.now }
    ensures { result ≡ true → (f : ℕ → ℕ) → breaks.now ≡ breaks_below f (course.length + 1)
        → (i : ℕ) → binds_at course.length course.train i zone ≡ true → f i < squared zone.kmh }
{
    let end = released(course, zone);
    let mut index = break_up_to(breaks, zone.from);
    let mut point = zone.from;
    while point < end {
        index = break_from(breaks, index, point);
        let held = held_piece(breaks, index, point, course.length + 1);
        if squared(zone.kmh) <= held.most {
            return false;
        }
        point = held.until;
    }
    true
}
