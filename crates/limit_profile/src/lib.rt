//! The caps of a train on a line: the greatest squared speed that the limits, the restrictions and
//! the stops allow at each point.
#![tactic(auto)]

ghost use Rattle.std.specs.Prelude.{◌≡◌, ◌≢◌, ℕ, ◌+◌, ◌-◌, ◌*◌, ◌^◌, ◌≤◌, ◌<◌, ◌==◌, [], ◌∷◌, ◌++◌, max, All, Contains, IfOk, IsOk, OnOk, OnErr, length, slice_index, slice_index_or, vec_capacity};
ghost use Rattle.run_rules.specs.Caps.{binding_at, binds_at, bounds_at, least};
ghost use Rattle.run_rules.specs.Speeds.{squared};
ghost use Rattle.unit_rules.specs.Zone.{LiesOn};
ghost use Rattle.limit_profile.specs.Breaks.{Neighbours, breaks_of, zoned_at};
ghost use Rattle.limit_profile.specs.Levels.{IsLevel};
ghost use Rattle.limit_profile.specs.Profile.{AreAlike, IsAdded, IsFreed, IsProfile, Profile, cap, caps, profile_of, rezoned};

mod breaks;
mod changes;
mod near;
mod pieces;
mod ranks;

pub use crate::breaks::Break;
use crate::breaks::{break_up_to, held_piece, list_breaks};
use crate::changes::{Change, change_breaks, free_breaks};
use crate::pieces::{Course, zoned_pieces};
use crate::ranks::{insert, ranked, remove};
use std::alloc::Global;
use std::marker::Model;
use unit_rules::{Bound, Memory, Zone};

/// A stretch of points, from one up to another, that have one cap. It is empty where it ends before
/// it begins.
#[derive(Clone, Copy, Debug, PartialEq, Eq)]
pub struct Level {
    /// The point at which it begins.
    pub from: u32,
    /// The point at which it ends.
    pub to: u32,
    /// The cap, in (0.01 km/h)².
    pub cap: u32,
}

impl Level {
    /// A stretch of no points.
    pub fn empty() -> Level
        ensures { (p : Profile) → IsLevel p result }
    {
        Level {
            from: 1,
            to: 0,
            cap: 0,
        }
    }
}

/// The limits that bind a train on a line.
#[derive(Drop)]
pub struct Limits {
    course: Course,
    // By rank, so that those near a point are found with no pass over all.
    zones: Vec<Zone>,
    bounds: Vec<Bound>,
    // How many zones can be added with no more memory.
    spare: usize,
    breaks: Vec<Break>,
    // In which the breaks of a changed zone are listed.
    other: Vec<Break>,
}

impl Model for Limits {
    ghost use Rattle.std.specs.Prelude.{vec_capacity};
    ghost use Rattle.limit_profile.specs.Breaks.{IsKept};
    ghost use Rattle.limit_profile.specs.Profile.{Profile};

    ghost Value = { Profile };

    ghost view = { λ l. record {
      length = l.course.length;
      train = l.course.train;
      top = l.course.top;
      zones = l.zones.items;
      bounds = l.bounds.items;
      spare = l.spare;
    } };

    ghost invariant = { λ l. IsKept (record {
      length = l.course.length;
      train = l.course.train;
      top = l.course.top;
      zones = l.zones.items;
      bounds = l.bounds.items;
      spare = l.spare;
    }) l.breaks.items (vec_capacity l.zones) (vec_capacity l.breaks) (vec_capacity l.other) };
}

impl Limits {
    /// The limits of a line of `length` metres for a train of `train` metres and a top speed of
    /// `top` km/h: zones bind until the tail has left them, and a bound holds at its one point. The zones
    /// are kept in an order of their own.
    pub fn new(
        alloc: Global,
        length: u32,
        train: u32,
        top: u32,
        zones: &[Zone],
        bounds: &[Bound],
    ) -> Result<Limits, Memory>
        requires { IsProfile (profile_of length train top zones.now bounds.now) }
        ensures { IfOk result (AreAlike (profile_of length train top zones.now bounds.now)) }
    {
        let course = Course { length, train, top };
        let zones = ranked(alloc, zones)?;
        let pieces = zoned_pieces(alloc, course, &zones)?;
        let room = break_room(zones.len());
        let breaks = list_breaks(alloc, &pieces, room.max(pieces.len()))?;
        let other = list_breaks(alloc, &[], room)?;
        let Ok(bounds) = Vec::from_slice(alloc, bounds) else {
            return Err(Memory);
        };
        Ok(Limits {
            course,
            zones,
            bounds,
            spare: 0,
            breaks,
            other,
        })
    }

    /// Makes room for so many zones to be added with no more memory, where there isn't room for as many
    /// yet. A refusal changes nothing.
    pub fn reserve(&mut self, count: usize) -> Result<(), Memory>
        ensures made { OnOk result (self.new ≡ rezoned self.old self.old.zones
            (max self.old.spare count)) }
        ensures refused { OnErr result (self.new ≡ self.old) }
        ensures enough { count ≤ self.old.spare → IsOk result }
    {
        if count <= self.spare {
            return Ok(());
        }
        let Some(zones) = self.zones.len().checked_add(count) else {
            return Err(Memory);
        };
        if zones > MOST_ZONES {
            return Err(Memory);
        }
        let room = break_room(zones);
        let (Ok(()), Ok(()), Ok(())) = (
            self.zones.reserve(count),
            grow(&mut self.breaks, room),
            grow(&mut self.other, room),
        ) else {
            return Err(Memory);
        };
        self.spare = count;
        Ok(())
    }

    /// Adds a zone, for which there has to be room.
    pub fn add(&mut self, zone: Zone)
        requires spare { 1 ≤ self.old.spare }
        requires lies { LiesOn self.old.length zone }
        ensures { IsAdded zone self.old self.new }
    {
        insert(&mut self.zones, zone);
        self.spare -= 1;
        change_breaks(
            self.course,
            Change::Added,
            zone,
            &[],
            &mut self.breaks,
            &mut self.other,
        );
    }

    /// Removes one of the zones. Where several are equal to it, the others stay.
    pub fn remove(&mut self, zone: Zone)
        requires { Contains self.old.zones zone }
        ensures { IsFreed zone self.old self.new }
    {
        remove(&mut self.zones, zone);
        self.spare += 1;
        free_breaks(
            self.course,
            zone,
            &self.zones,
            &mut self.breaks,
            &mut self.other,
        );
    }

    /// The breaks of the caps of the zones: the points from which they are others than before, with 0
    /// the first. Bounds make none.
    pub fn breaks(&self) -> &[Break]
        ensures listed { result.now ≡ breaks_of self.now }
        ensures some { 0 < length result.now }
        ensures first { (d : Break) → (slice_index_or result.now 0 d).at ≡ 0 }
        ensures rising { Neighbours (λ b c. b.at < c.at) result.now }
        ensures other { Neighbours (λ b c. b.most ≢ c.most) result.now }
        ensures on_line { All (λ b. b.at ≤ self.now.length) result.now }
        ensures few { length result.now ≤ 2 * length self.now.zones + 1 }
        ensures kept { IsProfile self.now }
    {
        &self.breaks
    }

    /// The cap at a point, in (0.01 km/h)²: the least of the top speed, of all zones that bind there
    /// and of the bounds there.
    pub fn cap(&self, point: u32) -> u32
        requires { point ≤ self.now.length }
        ensures cap { result ≡ cap self.now point }
        ensures listed { result ≡ slice_index (caps self.now) point }
        ensures most { result ≤ squared self.now.top }
        ensures kept { IsProfile self.now }
    {
        self.least_at(point)
    }

    /// The cap at a point, in (0.01 km/h)², for a walk along the line that carries `level` with it. Where
    /// the stretch has the point, its cap is at hand; else it is looked up, and `level` becomes the
    /// stretch about the point, so a walk looks up one cap a stretch.
    pub fn cap_near(&self, point: u32, level: &mut Level) -> u32
        requires on_line { point ≤ self.now.length }
        requires level { IsLevel self.now level.old }
        ensures cap { result ≡ cap self.now point }
        ensures listed { result ≡ slice_index (caps self.now) point }
        ensures most { result ≤ squared self.now.top }
        ensures level { IsLevel self.now level.new }
        ensures kept { IsProfile self.now }
    {
        prove!(point <= self.course.length);
        if level.from <= point && point <= level.to {
            return level.cap;
        }
        *level = self.level_at(point);
        level.cap
    }

    // The stretch about a point in which no limit begins or ends.
    fn level_at(&self, point: u32) -> Level
        requires { point ≤ self.now.length }
        ensures from { result.from ≤ point }
        ensures to { point ≤ result.to }
        ensures level { IsLevel self.now result }
        ensures kept { IsProfile self.now }
    {
        let zones = self.zoned_level(point);
        let bounds = bounds_stretch(self.course.length, &self.bounds, point);
        Level {
            from: zones.from.max(bounds.from),
            to: zones.to.min(bounds.to),
            cap: bound_cap(zones.cap, &self.bounds, point),
        }
    }

    // The stretch about a point from one break to the next.
    fn zoned_level(&self, point: u32) -> Level
        requires { point ≤ self.now.length }
        ensures from { result.from ≤ point }
        ensures to { point ≤ result.to }
        ensures level { (i : ℕ) → result.from ≤ i → i ≤ result.to → zoned_at self.now.length
            self.now.train self.now.top self.now.zones i ≡ result.cap }
        ensures kept { IsProfile self.now }
    {
        let index = break_up_to(&self.breaks, point);
        let piece = held_piece(&self.breaks, index, point, self.course.length + 1);
        Level {
            from: self.breaks[index].at,
            to: piece.until - 1,
            cap: piece.most,
        }
    }

    // The least of what holds at a point.
    fn least_at(&self, point: u32) -> u32
        requires { point ≤ self.now.length }
        ensures cap { result ≡ cap self.now point }
        ensures kept { IsProfile self.now }
    {
        bound_cap(self.zoned_level(point).cap, &self.bounds, point)
    }
}

// More zones than fit in memory.
const MOST_ZONES: usize = usize::MAX / 4;

// For how many breaks there is room where there is room for so many zones.
fn break_room(zones: usize) -> usize
    requires { zones ≤ 2 ^ 62 }
    ensures { result ≡ 2 * zones + 2 }
{
    2 * zones + 2
}

// Makes room for so many elements.
fn grow<T>(list: &mut Vec<T>, room: usize) -> Result<(), Memory>
    ensures kept { list.new.items ≡ list.old.items }
    ensures grown { vec_capacity list.old ≤ vec_capacity list.new }
    ensures room { OnOk result (room ≤ vec_capacity list.new) }
{
    let Ok(()) = list.reserve(room.saturating_sub(list.len())) else {
        return Err(Memory);
    };
    Ok(())
}

// Points from one up to another.
#[derive(Clone, Copy)]
struct Stretch {
    from: u32,
    to: u32,
}

// A stretch about a point in which the same bounds hold.
fn bounds_stretch(length: u32, bounds: &[Bound], point: u32) -> Stretch
    requires { point ≤ length }
    ensures from { result.from ≤ point }
    ensures to { point ≤ result.to }
    ensures same { (i : ℕ) → result.from ≤ i → i ≤ result.to
        → bounds_at bounds.now i ≡ bounds_at bounds.now point }
{
    let mut from = 0;
    let mut to = length;
    for bound in bounds {
        let stretch = bound_stretch(length, *bound, point);
        from = stretch.from.max(from);
        to = stretch.to.min(to);
    }
    Stretch { from, to }
}

// A stretch about a point in which a bound holds as it does there.
fn bound_stretch(length: u32, bound: Bound, point: u32) -> Stretch
    requires { point ≤ length }
    ensures from { result.from ≤ point }
    ensures to { point ≤ result.to }
    ensures same { (i : ℕ) → result.from ≤ i → i ≤ result.to
        → (bound.at == i) ≡ (bound.at == point) }
{
    if point < bound.at {
        Stretch {
            from: 0,
            to: bound.at - 1,
        }
    } else if point == bound.at {
        Stretch {
            from: point,
            to: point,
        }
    } else {
        Stretch {
            from: bound.at + 1,
            to: length,
        }
    }
}

// The least of a number and of the bounds at a point.
fn bound_cap(most: u32, bounds: &[Bound], point: u32) -> u32
    ensures { result ≡ least most (bounds_at bounds.now point) }
{
    let mut least = most;
    for bound in bounds {
        if bound.at == point {
            least = least.min(bound.most);
        }
    }
    least
}

#[cfg(test)]
mod tests {
    use super::*;
    use std::test::Fail;

    const SLOW: Zone = Zone {
        from: 3,
        to: 4,
        kmh: 2,
    };

    const SLOWER: Zone = Zone {
        from: 3,
        to: 4,
        kmh: 1,
    };

    // The caps and the breaks of a line of 300 m for a train of 50 m and 60 km/h, with a limit of
    // 36 km/h from 100 to 200, a stop at 20, and a bound at the end.
    #[test]
    fn caps(rt: HostRuntime) -> Result<(), Fail> {
        let zones = [Zone {
            from: 100,
            to: 200,
            kmh: 36,
        }];
        let bounds = [
            Bound { at: 20, most: 0 },
            Bound {
                at: 300,
                most: 10_000,
            },
        ];
        let limits = Limits::new(rt.alloc(), 300, 50, 60, &zones, &bounds);
        assert!(rt; limits.is_ok());
        let Ok(limits) = limits else {
            return Ok(());
        };
        let rows = [
            (0, 36_000_000),
            (19, 36_000_000),
            (20, 0),
            (21, 36_000_000),
            (99, 36_000_000),
            (100, 12_960_000),
            (250, 12_960_000),
            (251, 36_000_000),
            (300, 10_000),
        ];
        for (point, cap) in rows {
            assert_eq!(rt; limits.cap(point), cap);
        }
        let mut level = Level::empty();
        assert_eq!(rt; limits.cap_near(100, &mut level), 12_960_000);
        assert_eq!(rt; limits.cap_near(250, &mut level), 12_960_000);
        assert_eq!(rt; limits.cap_near(251, &mut level), 36_000_000);
        assert_eq!(rt; limits.cap_near(20, &mut level), 0);
        let breaks = [at(0, 36_000_000), at(100, 12_960_000), at(251, 36_000_000)];
        assert!(rt; limits.breaks() == breaks.as_slice());
        Ok(())
    }

    // A limit of 1 km/h hides one of 2 km/h in the same place until it is removed.
    #[test]
    fn uncovered(rt: HostRuntime) -> Result<(), Fail> {
        let mut limits = Limits::new(rt.alloc(), 10, 10, 60, &[], &[]).expect(&rt, "memory");
        limits.reserve(2).expect(&rt, "memory");
        limits.add(SLOW);
        limits.add(SLOWER);
        assert!(rt; limits.breaks() == [at(0, 36_000_000), at(3, 10_000)].as_slice());
        limits.remove(SLOWER);
        assert!(rt; limits.breaks() == [at(0, 36_000_000), at(3, 40_000)].as_slice());
        Ok(())
    }

    // Where two limits are equal, one is left after the other was removed.
    #[test]
    fn equal(rt: HostRuntime) -> Result<(), Fail> {
        let zones = [SLOW, SLOW];
        let mut limits = Limits::new(rt.alloc(), 10, 10, 60, &zones, &[]).expect(&rt, "memory");
        limits.remove(SLOW);
        assert!(rt; limits.breaks() == [at(0, 36_000_000), at(3, 40_000)].as_slice());
        Ok(())
    }

    // On a line of 100 m, for a train of 20 m: zones at the line's ends and over the whole of it, equal
    // ones, one within another, one that ends where the next begins to bind, and one that is released
    // at the line's last point, or just before it.
    #[test]
    fn edits(rt: HostRuntime) -> Result<(), Fail> {
        let alloc = rt.alloc();
        let near = zone(40, 60, 30);
        assert!(rt; holds(alloc, &[], zone(0, 5, 20)));
        assert!(rt; holds(alloc, &[near], zone(95, 100, 20)));
        assert!(rt; holds(alloc, &[near, zone(70, 75, 10)], zone(0, 100, 20)));
        assert!(rt; holds(alloc, &[zone(0, 100, 20)], near));
        assert!(rt; holds(alloc, &[near], near));
        assert!(rt; holds(alloc, &[near], zone(45, 50, 10)));
        assert!(rt; holds(alloc, &[near], zone(45, 50, 50)));
        assert!(rt; holds(alloc, &[near], zone(10, 20, 10)));
        assert!(rt; holds(alloc, &[near], zone(10, 19, 30)));
        assert!(rt; holds(alloc, &[near], zone(70, 80, 10)));
        assert!(rt; holds(alloc, &[near], zone(70, 79, 10)));
        Ok(())
    }

    // Of zones of one class, about one that binds from 40 to 80: the last that is released before it and
    // the first that isn't, the last that begins in it and the first that doesn't; and zones of three.
    #[test]
    fn classes(rt: HostRuntime) -> Result<(), Fail> {
        let alloc = rt.alloc();
        let changed = zone(40, 60, 50);
        assert!(rt; holds(alloc, &[zone(18, 19, 9), zone(19, 20, 8)], changed));
        assert!(rt; holds(alloc, &[zone(16, 19, 9), zone(18, 20, 8)], changed));
        assert!(rt; holds(alloc, &[zone(4, 19, 9), zone(8, 20, 8)], changed));
        assert!(rt; holds(alloc, &[zone(3, 19, 9), zone(4, 20, 8)], changed));
        assert!(rt; holds(alloc, &[zone(80, 81, 9), zone(81, 82, 8)], changed));
        assert!(rt; holds(alloc, &[zone(80, 95, 9), zone(81, 96, 8)], changed));
        assert!(rt;
            holds(
                alloc,
                &[zone(1, 100, 30), zone(60, 76, 20), zone(79, 80, 10)],
                changed
            )
        );
        Ok(())
    }

    // Several of one class below a zone on the whole line, two of them in the same place.
    #[test]
    fn covered(rt: HostRuntime) -> Result<(), Fail> {
        let one = zone(30, 31, 7);
        let other = zone(30, 31, 8);
        let last = zone(60, 61, 6);
        assert!(rt; holds(rt.alloc(), &[one, other, last], zone(0, 100, 50)));
        assert!(rt; holds(rt.alloc(), &[one, other, last], zone(0, 100, 7)));
        Ok(())
    }

    // Whether the breaks are those of new limits after a zone is added, and again after it is removed;
    // not where memory is wanting.
    fn holds(alloc: Global, zones: &[Zone], zone: Zone) -> bool
        requires lie { All (LiesOn 100) zones.now }
        requires lies { LiesOn 100 zone }
    {
        let (Ok(mut limits), Ok(before), Ok(mut more)) = (
            Limits::new(alloc, 100, 20, 60, zones, &[]),
            Limits::new(alloc, 100, 20, 60, zones, &[]),
            Vec::from_slice(alloc, zones),
        ) else {
            return false;
        };
        let (Ok(()), Ok(())) = (limits.reserve(1), more.push(zone)) else {
            return false;
        };
        let Ok(after) = Limits::new(alloc, 100, 20, 60, &more, &[]) else {
            return false;
        };
        limits.add(zone);
        let added = limits.breaks() == after.breaks();
        limits.remove(zone);
        added && limits.breaks() == before.breaks()
    }

    fn zone(from: u32, to: u32, kmh: u32) -> Zone
        requires rises { from < to }
        requires ends { to ≤ 100 }
        requires slow { 1 ≤ kmh }
        requires fast { kmh ≤ 500 }
        ensures { LiesOn 100 result }
    {
        Zone { from, to, kmh }
    }

    fn at(at: u32, most: u32) -> Break {
        Break { at, most }
    }
}
