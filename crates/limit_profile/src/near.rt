//! The cap of zones by rank from a point on, with no pass over all of them: of each class those alone are
//! looked at that begin too late to be released before the point, and of those past it the first.

ghost use Rattle.std.specs.Prelude.{◌≡◌, false, ℕ, ◌+◌, ◌^◌, ◌≤◌, ◌<◌, All, length, slice_index_or};
ghost use Rattle.std.specs.List.Sorted.{IsNonDecreasingBy};
ghost use Rattle.unit_rules.specs.Zone.{LiesOn};
ghost use Rattle.run_rules.specs.Caps.{binds_at};
ghost use Rattle.limit_profile.specs.Course.{IsCourse, zoned};
ghost use Rattle.limit_profile.specs.Pieces.{IsPiece};
ghost use Rattle.limit_profile.specs.Ranks.{rank_of};

use crate::pieces::{Course, Piece, free_piece, lesser, zone_piece};
use crate::ranks::{class, count_ranked, first_rank};
use unit_rules::Zone;

// The piece of the least of the top speed and of all zones that bind, from a point on.
pub(crate) fn zones_piece(course: Course, zones: &[Zone], point: u32) -> Piece
    requires course { IsCourse course }
    requires lie { All (LiesOn course.length) zones.now }
    requires ranked { IsNonDecreasingBy rank_of zones.now }
    requires on_line { point ≤ course.length }
    ensures past { point < result.until }
    ensures piece { IsPiece (zoned course zones.now) point result }
{
    let mut piece = free_piece(course);
    let mut index = 0;
    while index < zones.len() {
        piece = lesser(piece, zone_piece(course, zones[index], point));
        index = next_near(course, zones, index, point, piece.until);
    }
    piece
}

// Where the next zone stands, past one, that may bind from a point on and below another.
fn next_near(course: Course, zones: &[Zone], index: usize, point: u32, until: u32) -> usize
    requires course { IsCourse course }
    requires lie { All (LiesOn course.length) zones.now }
    requires ranked { IsNonDecreasingBy rank_of zones.now }
    requires bound { index < length zones.now }
    requires on_line { point ≤ course.length }
    ensures past { index < result }
    ensures bound { result ≤ length zones.now }
    ensures apart { (k i : ℕ) (d : Zone) → index < k → k < result → point ≤ i → i < until
        → binds_at course.length course.train i (slice_index_or zones.now k d) ≡ false }
{
    let other = zones[index];
    let class = class(other);
    let first = first_near(course, point, class);
    if other.from < first {
        return count_ranked(zones, first_rank(class, first)).max(index + 1);
    }
    if other.from >= until {
        return count_ranked(zones, first_rank(class + 1, 0)).max(index + 1);
    }
    index + 1
}

// A point before which no zone of a class begins that binds at a point or past it.
fn first_near(course: Course, point: u32, class: u32) -> u32
    requires course { IsCourse course }
    requires few { class ≤ 32 }
    ensures before { result ≤ point }
    ensures near { (from : ℕ) → from < result → from + 2 ^ class + course.train ≤ point }
{
    let longest = 2u64.pow(class) + u64::from(course.train);
    u64::from(point).saturating_sub(longest) as u32
}
