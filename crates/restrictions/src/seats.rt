//! Where the restriction of an ID stands in the list of those in force, looked up by halving.

ghost use Rattle.std.specs.Prelude.{◌≡◌, ℕ, ◌<◌, ◌≤◌, List, IfErr, IfOk, None, Some, if◌then◌else◌, length, map};
ghost use Rattle.std.specs.List.{HoldsAt, insert, remove};
ghost use Rattle.std.specs.Cmp.Lexicographic.{slice_cmp};
ghost use Rattle.std.specs.Ordering.{nat_cmp};
ghost use Rattle.restrictions.specs.Seats.{IsInOrder, closed_up, id_at, place_of, seats_of};

use crate::ids::Id;
use std::cmp::Ordering;
use unit_rules::Zone;

// A seat is a place in the list of those in force, and seats are in the order of the IDs there: four
// bytes each, so that little moves where one is put in or taken out.

// Where among the seats that of an ID is, or where one for it may be put in.
pub(crate) fn find_seat(seats: &[u32], pairs: &[(Id, Zone)], id: Id) -> Result<usize, usize>
    requires { IsInOrder (seats_of pairs.now seats.now) }
    ensures bound { IfOk result (λ k. k < length seats.now) }
    ensures found { IfOk result (HoldsAt (λ place. id_at pairs.now place ≡ id) seats.now) }
    ensures room { IfErr result (λ k. k ≤ length seats.now) }
    ensures free { IfErr result (λ _. place_of id (seats_of pairs.now seats.now) ≡ None) }
    ensures order { IfErr result (λ k. (place : ℕ)
        → IsInOrder (insert (seats_of pairs.now seats.now) k (record { id = id; place = place }))) }
{
    seats.binary_search_by(|place| compare(pairs, *place, id))
}

// Compares the ID at a place with an ID by their bytes.
fn compare(pairs: &[(Id, Zone)], place: u32, id: Id) -> Ordering
    ensures { result ≡ slice_cmp nat_cmp (id_at pairs.now place) id }
{
    bytes_at(pairs, place).cmp(id.bytes())
}

// The bytes of the ID at a place, and none past the last one.
fn bytes_at(pairs: &[(Id, Zone)], place: u32) -> &[u8]
    ensures { result.now ≡ id_at pairs.now place }
{
    match pairs.get(place as usize) {
        Some(pair) => pair.0.bytes(),
        None => &[],
    }
}

// Moves the places behind `left`, the place of a restriction that went, one down.
pub(crate) fn close_up(seats: &mut [u32], left: u32)
    ensures { seats.new ≡ map (closed_up left) seats.old }
{
    for place in seats.iter_mut() {
        *place = closed_up(*place, left);
    }
}

fn closed_up(place: u32, left: u32) -> u32
    ensures { result ≡ closed_up left place }
{
    if place > left { place - 1 } else { place }
}
