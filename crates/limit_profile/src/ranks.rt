//! Zones in the order in which they are kept: by the class of their length, then by where they begin.
//! Those of one class that bind about a point stand beside each other, so that they are found by halving.

ghost use Rattle.std.specs.Prelude.{◌≡◌, ◌+◌, ◌≤◌, ◌<◌, ◌∷◌, All, Contains, IfOk, IsPermutation, length, nat_lt, vec_len, vec_capacity};
ghost use Rattle.std.specs.List.Sorted.{IsNonDecreasingBy, IsPartitionPoint};
ghost use Rattle.unit_rules.specs.Limits.{longest_line};
ghost use Rattle.unit_rules.specs.Zone.{LiesOn};
ghost use Rattle.limit_profile.specs.Ranks.{class_of, first_rank_of, rank_of};

use std::alloc::Global;
use unit_rules::{Memory, Zone};

// What a class, a beginning and an end count in a rank.
const CLASS: u128 = 1 << 96;

const BEGINNING: u128 = 1 << 64;

const END: u128 = 1 << 32;

// The class of a zone: how many bits its length has.
#[tactic(auto, unfolding(crate::specs::Ranks::class_of))]
pub(crate) fn class(zone: Zone) -> u32
    ensures class { result ≡ class_of zone }
    ensures few { result ≤ 32 }
{
    u32::BITS - zone.to.saturating_sub(zone.from).leading_zeros()
}

// The rank from which zones of a class stand that begin at a point or past it.
pub(crate) fn first_rank(class: u32, from: u32) -> u128
    requires { class ≤ 33 }
    ensures { result ≡ first_rank_of class from }
{
    u128::from(class) * CLASS + u128::from(from) * BEGINNING
}

// The rank of a zone.
#[tactic(auto, unfolding(crate::specs::Ranks::rank_of))]
fn rank(zone: Zone) -> u128
    ensures { result ≡ rank_of zone }
{
    first_rank(class(zone), zone.from) + u128::from(zone.to) * END + u128::from(zone.kmh)
}

// Zones by rank.
pub(crate) fn ranked(alloc: Global, zones: &[Zone]) -> Result<Vec<Zone>, Memory>
    ensures same { IfOk result (λ list. IsPermutation zones.now list.items) }
    ensures ranked { IfOk result (λ list. IsNonDecreasingBy rank_of list.items) }
{
    let Ok(mut list) = Vec::from_slice(alloc, zones) else {
        return Err(Memory);
    };
    list.sort_unstable_by_key(
        |zone: &Zone| -> u128
            ensures { result ≡ rank_of zone.now }
        { rank(*zone) },
    );
    Ok(list)
}

// How many zones stand below a rank.
pub(crate) fn count_ranked(zones: &[Zone], below: u128) -> usize
    requires { IsNonDecreasingBy rank_of zones.now }
    ensures bound { result ≤ length zones.now }
    ensures parts { IsPartitionPoint (λ z. rank_of z < below) (λ z. below ≤ rank_of z)
        zones.now result }
{
    zones.partition_point(
        |zone: &Zone| -> bool
            ensures { result ≡ nat_lt (rank_of zone.now) below }
        { rank(*zone) < below },
    )
}

// Puts a zone among the others, by its rank.
pub(crate) fn insert(zones: &mut Vec<Zone>, zone: Zone)
    requires ranked { IsNonDecreasingBy rank_of zones.old.items }
    requires room { vec_len zones.old < vec_capacity zones.old }
    ensures same { IsPermutation (zone ∷ zones.old.items) zones.new.items }
    ensures ranked { IsNonDecreasingBy rank_of zones.new.items }
    ensures len { vec_len zones.new ≡ vec_len zones.old + 1 }
    ensures room { vec_capacity zones.old ≤ vec_capacity zones.new }
{
    let place = count_ranked(zones, rank(zone));
    match zones.insert(place, zone) {
        Ok(()) => (),
        Err(_) => unreachable!(),
    }
}

// Removes a zone from among the others.
pub(crate) fn remove(zones: &mut Vec<Zone>, zone: Zone)
    requires there { Contains zones.old.items zone }
    requires lie { All (LiesOn longest_line) zones.old.items }
    requires ranked { IsNonDecreasingBy rank_of zones.old.items }
    ensures same { IsPermutation zones.old.items (zone ∷ zones.new.items) }
    ensures ranked { IsNonDecreasingBy rank_of zones.new.items }
    ensures len { vec_len zones.new + 1 ≡ vec_len zones.old }
    ensures room { vec_capacity zones.new ≡ vec_capacity zones.old }
{
    let place = count_ranked(zones, rank(zone));
    zones.remove(place);
}
