//! The restrictions in force.

ghost use Rattle.std.specs.Prelude.{◌≡◌, ◌⊎◌, ◌+◌, ◌-◌, ◌≤◌, ◌<◌, [], IfErr, IfOk, IsOk, OnErr, OnOk, Ok, Some, None, length, max, slice_get};
ghost use Rattle.restrictions.specs.Edits.{code_of_edit};
ghost use Rattle.restrictions.specs.Force.{IsForce, ForceView, put_in, without, zone_of, zones_of};

use crate::ids::Id;
use crate::seats::{close_up, find_seat};
use std::alloc::Global;
use std::marker::Model;
use unit_rules::{Memory, Zone};

/// The most restrictions that may be in force.
pub const MOST_IN_FORCE: usize = 10_000;

/// Why an edit is refused.
#[derive(Clone, Copy, Debug, PartialEq, Eq)]
pub enum EditFault {
    /// The ID that is put is in force.
    Present,
    /// The ID that is taken isn't.
    Absent,
    /// As many are in force as may be.
    Full,
    /// Memory was wanted and could not be had.
    Memory,
}

impl EditFault {
    /// The code of an edit that is refused; want of memory has none, and gives 0.
    pub fn code(&self) -> u32
        ensures { result ≡ code_of_edit self.now }
    {
        match self {
            EditFault::Present => 4,
            EditFault::Absent => 5,
            EditFault::Full => 6,
            EditFault::Memory => 0,
        }
    }
}

/// The restrictions in force, each with its ID, in the order in which they were put.
#[derive(Drop)]
pub struct InForce {
    pairs: Vec<(Id, Zone)>,
    // How many more can be put with no more memory.
    spare: usize,
    // The places of all pairs, in the order of the bytes of their IDs.
    seats: Vec<u32>,
}

impl Model for InForce {
    ghost use Rattle.std.specs.Prelude.{vec_capacity};
    ghost use Rattle.restrictions.specs.Force.{ForceView};
    ghost use Rattle.restrictions.specs.Seats.{IsKept};

    ghost Value = { ForceView };

    ghost view = { λ f. record { pairs = f.pairs.items; spare = f.spare } };

    ghost invariant = { λ f. IsKept f.pairs.items f.spare f.seats.items (vec_capacity f.pairs)
        (vec_capacity f.seats) };
}

impl InForce {
    /// Nothing in force. It takes no memory.
    pub fn new(alloc: Global) -> InForce
        ensures { result ≡ record { pairs = []; spare = 0 } }
    {
        InForce {
            pairs: Vec::new(alloc),
            spare: 0,
            seats: Vec::new(alloc),
        }
    }

    /// How many are in force.
    pub fn len(&self) -> u32
        ensures len { result ≡ length self.now.pairs }
        ensures force { IsForce self.now }
    {
        self.pairs.len() as u32
    }

    /// How many more can be put with no more memory.
    pub fn spare(&self) -> usize
        ensures { result ≡ self.now.spare }
    {
        self.spare
    }

    /// The one at place `n`, counted from 0 in the order in which they were put.
    pub fn nth(&self, n: u32) -> (Id, Zone)
        requires { n < length self.now.pairs }
        ensures pair { slice_get self.now.pairs n ≡ Some result }
        ensures force { IsForce self.now }
    {
        self.pairs[n as usize]
    }

    /// The zones of those in force, in their order.
    pub fn zones(&self) -> Result<Vec<Zone>, Memory>
        ensures zones { IfOk result (λ zones. zones.items ≡ zones_of self.now.pairs) }
        ensures force { IsForce self.now }
    {
        let mut zones = Vec::new(*self.pairs.allocator());
        for place in 0..self.len() {
            let (_id, zone) = self.nth(place);
            let Ok(()) = zones.push(zone) else {
                return Err(Memory);
            };
        }
        Ok(zones)
    }

    /// The zone of that ID; `None` exactly where it isn't in force.
    pub fn get(&self, id: Id) -> Option<Zone>
        ensures zone { result ≡ zone_of id self.now.pairs }
        ensures force { IsForce self.now }
    {
        match find_seat(&self.seats, &self.pairs, id) {
            Ok(seat) => Some(self.pairs[self.seats[seat] as usize].1),
            Err(_) => None,
        }
    }

    /// Makes room for so many to be put with no more memory, where there isn't room for as many yet.
    /// A refusal changes nothing.
    pub fn reserve(&mut self, count: usize) -> Result<(), Memory>
        ensures made { OnOk result (self.new ≡ record {
          pairs = self.old.pairs;
          spare = max self.old.spare count;
        }) }
        ensures refused { OnErr result (self.new ≡ self.old) }
        ensures enough { count ≤ self.old.spare → IsOk result }
        ensures force { IsForce self.new }
    {
        if count <= self.spare {
            return Ok(());
        }
        let (Ok(()), Ok(())) = (self.pairs.reserve(count), self.seats.reserve(count)) else {
            return Err(Memory);
        };
        self.spare = count;
        Ok(())
    }

    /// Puts one in force, behind the others. A refusal changes nothing. Where there is spare room it
    /// takes no memory.
    pub fn put(&mut self, id: Id, zone: Zone) -> Result<(), EditFault>
        ensures put { IfOk result (λ _. put_in id zone self.old.pairs ≡ Ok self.new.pairs) }
        ensures spare { IfOk result (λ _. self.new.spare ≡ self.old.spare - 1) }
        ensures refused { IfErr result
            (λ f. (f ≡ EditFault.Memory) ⊎ (put_in id zone self.old.pairs ≡ Err f)) }
        ensures kept { OnErr result (self.new ≡ self.old) }
        ensures room { 1 ≤ self.old.spare → result ≡ Err EditFault.Memory → ⊥ }
        ensures force { IsForce self.new }
    {
        let Err(seat) = find_seat(&self.seats, &self.pairs, id) else {
            return Err(EditFault::Present);
        };
        if self.pairs.len() >= MOST_IN_FORCE {
            return Err(EditFault::Full);
        }
        let place = self.pairs.len() as u32;
        let Ok(()) = self.pairs.reserve(1) else {
            return Err(EditFault::Memory);
        };
        let Ok(()) = self.seats.insert(seat, place) else {
            return Err(EditFault::Memory);
        };
        self.pairs.push_reserved((id, zone));
        self.spare = self.spare.saturating_sub(1);
        Ok(())
    }

    /// Takes one out of force; the others keep their order. A refusal changes nothing. It takes no
    /// memory.
    pub fn take(&mut self, id: Id) -> Result<Zone, EditFault>
        ensures taken { IfOk result (λ zone. (zone_of id self.old.pairs ≡ Some zone)
            × (self.new ≡ record {
              pairs = without id self.old.pairs;
              spare = self.old.spare + 1;
            })) }
        ensures refused { IfErr result
            (λ f. (f ≡ EditFault.Absent) × (zone_of id self.old.pairs ≡ None)) }
        ensures kept { OnErr result (self.new ≡ self.old) }
        ensures force { IsForce self.new }
    {
        let Ok(seat) = find_seat(&self.seats, &self.pairs, id) else {
            return Err(EditFault::Absent);
        };
        let place = self.seats.remove(seat);
        let (_id, zone) = self.pairs.remove(place as usize);
        close_up(&mut self.seats, place);
        self.spare += 1;
        Ok(zone)
    }
}
