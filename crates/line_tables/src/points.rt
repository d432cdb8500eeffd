//! Points by name.

ghost use Rattle.std.specs.Prelude.{◌≡◌, ◌++◌, ◌∷◌, [], None, if◌then◌else◌, is_ok};
ghost use Rattle.line_tables.specs.Points.{find_point};

use crate::Name;
use indexmap::IndexMap;
use std::alloc::{AllocError, Global};
use std::marker::Model;

// The positions of points by their names, in the order in which they came.
#[derive(Drop)]
pub(crate) struct Points {
    positions: IndexMap<Vec<u8>, u32>,
}

impl Model for Points {
    ghost use Rattle.std.specs.Prelude.{ℕ, List, map};
    ghost use Rattle.line_tables.specs.Points.{point_view};

    ghost Value = { List (List ℕ × ℕ) };

    ghost view = { λ p. map point_view p.positions.entries };
}

impl Points {
    pub(crate) fn new(alloc: Global) -> Points
        ensures { result ≡ [] }
    {
        Points {
            positions: IndexMap::new(alloc),
        }
    }

    // The position of the point of that name.
    pub(crate) fn find(&self, name: &[u8]) -> Option<u32>
        ensures { result ≡ find_point name.now self.now }
    {
        self.positions.get(name).copied()
    }

    // Adds a point, of a name that no point has yet, at the end.
    pub(crate) fn add(&mut self, name: Name, at: u32) -> Result<(), AllocError>
        requires { find_point name self.old ≡ None }
        ensures { self.new ≡ (if is_ok result then self.old ++ (name, at) ∷ [] else self.old) }
    {
        self.positions.insert(name.into_bytes(), at)?;
        Ok(())
    }
}
