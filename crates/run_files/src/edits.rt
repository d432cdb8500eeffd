//! The restrictions that a file of edits leaves in force.

ghost use Rattle.std.specs.Prelude.{◌≡◌};

use restrictions::InForce;
use std::marker::Model;

/// Restrictions of a line, whose room for more is nobody's business.
#[derive(Drop)]
pub(crate) struct Restrictions {
    force: InForce,
}

impl Model for Restrictions {
    ghost use Rattle.std.specs.Prelude.{List, ℕ};
    ghost use Rattle.unit_rules.specs.declared.Zone.{Zone};

    ghost Value = { List (List ℕ × Zone) };

    ghost view = { λ r. r.force.pairs };
}

impl Restrictions {
    /// Those in force.
    pub(crate) fn of(force: InForce) -> Restrictions
        ensures { result ≡ force.pairs }
    {
        Restrictions { force }
    }

    /// The restrictions in force.
    pub(crate) fn into_force(self) -> InForce
        ensures { result.pairs ≡ self }
    {
        self.force
    }
}
