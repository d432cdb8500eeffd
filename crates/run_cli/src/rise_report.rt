//! What the form `rise` shows.

ghost use Rattle.std.specs.Prelude.{◌≡◌, ◌≤◌};
ghost use Rattle.unit_rules.specs.Limits.{longest_line};
ghost use Rattle.step_rule.specs.Motion.{cells_of, most_of};

use step_rule::Rule;

// The step rule at each cell, its pulls, the squared speed before each cell, and how many cells there
// are.
#[derive(Drop)]
pub(crate) struct RiseReport {
    pub(crate) rule: Rule,
    pub(crate) pulls: Vec<i64>,
    pub(crate) before: u32,
    pub(crate) cells: u32,
    ghost same: { pulls.items ≡ rule.pulls },
    ghost in_range: { before ≤ most_of rule },
    ghost all: { cells ≡ cells_of rule },
    ghost few: { cells ≤ longest_line },
}
