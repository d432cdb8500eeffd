//! Made-up cases: a line, a train, a plan and the commands of a session, all from one number, for tests,
//! examples and measurements that are the same on every machine.
#![tactic(auto)]

ghost use Rattle.std.specs.Prelude.{◌≡◌, ◌≤◌, IfOk};
ghost use Rattle.made_cases.specs.Made.{made_case, seen};
ghost use Rattle.unit_rules.specs.Limits.{most_seed};

mod commands;
mod draws;
mod files;
#[cfg(test)]
mod tests;

use crate::commands::made_commands;
use crate::draws::Draws;
use crate::files::{PLAN, STOCK, made_line};
use std::alloc::Global;
use unit_rules::Memory;

/// The files of a made-up case, and the lines of a session over it.
#[derive(Drop)]
pub struct Made {
    /// The line file: 120 km with a gradient every kilometre, a limit every four, and five points.
    pub line: Vec<u8>,
    /// The stock file: a train of 400 t and 400 m.
    pub stock: Vec<u8>,
    /// The plan file: a stop of a minute at each point, and an allowance over the whole line.
    pub plan: Vec<u8>,
    /// 2,000 lines of a session: restrictions are put in force and taken out again, at most 40 at a
    /// time, and every twentieth line asks for a time.
    pub commands: Vec<u8>,
}

/// Makes the case of a number from 1 to 1,000,000. Gradients, limits and restrictions are drawn by a
/// linear congruential generator (the one of D. E. Knuth's MMIX) that begins with the number.
#[tactic(auto, unfolding(crate::specs::Made::made_case))]
pub fn make_case(alloc: Global, n: u64) -> Result<Made, Memory>
    requires least { 1 ≤ n }
    requires most { n ≤ most_seed }
    ensures { IfOk result (λ made. seen made ≡ made_case n) }
{
    let mut draws = Draws::from(n);
    let line = made_line(alloc, &mut draws)?;
    let commands = made_commands(alloc, &mut draws)?;
    let (Ok(stock), Ok(plan)) = (
        Vec::from_slice(alloc, STOCK.as_bytes()),
        Vec::from_slice(alloc, PLAN.as_bytes()),
    ) else {
        return Err(Memory);
    };
    Ok(Made {
        line: line.into_bytes(),
        stock,
        plan,
        commands: commands.into_bytes(),
    })
}
