//! The commands of a session over a made-up case.

ghost use Rattle.std.specs.Prelude.{◌≡◌, ◌<◌, ℕ, IfOk, OnOk, length, string_bytes};
ghost use Rattle.made_cases.specs.Commands.{ask_time, commands_text, put_next, take_first, with_command};
ghost use Rattle.made_cases.specs.Draws.{state_after};
ghost use Rattle.made_cases.specs.Kept.{Keeps};

use crate::draws::Draws;
use std::alloc::Global;
use std::collections::VecDeque;
use std::fmt::Write;
use unit_rules::Memory;

// How many commands a session has.
const COMMANDS: u32 = 2000;

// The most restrictions that are in force at a time.
const MOST_IN_FORCE: usize = 40;

/// Makes the commands, a line each.
pub(crate) fn made_commands(alloc: Global, draws: &mut Draws) -> Result<String, Memory>
    ensures { (n : ℕ) → draws.old.state ≡ state_after n 150 →
        IfOk result (λ text. string_bytes text ≡ commands_text n) }
{
    let mut script = Script {
        text: String::new(alloc),
        in_force: VecDeque::new(alloc),
    };
    for j in 0..COMMANDS {
        script.add(j, draws)?;
    }
    Ok(script.text)
}

// The commands so far.
#[derive(Drop)]
struct Script {
    // Their lines.
    text: String,
    // The numbers of those that put the restrictions in force, the first put first.
    in_force: VecDeque<u32>,
}

impl Script {
    // Adds the command of number `j`.
    fn add(&mut self, j: u32, draws: &mut Draws) -> Result<(), Memory>
        ensures { OnOk result
            (Keeps (λ n. with_command n j) self.old draws.old self.new draws.new) }
    {
        if j % 20 == 19 {
            self.ask_time()
        } else if self.in_force.len() == MOST_IN_FORCE {
            self.take_first()
        } else {
            self.put_next(j, draws)
        }
    }

    // Puts a restriction in force, over 100 to 999 m and of 30 to 119 km/h.
    fn put_next(&mut self, j: u32, draws: &mut Draws) -> Result<(), Memory>
        ensures { OnOk result
            (Keeps (λ n. put_next n j) self.old draws.old self.new draws.new) }
    {
        let from = draws.draw(119_000);
        let to = from + 100 + draws.draw(900);
        let kmh = 30 + draws.draw(90);
        let Ok(()) = writeln!(self.text, "put g{j} {from} {to} {kmh}") else {
            return Err(Memory);
        };
        let Ok(()) = self.in_force.push_back(j) else {
            return Err(Memory);
        };
        Ok(())
    }

    // Takes out the restriction that was put first of those in force.
    fn take_first(&mut self) -> Result<(), Memory>
        requires { 0 < length self.old.in_force.items }
        ensures { (source : Draws) →
            OnOk result (Keeps (λ _. take_first) self.old source self.new source) }
    {
        let Some(first) = self.in_force.pop_front() else {
            unreachable!()
        };
        let Ok(()) = writeln!(self.text, "take g{first}") else {
            return Err(Memory);
        };
        Ok(())
    }

    // Asks when the train is at the third point.
    fn ask_time(&mut self) -> Result<(), Memory>
        ensures { (source : Draws) →
            OnOk result (Keeps (λ _. ask_time) self.old source self.new source) }
    {
        let Ok(()) = self.text.push_str("time P3\n") else {
            return Err(Memory);
        };
        Ok(())
    }
}
