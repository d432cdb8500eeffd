//! The files of a made-up case. Only the line differs from case to case.

ghost use Rattle.std.specs.Prelude.{◌≡◌, ◌+◌, ◌++◌, ◌<◌, ◌≤◌, ◌-ℤ◌, ℕ, pos, IfOk, OnOk, string_bytes};
ghost use Rattle.made_cases.specs.Draws.{state_after};
ghost use Rattle.made_cases.specs.Files.{gradient_row, limit_row, line_text};

use crate::draws::Draws;
use std::alloc::Global;
use std::fmt::Write;
use unit_rules::Memory;

/// The train: 400 t and 400 m, of at most 200 km/h.
pub(crate) const STOCK: &str = "mass = 400000
rotating = 60
length = 400
top = 200
effort = [[0, 300000], [67, 300000], [70, 288000], [80, 252000], [90, 224000], [100, 201600], [120, 168000], [140, 144000], [160, 126000], [180, 112000], [200, 100800]]
resistance = [4000, 30000, 600]
brake = [[0, 500], [200, 500]]
";

/// The plan: a stop of a minute at each point, and an allowance of 5 % over the whole line.
pub(crate) const PLAN: &str = "depart,0
stop,P1,60
stop,P2,60
stop,P3,60
stop,P4,60
stop,P5,60
allow,0,120000,percent,50
";

// The points of the line, one every twenty kilometres.
const POINTS: &str = "point,20000,P1
point,40000,P2
point,60000,P3
point,80000,P4
point,100000,P5
";

/// Makes the line file: 120 gradients, which are drawn first, then 30 limits, and the points.
pub(crate) fn made_line(alloc: Global, draws: &mut Draws) -> Result<String, Memory>
    ensures text { IfOk result (λ text. string_bytes text ≡ line_text draws.old.state) }
    ensures state { OnOk result (draws.new.state ≡ state_after draws.old.state 150) }
{
    let mut text = String::new(alloc);
    let Ok(()) = text.push_str("line,Gen,120000\n") else {
        return Err(Memory);
    };
    for j in 0..120 {
        put_gradient(&mut text, j, draws)?;
    }
    for j in 0..30 {
        put_limit(&mut text, j, draws)?;
    }
    let Ok(()) = text.push_str(POINTS) else {
        return Err(Memory);
    };
    Ok(text)
}

// Appends the gradient of kilometre `j`, which is drawn.
#[tactic(auto, unfolding(crate::specs::Draws::state_after))]
fn put_gradient(text: &mut String, j: u64, draws: &mut Draws) -> Result<(), Memory>
    requires { j < 120 }
    ensures row { (n : ℕ) → draws.old.state ≡ state_after n j →
        OnOk result (string_bytes text.new ≡ string_bytes text.old ++ gradient_row n j) }
    ensures state { (n : ℕ) → draws.old.state ≡ state_after n j →
        draws.new.state ≡ state_after n (j + 1) }
{
    let gradient = gradient_of(draws.draw(201));
    let (from, to) = (1000 * j, 1000 * (j + 1));
    let Ok(()) = writeln!(text, "gradient,{from},{to},{gradient}") else {
        return Err(Memory);
    };
    Ok(())
}

// The gradient that a drawn number stands for, from -100 to 100 per ten thousand.
fn gradient_of(drawn: u64) -> i64
    requires { drawn < 201 }
    ensures { result ≡ pos drawn -ℤ pos 100 }
{
    drawn as i64 - 100
}

// Appends the limit of the four kilometres `j`, from 60 to 200 km/h. All gradients are drawn before.
#[tactic(auto, unfolding(crate::specs::Draws::state_after))]
fn put_limit(text: &mut String, j: u64, draws: &mut Draws) -> Result<(), Memory>
    requires { j < 30 }
    ensures row { (n : ℕ) → draws.old.state ≡ state_after n (120 + j) →
        OnOk result (string_bytes text.new ≡ string_bytes text.old ++ limit_row n j) }
    ensures state { (n : ℕ) → draws.old.state ≡ state_after n (120 + j) →
        draws.new.state ≡ state_after n (120 + j + 1) }
{
    let limit = 60 + draws.draw(141);
    let (from, to) = (4000 * j, 4000 * (j + 1));
    let Ok(()) = writeln!(text, "limit,{from},{to},{limit}") else {
        return Err(Memory);
    };
    Ok(())
}
