//! What the definitions mean in numbers.

ghost use Rattle.std.specs.Prelude.{◌≡◌, ◌+◌, ◌<◌, ◌≤◌, IfOk, length};
ghost use Rattle.std.specs.Bool.{OnTrue};
ghost use Rattle.time_brackets.specs.Sums.{IsMoving, StandsFor};

use super::*;
use std::alloc::Global;
use std::marker::Brand;
use std::process::Abort;
use std::sync::ledger::Blank;
use std::test::Fail;

// Squared speeds at two points, and the bracket between them.
const STEPS: [(u32, u32, u64, u64); 4] = [
    (12_960_000, 12_960_000, 100_000_000, 100_000_000),
    (0, 1, 720_000_000_000, 720_000_000_000),
    (0, 20_000, 5_091_145_649, 5_091_181_650),
    (2_500_000_000, 2_500_000_000, 7_200_000, 7_200_000),
];

fn bracket<L: Ledger>(rt: &impl Abort, a: u32, b: u32, blank: Blank) -> Bracket
    requires name { blank.name ≡ L.name }
    requires parts { blank.parts ≡ L.parts }
    requires one { blank.parts ≡ 1 }
{
    assert!(rt; a >= 1 || b >= 1);
    assert!(rt; a <= 2_500_000_000 && b <= 2_500_000_000);
    let mut steps = Steps::<L>::new(blank);
    step_bracket(a, b, &mut steps)
}

#[test]
fn brackets_of_steps(rt: HostRuntime) -> Result<(), Fail> {
    for (a, b, lo, hi) in STEPS {
        assert_eq!(rt;
            bracket::<Brand>(&rt, a, b, Blank::new(1)),
            Bracket { lo, hi }
        );
    }
    Ok(())
}

// Whether a train never stands at two points on end, and is nowhere too fast.
fn is_moving(e: &[u32]) -> bool
    ensures { OnTrue result (IsMoving e.now (length e.now)) }
{
    for i in 0..e.len() {
        if e[i] > 2_500_000_000 {
            return false;
        }
        if i + 1 < e.len() && e[i] == 0 && e[i + 1] == 0 {
            return false;
        }
    }
    true
}

// Sums that stand for all of a list.
fn summed<L: Ledger>(rt: &impl Abort, alloc: Global, e: &[u32], blank: Blank) -> Result<Sums, Fail>
    requires name { blank.name ≡ L.name }
    requires parts { blank.parts ≡ L.parts }
    requires one { blank.parts ≡ 1 }
    requires some { 1 ≤ length e.now }
    requires short { length e.now ≤ 500001 }
    ensures { IfOk result (λ sums. StandsFor sums e.now (length e.now)) }
{
    assert!(rt; is_moving(e));
    let points = e.len() as u32;
    let mut sums = Sums::new(alloc, points - 1)?;
    let mut steps = Steps::<L>::new(blank);
    sums.redo(0, points - 1, e, points, &mut steps);
    Ok(sums)
}

// Changes the number at one point, and the sums with it.
fn change<L: Ledger>(
    rt: &impl Abort,
    sums: &mut Sums,
    e: &mut [u32],
    point: u32,
    squared: u32,
    blank: Blank,
)
    requires name { blank.name ≡ L.name }
    requires parts { blank.parts ≡ L.parts }
    requires one { blank.parts ≡ 1 }
    requires stands { StandsFor sums.old e.old (length e.old) }
    requires short { length e.old ≤ 500001 }
    requires point { point < length e.old }
    ensures stands { StandsFor sums.new e.new (length e.old) }
    ensures points { length e.new ≡ length e.old }
{
    e[point as usize] = squared;
    assert!(rt; is_moving(e));
    let mut steps = Steps::<L>::new(blank);
    sums.redo(point, point, e, e.len() as u32, &mut steps);
}

// The time to a point.
fn time_to<L: Ledger>(sums: &Sums, e: &[u32], point: u32, blank: Blank) -> Bracket
    requires name { blank.name ≡ L.name }
    requires parts { blank.parts ≡ L.parts }
    requires one { blank.parts ≡ 1 }
    requires stands { StandsFor sums.now e.now (length e.now) }
    requires point { point < length e.now }
{
    let mut steps = Steps::<L>::new(blank);
    sums.upto(point, e, &mut steps)
}

// Compares the times to points with rows of a point and both ends of the bracket.
fn compare(rt: &impl Abort, sums: &Sums, e: &[u32], rows: &[(u32, u64, u64)])
    requires { StandsFor sums.now e.now (length e.now) }
{
    for row in rows {
        let (point, lo, hi) = *row;
        assert!(rt; (point as usize) < e.len());
        let times = time_to::<Brand>(sums, e, point, Blank::new(1));
        assert!(rt; times == Bracket { lo, hi });
    }
}

// A train that stands at every other point, and the times to each.
const STANDS: [u32; 7] = [0, 20_000, 0, 20_000, 0, 20_000, 0];

const TIMES: [(u32, u64, u64); 7] = [
    (0, 0, 0),
    (1, 5_091_145_649, 5_091_181_650),
    (2, 10_182_291_298, 10_182_363_300),
    (3, 15_273_436_947, 15_273_544_950),
    (4, 20_364_582_596, 20_364_726_600),
    (5, 25_455_728_245, 25_455_908_250),
    (6, 30_546_873_894, 30_547_089_900),
];

#[test]
fn times_of_a_short_line(rt: HostRuntime) -> Result<(), Fail> {
    let sums = summed::<Brand>(&rt, rt.alloc(), &STANDS, Blank::new(1))?;
    compare(&rt, &sums, &STANDS, &TIMES);
    Ok(())
}

// Times over 1,300 metres at 36 km/h, without and with a slow point at 700.
const EVEN: [(u32, u64, u64); 4] = [
    (512, 51_200_000_000, 51_200_000_000),
    (700, 70_000_000_000, 70_000_000_000),
    (1024, 102_400_000_000, 102_400_000_000),
    (1300, 130_000_000_000, 130_000_000_000),
];

const SLOWED: [(u32, u64, u64); 4] = [
    (512, 51_200_000_000, 51_200_000_000),
    (700, 70_092_440_200, 70_092_440_252),
    (1024, 102_584_880_400, 102_584_880_504),
    (1300, 130_184_880_400, 130_184_880_504),
];

#[test]
fn times_of_a_longer_line(rt: HostRuntime) -> Result<(), Fail> {
    let mut e = [12_960_000; 1301];
    let mut sums = summed::<Brand>(&rt, rt.alloc(), &e, Blank::new(1))?;
    compare(&rt, &sums, &e, &EVEN);
    change::<Brand>(&rt, &mut sums, &mut e, 700, 20_000, Blank::new(1));
    compare(&rt, &sums, &e, &SLOWED);
    Ok(())
}
