//! The amounts and rows of a small timetable, where memory is found.

ghost use Rattle.std.specs.Prelude.{◌≡◌, ◌<◌, length};
ghost use Rattle.plan_tables.specs.Plan.{PlanLiesOn};
ghost use Rattle.time_brackets.specs.Sums.{IsMoving};

use super::*;
use line_tables::read_line;
use plan_tables::read_plan;
use std::marker::Brand;
use std::sync::ledger::Blank;
use std::test::Fail;

// The amounts and the rows of a plan on a line of six metres.
fn timetable<L: Ledger>(
    alloc: Global,
    plan: &Plan,
    e: &[u32],
    blank: Blank,
) -> Result<(Vec<u64>, Vec<Row>), Fail>
    requires name { blank.name ≡ L.name }
    requires parts { blank.parts ≡ L.parts }
    requires one { blank.parts ≡ 1 }
    requires lies { PlanLiesOn 6 plan.now }
    requires points { length e.now ≡ 7 }
    requires moving { IsMoving e.now 7 }
{
    let mut steps = Steps::<L>::new(blank);
    let mut sums = Sums::new(alloc, 6)?;
    sums.redo(0, 6, e, 7, &mut steps);
    let amounts = amounts(alloc, plan, &sums, e, &mut steps)?;
    let rows = planned(alloc, plan, 6, &sums, e, &mut steps)?;
    Ok((amounts, rows))
}

// What the row at each point is, what is added there, and the planned time.
const PLANNED: [(RowKind, u64, u64); 7] = [
    (RowKind::Start, 0, 0),
    (RowKind::Pass, 255, 5_347),
    (RowKind::Stop, 510, 10_693),
    (RowKind::Pass, 510, 75_784),
    (RowKind::Stop, 511, 80_876),
    (RowKind::Pass, 15_511, 160_967),
    (RowKind::End, 30_511, 181_059),
];

// Between which times the train comes to each point, and between which it goes on.
const TIMES: [[u64; 4]; 7] = [
    [0, 0, 0, 0],
    [5_091_145_649, 5_091_181_650, 5_091_145_649, 5_091_181_650],
    [
        10_182_291_298,
        10_182_363_300,
        70_182_291_298,
        70_182_363_300,
    ],
    [
        75_273_436_947,
        75_273_544_950,
        75_273_436_947,
        75_273_544_950,
    ],
    [
        80_364_582_596,
        80_364_726_600,
        140_364_582_596,
        140_364_726_600,
    ],
    [
        145_455_728_245,
        145_455_908_250,
        145_455_728_245,
        145_455_908_250,
    ],
    [
        150_546_873_894,
        150_547_089_900,
        150_546_873_894,
        150_547_089_900,
    ],
];

// The row at a point, where each point between the ends has a call.
fn row_at(at: u32) -> Row
    requires { at < 7 }
{
    let (kind, added, planned) = PLANNED[at as usize];
    let [early, late, leaves_early, leaves_late] = TIMES[at as usize];
    Row {
        at,
        kind,
        arrive: Bracket {
            lo: early,
            hi: late,
        },
        leave: Bracket {
            lo: leaves_early,
            hi: leaves_late,
        },
        added,
        planned,
        call: (1..6).contains(&at).then(|| at - 1),
    }
}

const LINE: &[u8] = b"line,Six,6\npoint,1,A\npoint,2,B\npoint,3,C\npoint,4,D\npoint,5,E\n";

const PLAN: &[u8] = b"pass,A\nstop,B,60\npass,C\nstop,D,60\npass,E\nallow,0,2,percent,50\n\
    allow,2,4,per100km,3\nallow,4,6,fixed,30\n";

#[test]
fn rows_of_a_short_line(rt: HostRuntime) -> Result<(), Fail> {
    let alloc = rt.alloc();
    let line = read_line(alloc, LINE).expect(&rt, "a line");
    let plan = read_plan(alloc, PLAN, &line).expect(&rt, "a plan");
    assert!(rt; line.length() == 6);
    let e = [0, 20_000, 0, 20_000, 0, 20_000, 0];
    let (amounts, rows) = timetable::<Brand>(alloc, &plan, &e, Blank::new(1))?;
    assert!(rt; amounts.as_slice() == [510, 1, 30_000].as_slice());
    assert!(rt; rows.len() == 7);
    for at in 0..7 {
        assert_eq!(rt; rows[at as usize], row_at(at));
    }
    Ok(())
}
