//! Edits of small envelopes, where memory is found.

ghost use Rattle.std.specs.Prelude.{◌≡◌};

use crate::Envelope;
use line_tables::read_line;
use plan_tables::read_plan;
use restrictions::{EditFault, Id};
use std::alloc::Global;
use std::marker::Brand;
use std::process::Abort;
use std::sync::ledger::{Blank, Ledger};
use std::test::Fail;
use stock_tables::read_stock;
use unit_rules::{Reach, Steps, Zone};

const TEN: &[u8] = b"line,Ten,10\n";

const HILL: &[u8] = b"line,Hill,1000\ngradient,50,1000,100\n";

// On the level full effort adds 20000 to its squared speed in each metre, and its brakes take 25920.
const TOY: &[u8] =
    b"mass = 259200\nrotating = 0\nlength = 10\ntop = 60\neffort = [[0, 20000], [60, 20000]]\nresistance = [0, 0, 0]\nbrake = [[0, 100], [60, 100]]\n";

// Its squared speeds over ten metres under two restrictions of 2 and 1 km/h at the fourth, and under
// the first alone.
const UNDER_BOTH: [u32; 11] = [
    0, 20000, 35920, 10000, 10000, 10000, 10000, 10000, 10000, 10000, 0,
];

const UNDER_ONE: [u32; 11] = [
    0, 20000, 40000, 40000, 40000, 40000, 40000, 40000, 40000, 25920, 0,
];

// That train over a line, from a stand to a stand.
fn made<L: Ledger>(
    rt: &impl Abort,
    alloc: Global,
    line: &[u8],
    steps: &mut Steps<L>,
) -> Result<Envelope, Fail> {
    let line = read_line(alloc, line).expect(rt, "a line");
    let stock = read_stock(alloc, TOY).expect(rt, "a stock");
    let plan = read_plan(alloc, b"", &line).expect(rt, "a plan");
    Ok(Envelope::new(alloc, line, stock, plan, steps).expect(rt, "memory"))
}

// Puts a zone that lies on the line in force.
fn put<L: Ledger>(
    rt: &impl Abort,
    kept: &mut Envelope,
    id: Id,
    zone: Zone,
    steps: &mut Steps<L>,
) -> Result<Reach, EditFault> {
    assert!(rt; zone.from < zone.to);
    assert!(rt; zone.to <= kept.line().length());
    assert!(rt; zone.kmh >= 1);
    assert!(rt; zone.kmh <= 500);
    kept.put(id, zone, steps)
}

// Whether the train comes to a point of the line.
fn comes<L: Ledger>(rt: &impl Abort, kept: &Envelope, point: u32, steps: &mut Steps<L>) -> bool {
    assert!(rt; point <= kept.line().length());
    kept.bracket(point, steps).is_some()
}

// A restriction of the fourth metre.
fn at_three(kmh: u32) -> Zone {
    Zone {
        from: 3,
        to: 4,
        kmh,
    }
}

// Two restrictions of one stretch, of which the slower hides the other until it is taken out.
fn put_and_take<L: Ledger>(rt: &impl Abort, alloc: Global, blank: Blank) -> Result<(), Fail>
    requires name { blank.name ≡ L.name }
    requires parts { blank.parts ≡ L.parts }
    requires one { blank.parts ≡ 1 }
{
    let mut steps = Steps::<L>::new(blank);
    let mut kept = made(rt, alloc, TEN, &mut steps)?;
    let slow = Id::of(b"slow").expect(rt, "an ID");
    let slower = Id::of(b"slower").expect(rt, "an ID");
    assert!(rt; kept.reserve(2).is_ok());
    assert!(rt; kept.reserve(usize::MAX).is_err());
    assert!(rt; put(rt, &mut kept, slow, at_three(2), &mut steps) == Ok(Reach::Whole));
    assert!(rt; put(rt, &mut kept, slower, at_three(1), &mut steps) == Ok(Reach::Whole));
    assert!(rt; kept.speeds() == UNDER_BOTH.as_slice());
    assert!(rt; put(rt, &mut kept, slow, at_three(3), &mut steps) == Err(EditFault::Present));
    assert!(rt; kept.take(slower, &mut steps) == Ok(Reach::Whole));
    assert!(rt; kept.speeds() == UNDER_ONE.as_slice());
    assert!(rt; kept.take(slower, &mut steps) == Err(EditFault::Absent));
    Ok(())
}

#[test]
fn a_slower_one_hides_another(rt: HostRuntime) -> Result<(), Fail> {
    put_and_take::<Brand>(&rt, rt.alloc(), Blank::new(1))
}

// A stall comes nearer where the train is slow before the hill, and goes back.
fn stalls<L: Ledger>(rt: &impl Abort, alloc: Global, blank: Blank) -> Result<(), Fail>
    requires name { blank.name ≡ L.name }
    requires parts { blank.parts ≡ L.parts }
    requires one { blank.parts ≡ 1 }
{
    let mut steps = Steps::<L>::new(blank);
    let mut kept = made(rt, alloc, HILL, &mut steps)?;
    let slow = Id::of(b"slow").expect(rt, "an ID");
    let zone = Zone {
        from: 40,
        to: 41,
        kmh: 5,
    };
    assert!(rt; put(rt, &mut kept, slow, zone, &mut steps) == Ok(Reach::Stalled { k: 114 }));
    assert!(rt; comes(rt, &kept, 113, &mut steps));
    assert!(rt; !comes(rt, &kept, 114, &mut steps));
    assert!(rt; kept.take(slow, &mut steps) == Ok(Reach::Stalled { k: 256 }));
    assert!(rt; comes(rt, &kept, 255, &mut steps));
    assert!(rt; !comes(rt, &kept, 256, &mut steps));
    Ok(())
}

#[test]
fn a_stall_moves(rt: HostRuntime) -> Result<(), Fail> {
    stalls::<Brand>(&rt, rt.alloc(), Blank::new(1))
}
