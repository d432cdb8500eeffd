//! How far a timetable has come along the line: the seconds so far, and the sections that have ended.

ghost use Rattle.std.specs.Prelude.{◌≡◌, ◌+◌, ◌*◌, ◌≤◌, ◌<◌, ◌^◌, length, nat_lt, if◌then◌else◌};
ghost use Rattle.plan_tables.specs.Limits.{most_sections};

use crate::allowance::Allowance;

/// The seconds from the zero of the plan's seconds to the departure and over the dwells so far, how
/// many allowances have ended, and what these add, in milliseconds.
#[derive(Clone, Copy)]
pub(crate) struct Progress {
    pub seconds: u64,
    pub ended: usize,
    pub added: u64,
}

impl Progress {
    ghost use Rattle.allowances.specs.Progress.{EndsPast, HaveEnded};

    /// The progress of a train that departs.
    pub(crate) fn start(depart: u32) -> Progress
        ensures { result ≡ record { seconds = depart; ended = 0; added = 0 } }
    {
        Progress {
            seconds: u64::from(depart),
            ended: 0,
            added: 0,
        }
    }

    /// The progress at a point further on, up to which no dwell comes.
    pub(crate) fn to(self, allowances: &[Allowance], point: u32) -> Progress
        requires few { length allowances.now ≤ most_sections }
        requires ended { HaveEnded allowances.now point self.ended self.added }
        ensures seconds { result.seconds ≡ self.seconds }
        ensures ended { HaveEnded allowances.now point result.ended result.added }
        ensures ahead { EndsPast allowances.now point result.ended }
    {
        let mut added = self.added;
        for index in self.ended..allowances.len() {
            let next = allowances[index];
            if point < next.section.to {
                return Progress {
                    seconds: self.seconds,
                    ended: index,
                    added,
                };
            }
            added += next.amount;
        }
        Progress {
            seconds: self.seconds,
            ended: allowances.len(),
            added,
        }
    }

    /// The progress behind a call, whose dwell comes before the line's end unless the call is there.
    pub(crate) fn behind(self, at: u32, dwell: u32, length: u32) -> Progress
        requires { self.seconds + dwell < 2 ^ 64 }
        ensures seconds { result.seconds ≡ self.seconds + (if nat_lt at length then dwell else 0) }
        ensures ended { result.ended ≡ self.ended }
        ensures added { result.added ≡ self.added }
    {
        if at < length {
            return Progress {
                seconds: self.seconds + u64::from(dwell),
                ..self
            };
        }
        self
    }
}
