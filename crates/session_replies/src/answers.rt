//! What a line of a session comes to, before anything of it is written.

use time_brackets::Bracket;
use unit_rules::Reach;

/// What an edit does with a restriction.
#[derive(Clone, Copy, Debug, PartialEq, Eq)]
pub enum Change {
    /// It is put in force.
    Put,
    /// It is taken out of force.
    Take,
}

/// What a line comes to.
#[derive(Clone, Copy, Debug, PartialEq, Eq)]
pub enum Answer {
    /// An edit was made, and the train gets so far now.
    Made(Change, Reach),
    /// When the train comes to a point, in nanoseconds; or it doesn't come there.
    Time(Option<Bracket>),
    /// The speeds are asked for.
    Speeds,
    /// The timetable is asked for.
    Timetable,
    /// The certificate is asked for.
    Certificate,
    /// The line was refused, by its code, and nothing has changed.
    Refused(u32),
}
