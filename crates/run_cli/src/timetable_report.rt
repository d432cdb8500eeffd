//! The rows of a timetable, ready to be written.

ghost use Rattle.std.specs.Prelude.{All};
ghost use Rattle.report_text.specs.Timetables.{IsCalled};

use allowances::Row;
use incr_envelope::Envelope;

/// The rows of a timetable, and the envelope with the plan whose calls they are.
#[derive(Drop)]
pub(crate) struct TimetableReport {
    pub(crate) rows: Vec<Row>,
    pub(crate) envelope: Envelope,
    pub(crate) ghost called: { All (IsCalled envelope.plan) rows.items },
}
