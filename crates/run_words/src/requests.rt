//! The forms of a command line, with the names of their files and their numbers.

ghost use Rattle.std.specs.Prelude.{◌≤◌};
ghost use Rattle.unit_rules.specs.Limits.{greatest_speed, longest_train, most_seed};

/// `caps LINE LENGTH TOP`: the caps of a line for a train of that length and top speed.
#[derive(Drop)]
pub struct CapsForm<'a> {
    /// The name of the line's file.
    pub line: &'a str,
    /// The train's length in metres, from 1 to 5000.
    pub train: u32,
    /// The train's top speed in km/h, from 1 to 500.
    pub top: u32,
    pub ghost train_least: { 1 ≤ train },
    pub ghost train_most: { train ≤ longest_train },
    pub ghost top_least: { 1 ≤ top },
    pub ghost top_most: { top ≤ greatest_speed },
}

/// `stock STOCK`: the tables of a train.
#[derive(Drop)]
pub struct StockForm<'a> {
    /// The name of the train's file.
    pub stock: &'a str,
}

/// `rise LINE STOCK KMH`: the step rule of a train on a line, at each cell from that speed.
#[derive(Drop)]
pub struct RiseForm<'a> {
    /// The name of the line's file.
    pub line: &'a str,
    /// The name of the train's file.
    pub stock: &'a str,
    /// The speed in km/h, from 0 to 500.
    pub kmh: u32,
    pub ghost kmh_most: { kmh ≤ greatest_speed },
}

/// `brakes LINE STOCK`: the braking list of a train on a line.
#[derive(Drop)]
pub struct BrakesForm<'a> {
    /// The name of the line's file.
    pub line: &'a str,
    /// The name of the train's file.
    pub stock: &'a str,
}

/// `envelope LINE STOCK`: the fastest run of a train over a line.
#[derive(Drop)]
pub struct EnvelopeForm<'a> {
    /// The name of the line's file.
    pub line: &'a str,
    /// The name of the train's file.
    pub stock: &'a str,
}

/// The files of a case: a train on a line by a plan, under the restrictions that a file of edits leaves
/// in force.
#[derive(Drop)]
pub struct CaseForm<'a> {
    /// The name of the line's file.
    pub line: &'a str,
    /// The name of the train's file.
    pub stock: &'a str,
    /// The name of the plan's file.
    pub plan: &'a str,
    /// The name of the file of edits, if there is one.
    pub edits: Option<&'a str>,
}

/// What a plan is asked to print.
#[derive(Clone, Copy, Debug, PartialEq, Eq)]
pub enum Print {
    /// The speeds of the fastest run.
    Envelope,
    /// The times of its calls.
    Timetable,
    /// The certificate of the fastest run.
    Cert,
}

/// `plan LINE STOCK PLAN --print KIND [--edits FILE]`: the fastest run of a case, its timetable or its
/// certificate.
#[derive(Drop)]
pub struct PlanForm<'a> {
    /// The case.
    pub case: CaseForm<'a>,
    /// What is printed.
    pub print: Print,
}

/// `check LINE STOCK PLAN CERT [--edits FILE]`: whether a certificate is that of a case.
#[derive(Drop)]
pub struct CheckForm<'a> {
    /// The case.
    pub case: CaseForm<'a>,
    /// The name of the certificate's file.
    pub cert: &'a str,
}

/// `session LINE STOCK PLAN`: replies to the lines of the input, over a train on a line by a plan.
#[derive(Drop)]
pub struct SessionForm<'a> {
    /// The name of the line's file.
    pub line: &'a str,
    /// The name of the train's file.
    pub stock: &'a str,
    /// The name of the plan's file.
    pub plan: &'a str,
}

/// `gen N`: the summary of a session over the made-up case of a number.
#[derive(Drop)]
pub struct GenForm {
    /// The number, from 1 to 1,000,000.
    pub number: u32,
    pub ghost number_least: { 1 ≤ number },
    pub ghost number_most: { number ≤ most_seed },
}

/// What the words of a command line ask for.
#[derive(Drop)]
pub enum Request<'a> {
    /// The caps of a line.
    Caps(CapsForm<'a>),
    /// The tables of a train.
    Stock(StockForm<'a>),
    /// The step rule of a train on a line.
    Rise(RiseForm<'a>),
    /// The braking list of a train on a line.
    Brakes(BrakesForm<'a>),
    /// The fastest run of a train over a line.
    Envelope(EnvelopeForm<'a>),
    /// The fastest run by a plan, its timetable or its certificate.
    Plan(PlanForm<'a>),
    /// The check of a certificate.
    Check(CheckForm<'a>),
    /// The replies to the lines of the input.
    Session(SessionForm<'a>),
    /// The summary of a session over a made-up case.
    Gen(GenForm),
}
