//! The words of a command line, read by `clap` as one of the forms that it may have.
#![tactic(auto)]

ghost use Rattle.std.specs.Prelude.{◌≡◌, IfOk, map, option_and_then, option_map, string_bytes};
ghost use Rattle.clap.specs.Words.{app_of, found_of, rows_of};
ghost use Rattle.run_words.specs.Commands.{rows_in};
ghost use Rattle.run_words.specs.Requests.{asks, case_view, print_of, request_of, view};
ghost use Rattle.run_words.specs.Requests.{brakes_app, caps_app, case_app, check_app, envelope_app, gen_app, plan_app, rise_app, session_app, stock_app, train_app};
ghost use Rattle.run_words.specs.Requests.{brakes_in, caps_in, case_in, check_in, envelope_in, gen_in, plan_in, rise_in, session_in, stock_in};

mod command;
mod requests;

use crate::command::{matches_by, number_of, plain_command, value_of, with_option, with_value};
use clap::{ArgMatches, Command};
pub use requests::{
    BrakesForm, CapsForm, CaseForm, CheckForm, EnvelopeForm, GenForm, PlanForm, Print, Request,
    RiseForm, SessionForm, StockForm,
};
use std::alloc::Global;
use unit_rules::{GREATEST_SPEED, LONGEST_TRAIN, MOST_SEED, Memory};

/// What the words ask for, or None where they are none of the forms:
/// - `caps LINE LENGTH TOP`, with a length from 1 to 5000 m and a top speed from 1 to 500 km/h,
/// - `stock STOCK`,
/// - `rise LINE STOCK KMH`, with a speed from 0 to 500 km/h,
/// - `brakes LINE STOCK`,
/// - `envelope LINE STOCK`,
/// - `plan LINE STOCK PLAN --print envelope`, `timetable` or `cert`, and `--edits FILE` or none,
/// - `check LINE STOCK PLAN CERT`, and `--edits FILE` or none,
/// - `session LINE STOCK PLAN`,
/// - `gen N`, with a number from 1 to 1,000,000.
///
/// A number has no sign, no space and no zero in front. A value that begins with a dash stands behind
/// a word `--`, and that of an option behind `=`, but for a dash alone.
pub fn read_request<'a>(alloc: Global, words: &'a [String]) -> Result<Option<Request<'a>>, Memory>
    ensures { IfOk result (λ r. option_map view r ≡ request_of (map string_bytes words.entry.now)) }
{
    if asks(words, "caps") {
        read_caps(alloc, words)
    } else if asks(words, "stock") {
        read_stock(alloc, words)
    } else if asks(words, "rise") {
        read_rise(alloc, words)
    } else if asks(words, "brakes") {
        read_brakes(alloc, words)
    } else if asks(words, "envelope") {
        read_envelope(alloc, words)
    } else if asks(words, "plan") {
        read_plan(alloc, words)
    } else if asks(words, "check") {
        read_check(alloc, words)
    } else if asks(words, "session") {
        read_session(alloc, words)
    } else if asks(words, "gen") {
        read_gen(alloc, words)
    } else {
        Ok(None)
    }
}

// Whether the first of the words is this name.
fn asks(words: &[String], name: &str) -> bool
    ensures { result ≡ asks (map string_bytes words.now) name.now }
{
    words.first().is_some_and(|word| word.as_str() == name)
}

// Reads `caps LINE LENGTH TOP`.
fn read_caps<'a>(alloc: Global, words: &'a [String]) -> Result<Option<Request<'a>>, Memory>
    ensures { IfOk result (λ r. option_map view r
        ≡ option_and_then caps_in (rows_in caps_app (map string_bytes words.entry.now))) }
{
    match matches_by(caps_command(alloc)?, words)? {
        None => Ok(None),
        Some(matches) => Ok(caps_of(&matches)),
    }
}

fn caps_command<'a>(alloc: Global) -> Result<Command<'a>, Memory>
    ensures { IfOk result (λ c. app_of c ≡ caps_app) }
{
    let command = plain_command(alloc, "caps");
    let command = with_value(alloc, command, "line")?;
    let command = with_value(alloc, command, "length")?;
    with_value(alloc, command, "top")
}

fn caps_of<'a>(matches: &ArgMatches<'a>) -> Option<Request<'a>>
    ensures { option_map view result ≡ caps_in (rows_of (found_of matches.now)) }
{
    let line = value_of(matches, "line")?;
    let train = number_of(matches, "length", 1, LONGEST_TRAIN)?;
    let top = number_of(matches, "top", 1, GREATEST_SPEED)?;
    Some(Request::Caps(CapsForm { line, train, top }))
}

// Reads `stock STOCK`.
fn read_stock<'a>(alloc: Global, words: &'a [String]) -> Result<Option<Request<'a>>, Memory>
    ensures { IfOk result (λ r. option_map view r
        ≡ option_and_then stock_in (rows_in stock_app (map string_bytes words.entry.now))) }
{
    match matches_by(stock_command(alloc)?, words)? {
        None => Ok(None),
        Some(matches) => Ok(stock_of(&matches)),
    }
}

fn stock_command<'a>(alloc: Global) -> Result<Command<'a>, Memory>
    ensures { IfOk result (λ c. app_of c ≡ stock_app) }
{
    let command = plain_command(alloc, "stock");
    with_value(alloc, command, "stock")
}

fn stock_of<'a>(matches: &ArgMatches<'a>) -> Option<Request<'a>>
    ensures { option_map view result ≡ stock_in (rows_of (found_of matches.now)) }
{
    let stock = value_of(matches, "stock")?;
    Some(Request::Stock(StockForm { stock }))
}

// The command of a train on a line, `NAME LINE STOCK`.
fn train_command<'a>(alloc: Global, name: &'a str) -> Result<Command<'a>, Memory>
    ensures { IfOk result (λ c. app_of c ≡ train_app name.entry.now) }
{
    let command = plain_command(alloc, name);
    let command = with_value(alloc, command, "line")?;
    with_value(alloc, command, "stock")
}

// Reads `rise LINE STOCK KMH`.
fn read_rise<'a>(alloc: Global, words: &'a [String]) -> Result<Option<Request<'a>>, Memory>
    ensures { IfOk result (λ r. option_map view r
        ≡ option_and_then rise_in (rows_in rise_app (map string_bytes words.entry.now))) }
{
    match matches_by(rise_command(alloc)?, words)? {
        None => Ok(None),
        Some(matches) => Ok(rise_of(&matches)),
    }
}

fn rise_command<'a>(alloc: Global) -> Result<Command<'a>, Memory>
    ensures { IfOk result (λ c. app_of c ≡ rise_app) }
{
    let command = train_command(alloc, "rise")?;
    with_value(alloc, command, "kmh")
}

fn rise_of<'a>(matches: &ArgMatches<'a>) -> Option<Request<'a>>
    ensures { option_map view result ≡ rise_in (rows_of (found_of matches.now)) }
{
    let line = value_of(matches, "line")?;
    let stock = value_of(matches, "stock")?;
    let kmh = number_of(matches, "kmh", 0, GREATEST_SPEED)?;
    Some(Request::Rise(RiseForm { line, stock, kmh }))
}

// Reads `brakes LINE STOCK`.
fn read_brakes<'a>(alloc: Global, words: &'a [String]) -> Result<Option<Request<'a>>, Memory>
    ensures { IfOk result (λ r. option_map view r
        ≡ option_and_then brakes_in (rows_in brakes_app (map string_bytes words.entry.now))) }
{
    match matches_by(train_command(alloc, "brakes")?, words)? {
        None => Ok(None),
        Some(matches) => Ok(brakes_of(&matches)),
    }
}

fn brakes_of<'a>(matches: &ArgMatches<'a>) -> Option<Request<'a>>
    ensures { option_map view result ≡ brakes_in (rows_of (found_of matches.now)) }
{
    let line = value_of(matches, "line")?;
    let stock = value_of(matches, "stock")?;
    Some(Request::Brakes(BrakesForm { line, stock }))
}

// Reads `envelope LINE STOCK`.
fn read_envelope<'a>(alloc: Global, words: &'a [String]) -> Result<Option<Request<'a>>, Memory>
    ensures { IfOk result (λ r. option_map view r
        ≡ option_and_then envelope_in (rows_in envelope_app (map string_bytes words.entry.now))) }
{
    match matches_by(train_command(alloc, "envelope")?, words)? {
        None => Ok(None),
        Some(matches) => Ok(envelope_of(&matches)),
    }
}

fn envelope_of<'a>(matches: &ArgMatches<'a>) -> Option<Request<'a>>
    ensures { option_map view result ≡ envelope_in (rows_of (found_of matches.now)) }
{
    let line = value_of(matches, "line")?;
    let stock = value_of(matches, "stock")?;
    Some(Request::Envelope(EnvelopeForm { line, stock }))
}

// Reads `plan LINE STOCK PLAN --print KIND [--edits FILE]`.
fn read_plan<'a>(alloc: Global, words: &'a [String]) -> Result<Option<Request<'a>>, Memory>
    ensures { IfOk result (λ r. option_map view r
        ≡ option_and_then plan_in (rows_in plan_app (map string_bytes words.entry.now))) }
{
    match matches_by(plan_command(alloc)?, words)? {
        None => Ok(None),
        Some(matches) => Ok(plan_of(&matches)),
    }
}

// The command of a case, `NAME LINE STOCK PLAN`, without its option.
fn case_command<'a>(alloc: Global, name: &'a str) -> Result<Command<'a>, Memory>
    ensures { IfOk result (λ c. app_of c ≡ case_app name.entry.now) }
{
    let command = train_command(alloc, name)?;
    with_value(alloc, command, "plan")
}

fn case_of<'a>(matches: &ArgMatches<'a>) -> Option<CaseForm<'a>>
    ensures { option_map case_view result ≡ case_in (rows_of (found_of matches.now)) }
{
    let line = value_of(matches, "line")?;
    let stock = value_of(matches, "stock")?;
    let plan = value_of(matches, "plan")?;
    let edits = value_of(matches, "edits");
    Some(CaseForm {
        line,
        stock,
        plan,
        edits,
    })
}

fn plan_command<'a>(alloc: Global) -> Result<Command<'a>, Memory>
    ensures { IfOk result (λ c. app_of c ≡ plan_app) }
{
    let command = case_command(alloc, "plan")?;
    let command = with_option(alloc, command, "print", true)?;
    with_option(alloc, command, "edits", false)
}

fn plan_of<'a>(matches: &ArgMatches<'a>) -> Option<Request<'a>>
    ensures { option_map view result ≡ plan_in (rows_of (found_of matches.now)) }
{
    let case = case_of(matches)?;
    let print = print_of(value_of(matches, "print")?)?;
    Some(Request::Plan(PlanForm { case, print }))
}

// What a plan is asked to print.
fn print_of(word: &str) -> Option<Print>
    ensures { result ≡ print_of word.now }
{
    match word {
        "envelope" => Some(Print::Envelope),
        "timetable" => Some(Print::Timetable),
        "cert" => Some(Print::Cert),
        _ => None,
    }
}

// Reads `check LINE STOCK PLAN CERT [--edits FILE]`.
fn read_check<'a>(alloc: Global, words: &'a [String]) -> Result<Option<Request<'a>>, Memory>
    ensures { IfOk result (λ r. option_map view r
        ≡ option_and_then check_in (rows_in check_app (map string_bytes words.entry.now))) }
{
    match matches_by(check_command(alloc)?, words)? {
        None => Ok(None),
        Some(matches) => Ok(check_of(&matches)),
    }
}

fn check_command<'a>(alloc: Global) -> Result<Command<'a>, Memory>
    ensures { IfOk result (λ c. app_of c ≡ check_app) }
{
    let command = case_command(alloc, "check")?;
    let command = with_value(alloc, command, "cert")?;
    with_option(alloc, command, "edits", false)
}

fn check_of<'a>(matches: &ArgMatches<'a>) -> Option<Request<'a>>
    ensures { option_map view result ≡ check_in (rows_of (found_of matches.now)) }
{
    let case = case_of(matches)?;
    let cert = value_of(matches, "cert")?;
    Some(Request::Check(CheckForm { case, cert }))
}

// Reads `session LINE STOCK PLAN`.
fn read_session<'a>(alloc: Global, words: &'a [String]) -> Result<Option<Request<'a>>, Memory>
    ensures { IfOk result (λ r. option_map view r
        ≡ option_and_then session_in (rows_in session_app (map string_bytes words.entry.now))) }
{
    match matches_by(case_command(alloc, "session")?, words)? {
        None => Ok(None),
        Some(matches) => Ok(session_of(&matches)),
    }
}

fn session_of<'a>(matches: &ArgMatches<'a>) -> Option<Request<'a>>
    ensures { option_map view result ≡ session_in (rows_of (found_of matches.now)) }
{
    let line = value_of(matches, "line")?;
    let stock = value_of(matches, "stock")?;
    let plan = value_of(matches, "plan")?;
    Some(Request::Session(SessionForm { line, stock, plan }))
}

// Reads `gen N`.
fn read_gen<'a>(alloc: Global, words: &'a [String]) -> Result<Option<Request<'a>>, Memory>
    ensures { IfOk result (λ r. option_map view r
        ≡ option_and_then gen_in (rows_in gen_app (map string_bytes words.entry.now))) }
{
    match matches_by(gen_command(alloc)?, words)? {
        None => Ok(None),
        Some(matches) => Ok(gen_of(&matches)),
    }
}

fn gen_command<'a>(alloc: Global) -> Result<Command<'a>, Memory>
    ensures { IfOk result (λ c. app_of c ≡ gen_app) }
{
    let command = plain_command(alloc, "gen");
    with_value(alloc, command, "number")
}

fn gen_of<'a>(matches: &ArgMatches<'a>) -> Option<Request<'a>>
    ensures { option_map view result ≡ gen_in (rows_of (found_of matches.now)) }
{
    let number = number_of(matches, "number", 1, MOST_SEED)?;
    Some(Request::Gen(GenForm { number }))
}
