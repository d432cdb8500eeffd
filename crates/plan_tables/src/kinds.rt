//! The kinds of records of a plan file, and of allowances.

ghost use Rattle.std.specs.Prelude.{◌≡◌};
ghost use Rattle.plan_tables.specs.PlanFile.{allow_kind_of, kind_of};

use crate::AllowKind;

#[derive(Clone, Copy, PartialEq, Eq)]
pub(crate) enum Kind {
    Comment,
    Depart,
    Enter,
    Leave,
    Stop,
    Pass,
    Allow,
}

// The kind of record that a first field names.
pub(crate) fn kind_of(word: &[u8]) -> Option<Kind>
    ensures { result ≡ kind_of word.now }
{
    if !word.is_empty() && word[0] == b'#' {
        Some(Kind::Comment)
    } else if word == b"depart".as_slice() {
        Some(Kind::Depart)
    } else if word == b"enter".as_slice() {
        Some(Kind::Enter)
    } else if word == b"leave".as_slice() {
        Some(Kind::Leave)
    } else if word == b"stop".as_slice() {
        Some(Kind::Stop)
    } else if word == b"pass".as_slice() {
        Some(Kind::Pass)
    } else if word == b"allow".as_slice() {
        Some(Kind::Allow)
    } else {
        None
    }
}

// The kind of allowance that a word names.
pub(crate) fn allow_kind_of(word: &[u8]) -> Option<AllowKind>
    ensures { result ≡ allow_kind_of word.now }
{
    if word == b"percent".as_slice() {
        Some(AllowKind::Percent)
    } else if word == b"per100km".as_slice() {
        Some(AllowKind::Per100km)
    } else if word == b"fixed".as_slice() {
        Some(AllowKind::Fixed)
    } else {
        None
    }
}
