// Why a call is refused, and what a test of what is lent says: each refusal with its number.
#![tactic(auto)]

ghost use Rattle.std.specs.Prelude.{◌≡◌};
ghost use Rattle.def_refusals.specs.Verdicts.{number_of, class_of};

use std::error::Error;
use std::fmt;

// Why a call is refused: each reason has the number that a refusal is told by. Those up to Apply are tested before anything is done,
// the lowest over the whole input; the others are met as the steps run.
#[derive(Clone, Copy, Debug, PartialEq, Eq, PartialOrd, Ord)]
pub enum Refusal {
    // A lent slice or image has the wrong length.
    Length = 1,
    // An edition, a count or an offset is wrong, or a count is above its limit.
    Count = 2,
    // A code, flag, number, index or reason bit lies outside its range, or a run of places passes their end.
    Range = 3,
    // Two entries of one key, a wrong order, an unused word that is not zero, or a fresh number not below next.
    Order = 4,
    // A candidate is Apply.
    Apply = 5,
    // A place is to begin that already began in this instruction.
    Begun = 6,
    // An Alias goes into a place that did not begin in this instruction.
    NotBegun = 7,
    // There is no room for another key to intern.
    Interned = 8,
    // There is no fresh number left.
    Numbers = 9,
    // There is no room for another diagnostic or instance.
    Diagnostics = 10,
    // The walk of one Freeze would make one entry too many.
    Entries = 11,
    // The depth of derivation is used up: no instruction comes to it.
    Depth = 99,
}

// What a test of what is lent says: nothing is wrong, or why it is refused.
pub type Verdict = Result<(), Refusal>;

impl Refusal {
    // The number that the refusal is told by.
    pub fn number(self) -> u32
        ensures { result ≡ number_of self }
    {
        self as u32
    }
}

impl fmt::Display for Refusal {
    fn fmt<W: fmt::Write>(&self, f: &mut fmt::Formatter<W>) -> fmt::Result {
        match self {
            Refusal::Length => write!(f, "a lent slice or image has the wrong length"),
            Refusal::Count => write!(f, "an edition, a count or an offset is wrong"),
            Refusal::Range => write!(f, "a word lies outside its range"),
            Refusal::Order => write!(
                f,
                "entries out of order, or an unused word that is not zero"
            ),
            Refusal::Apply => write!(f, "a candidate is Apply"),
            Refusal::Begun => write!(f, "a place begins twice in one instruction"),
            Refusal::NotBegun => write!(f, "an Alias into a place that did not begin"),
            Refusal::Interned => write!(f, "no room for another key to intern"),
            Refusal::Numbers => write!(f, "no fresh number is left"),
            Refusal::Diagnostics => write!(f, "no room for another diagnostic or instance"),
            Refusal::Entries => write!(f, "the walk of one Freeze makes too many entries"),
            Refusal::Depth => write!(f, "the depth of derivation is used up"),
        }
    }
}

impl Error for Refusal {}

// The number that a verdict is told by: 0 where nothing is wrong.
pub fn class_of(verdict: Verdict) -> u32
    ensures { result ≡ class_of verdict }
{
    match verdict {
        Ok(()) => 0,
        Err(refusal) => refusal.number(),
    }
}
