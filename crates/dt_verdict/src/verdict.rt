//! What the text of a certificate shows.
ghost use Rattle.std.specs.Prelude.{ℕ, List, MatchResult};
ghost use Rattle.dt_cert.specs.Read.{certificate_in};
ghost use Rattle.dt_cert.specs.Shown.{IsShown};
ghost use Rattle.dt_verdict.specs.Verdict.{Breaks, IsLeastShown, IsNotShown};

use crate::read::{ReadFault, read_cert};
use dt_cert::{Certificate, Failing, judge};
use dt_kinds::NoMemory;
use std::alloc::{AllocError, Global};
use thiserror::Error;

/// Why a text doesn't show that a tree is least: the first reason, in this order.
#[derive(Clone, Copy, Debug, PartialEq, Eq, Error)]
pub enum NotShown {
    /// The text is that of no certificate. `line` is the number, from 1, of the first line that isn't as it should be, or is missing.
    #[error("line {line} isn't as certificates want it, or is missing")]
    Syntax { line: u64 },
    /// The first number, from 0, where tree and typemap differ or one of them ends.
    #[error("tree and typemap differ at entry {at}")]
    WrongMap { at: u64 },
    /// The cost that is stated and that of the tree, where they differ.
    #[error("the cost is stated as {stated}, and is {found}")]
    WrongCost { stated: u64, found: u64 },
    /// The first segment at which the table isn't valid: shorter ones first, then by start.
    #[error("the table isn't valid at the segment from {from} to {to}")]
    LowFails { from: u32, to: u32 },
    /// The table's value for the whole typemap and the stated cost, where the value is less.
    #[error("the table says {low} of the whole, and the cost is {cost}")]
    RootBelow { low: u64, cost: u64 },
    #[error("memory ran out")]
    NoMemory,
}

impl From<NoMemory> for NotShown {
    ghost use Rattle.std.specs.Prelude.{◌≡◌};
    ghost use Rattle.dt_verdict.specs.declared.verdict.NotShown.TheVariants.{NoMemory as WithoutMemory};

    ghost from_gives = { λ _ fault. fault ≡ WithoutMemory };

    fn from(_error: NoMemory) -> NotShown {
        NotShown::NoMemory
    }
}

impl From<AllocError> for NotShown {
    ghost use Rattle.std.specs.Prelude.{◌≡◌};
    ghost use Rattle.dt_verdict.specs.declared.verdict.NotShown.TheVariants.{NoMemory as WithoutMemory};

    ghost from_gives = { λ _ fault. fault ≡ WithoutMemory };

    fn from(_error: AllocError) -> NotShown {
        NotShown::NoMemory
    }
}

/// The rule that is broken, as a reason.
fn reason(failing: Failing) -> NotShown
    ensures { (text : List ℕ) → Breaks text failing → IsNotShown text result }
{
    match failing {
        Failing::WrongMap { at } => NotShown::WrongMap { at },
        Failing::WrongCost { stated, found } => NotShown::WrongCost { stated, found },
        Failing::LowFails { from, to } => NotShown::LowFails { from, to },
        Failing::RootBelow { low, cost } => NotShown::RootBelow { low, cost },
        Failing::NoMemory => NotShown::NoMemory,
    }
}

/// The certificate that a text shows, of either version; or the first reason why it shows none.
pub(crate) fn shown(alloc: Global, text: &[u8]) -> Result<Certificate, NotShown>
    ensures { MatchResult result (λ c. IsShown text.now (certificate_in c)) (λ fault. IsNotShown text.now fault) }
{
    let c = match read_cert(alloc, text) {
        Ok(c) => c,
        Err(ReadFault::Syntax { line }) => return Err(NotShown::Syntax { line }),
        Err(ReadFault::NoMemory) => return Err(NotShown::NoMemory),
    };
    match judge(alloc, &c) {
        Ok(_) => Ok(c),
        Err(failing) => Err(reason(failing)),
    }
}

/// Reads the text of a certificate, of either version, and tests its four rules in their order, by the values in the text alone (see
/// `read_cert` and `judge`). The answer is the cost of its tree, and no tree for its typemap costs less; or the first reason why the text
/// doesn't show this.
pub fn check(alloc: Global, text: &[u8]) -> Result<u64, NotShown>
    ensures { MatchResult result (λ cost. IsLeastShown text.now cost) (λ fault. IsNotShown text.now fault) }
{
    match shown(alloc, text) {
        Ok(c) => Ok(c.cost),
        Err(fault) => Err(fault),
    }
}
