//! A certificate, read from its text.
ghost use Rattle.std.specs.Prelude.{◌≡◌, ◌+◌, ◌-◌, length, MatchResult};
ghost use Rattle.dt_cert.specs.Read.{certificate_in};
ghost use Rattle.dt_verdict.specs.Cut.{lines_from, lines_in};
ghost use Rattle.dt_verdict.specs.Fault.{IsRefused, IsTextOf};

use crate::cut::next_line;
use crate::stop::Stop;
use crate::whole::whole;
use dt_cert::Certificate;
use std::alloc::Global;
use thiserror::Error;

/// Why a text isn't read as a certificate.
#[derive(Clone, Copy, Debug, PartialEq, Eq, Error)]
pub enum ReadFault {
    /// The text is that of no certificate. `line` is the number, from 1, of the first line that isn't as it should be, or is missing.
    #[error("line {line} isn't as certificates want it, or is missing")]
    Syntax { line: u64 },
    #[error("memory ran out")]
    NoMemory,
}

/// How many lines begin at a byte of a text or behind it.
fn lines_left(text: &[u8], at: usize) -> u64
    ensures { result ≡ length (lines_from text.now at) }
{
    let mut lines = 0;
    let mut next = at;
    'lines: while let Some((_, after)) = next_line(text, next) {
        lines += 1;
        next = after;
    }
    lines
}

/// The number of the line that begins at a byte.
pub(crate) fn line_number(text: &[u8], at: usize) -> u64
    ensures { result ≡ length (lines_from text.now 0) - length (lines_from text.now at) + 1 }
{
    lines_left(text, 0).saturating_sub(lines_left(text, at)) + 1
}

/// The certificate whose text this is (see `write_cert`), of either version.
///
/// `Syntax` comes exactly where the text is that of no certificate. Its `line` is the first one, from 1, with which, behind those before it,
/// no certificate's text begins; and one more than all lines where there is no such line: lines are missing, or bytes without a line feed
/// stand behind the last one. `NoMemory` where memory ran out.
pub fn read_cert(alloc: Global, text: &[u8]) -> Result<Certificate, ReadFault>
    ensures { MatchResult result (λ c. IsTextOf text.now (certificate_in c)) (λ fault. IsRefused text.now fault) }
{
    match whole(alloc, text) {
        Ok(c) => Ok(c),
        Err(Stop::At(at)) => Err(ReadFault::Syntax {
            line: line_number(text, at),
        }),
        Err(Stop::NoMemory) => Err(ReadFault::NoMemory),
    }
}
