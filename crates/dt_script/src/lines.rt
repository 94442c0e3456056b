//! The lines of an input, one after another.
ghost use Rattle.std.specs.Prelude.{◌≡◌, ◌≢◌, ◌<◌, ◌==◌, [], ◌∷◌, length};
ghost use Rattle.dt_script.specs.Lines.{raw_lines, without_return, script_lines};

use crate::words::{Ends, len_before};

/// A line feed ends a line.
struct LineFeed;

impl Ends for LineFeed {
    ghost ends = { λ b. b == 10 };

    fn ends(b: u8) -> bool {
        b == b'\n'
    }
}

/// A line without the one carriage return at its end.
fn without_return(line: &[u8]) -> &[u8]
    ensures { result.now ≡ without_return line.now }
{
    if line.ends_with(b"\r") {
        &line[..line.len() - 1]
    } else {
        line
    }
}

/// The first line of an input as it stands there, and the bytes after it.
fn raw_line(bytes: &[u8]) -> (&[u8], &[u8])
    requires { bytes.now ≢ [] }
    ensures lines { raw_lines bytes.now ≡ result.0.now ∷ raw_lines result.1.now }
    ensures shorter { length result.1.now < length bytes.now }
{
    let (line, rest) = bytes.split_at(len_before::<LineFeed>(bytes));
    match rest.split_first() {
        Some((_, after)) => (line, after),
        None => (line, rest),
    }
}

/// The first line of an input, and the bytes after it.
pub fn first_line(bytes: &[u8]) -> (&[u8], &[u8])
    requires { bytes.now ≢ [] }
    ensures lines { script_lines bytes.now ≡ result.0.now ∷ script_lines result.1.now }
    ensures shorter { length result.1.now < length bytes.now }
{
    let (line, rest) = raw_line(bytes);
    (without_return(line), rest)
}
