//! Texts cut into lines, and lines into words, one after another.
ghost use Rattle.std.specs.Prelude.{◌≡◌, ℕ, List, ◌==◌, ◌≤◌, length, [], ◌∷◌, MatchOption};
ghost use Rattle.std.specs.List.{position_or_len};
ghost use Rattle.dt_spelling.specs.Reading.{words_from};
ghost use Rattle.dt_verdict.specs.Cut.{lines_from};

/// How many bytes stand before the first that is `stop`.
fn len_before(bytes: &[u8], stop: u8) -> usize
    ensures exact { position_or_len (λ b. b == stop) bytes.now ≡ result }
    ensures fits { result ≤ length bytes.now }
{
    'bytes: for (i, b) in bytes.iter().enumerate() {
        if *b == stop {
            return i;
        }
    }
    bytes.len()
}

/// The word that begins at a byte of a line, and where the next one begins: one past the end of the line behind the last one.
#[tactic(auto, unfolding(dt_spelling::specs::Reading::words_from))]
pub(crate) fn next_word(line: &[u8], at: usize) -> Option<(&[u8], usize)>
    ensures { MatchOption result (words_from line.now at ≡ []) (λ found. words_from line.now at ≡ found.0.now ∷ words_from line.now found.1) }
{
    let rest = line.get(at..)?;
    let len = len_before(rest, b' ');
    Some((&rest[..len], at + len + 1))
}

/// The line that begins at a byte of a text, without its line feed, and where the next one begins.
#[tactic(auto, unfolding(crate::specs::Cut::lines_from))]
pub(crate) fn next_line(text: &[u8], at: usize) -> Option<(&[u8], usize)>
    ensures { MatchOption result (lines_from text.now at ≡ []) (λ found. lines_from text.now at ≡ found.0.now ∷ lines_from text.now found.1) }
{
    let rest = text.get(at..)?;
    let len = len_before(rest, b'\n');
    if len == rest.len() {
        return None;
    }
    Some((&rest[..len], at + len + 1))
}
