ghost use Rattle.std.specs.Prelude.{◌≡◌, ◌≢◌, ◌≤◌, ℕ, Bool, List, length, MatchOption, [], ◌∷◌, false};
ghost use Rattle.std.specs.List.{position_or_len};
ghost use Rattle.dt_script.specs.Words.{is_blank, begins_blank, words_of};

/// Whether a byte is a space or a tab.
pub(crate) fn is_blank(b: u8) -> bool
    ensures { result ≡ is_blank b }
{
    b == b' ' || b == b'\t'
}

/// The line from its first byte on that is no blank.
fn without_blanks(line: &[u8]) -> &[u8]
    ensures words { words_of result.now ≡ words_of line.now }
    ensures first { begins_blank result.now ≡ false }
{
    let mut rest = line;
    'blanks: while let [b, after @ ..] = rest {
        if !is_blank(*b) {
            break;
        }
        rest = after;
    }
    rest
}

/// Which bytes end a piece of a text.
pub(crate) trait Ends {
    ghost ends: { ℕ → Bool };

    fn ends(b: u8) -> bool
        ensures { result ≡ ends b };
}

/// Blanks end words.
struct Blank;

impl Ends for Blank {
    ghost ends = { is_blank };

    fn ends(b: u8) -> bool {
        is_blank(b)
    }
}

/// How many bytes stand before the first that ends a piece.
pub(crate) fn len_before<E: Ends>(bytes: &[u8]) -> usize
    ensures exact { position_or_len E.ends bytes.now ≡ result }
    ensures fits { result ≤ length bytes.now }
{
    for (i, b) in bytes.iter().enumerate() {
        if E::ends(*b) {
            return i;
        }
    }
    bytes.len()
}

/// The first word of a line that begins with one, and the bytes after it.
fn split_at_blank(line: &[u8]) -> (&[u8], &[u8])
    ensures { begins_blank line.now ≡ false → line.now ≢ [] → words_of line.now ≡ result.0.now ∷ words_of result.1.now }
{
    line.split_at(len_before::<Blank>(line))
}

/// The first word of a line, and the bytes after it.
pub(crate) fn next_word(line: &[u8]) -> Option<(&[u8], &[u8])>
    ensures { MatchOption result (words_of line.now ≡ []) (λ found. words_of line.now ≡ found.0.now ∷ words_of found.1.now) }
{
    let rest = without_blanks(line);
    if rest.is_empty() {
        return None;
    }
    Some(split_at_blank(rest))
}
