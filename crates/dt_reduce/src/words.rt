//! Words of elements that stand one after another, and joining them.
ghost use Rattle.std.specs.Prelude.{◌≡◌, ◌*◌, ◌++◌, ◌≤◌, ◌^◌, ◌<◌, drop, length};
ghost use Rattle.dt_kinds.specs.Kind.{native_size};
ghost use Rattle.dt_reduce.specs.Words.{joined_word, joined_words};

use crate::widths::{Eight, Four, One, Two, Width};
use dt_kinds::Kind;
use dt_ops::{Call, Law, StoredOp};

/// Joins the first word of the source with that of the target, which becomes what they are joined to. The rest stays.
fn join_word<L: Law, F: Call, W: Width>(
    op: &StoredOp<L, F>,
    kind: Kind,
    width: &W,
    source: &[u8],
    target: &mut [u8],
)
    requires size { W.size width.now ≡ native_size kind }
    requires source { native_size kind ≤ length source.now }
    requires target { native_size kind ≤ length target.old }
    ensures { target.new ≡ joined_word L.join kind source.now target.old ++ drop (native_size kind) target.old }
{
    L::holds();
    let word = op.join(kind, width.word(source), width.word(target));
    width.put(word, target);
}

/// Joins the first `count` words of the source, all of one width, with those of the target. The rest stays.
fn join_each<L: Law, F: Call, W: Width>(
    op: &StoredOp<L, F>,
    kind: Kind,
    width: &W,
    count: usize,
    source: &[u8],
    target: &mut [u8],
)
    requires size { W.size width.now ≡ native_size kind }
    requires source { count * native_size kind ≤ length source.now }
    requires target { count * native_size kind ≤ length target.old }
    requires near { length target.old < 2 ^ 63 }
    ensures { target.new ≡ joined_words L.join kind count source.now target.old ++ drop (count * native_size kind) target.old }
{
    let size = width.size();
    'words: for i in 0..count {
        join_word(
            op,
            kind,
            width,
            &source[i * size..],
            &mut target[i * size..],
        );
    }
}

/// Joins the first `count` words of the source with those of the target. The rest stays.
pub(crate) fn join_words<L: Law, F: Call>(
    op: &StoredOp<L, F>,
    kind: Kind,
    count: usize,
    source: &[u8],
    target: &mut [u8],
)
    requires source { count * native_size kind ≤ length source.now }
    requires target { count * native_size kind ≤ length target.old }
    requires near { length target.old < 2 ^ 63 }
    ensures { target.new ≡ joined_words L.join kind count source.now target.old ++ drop (count * native_size kind) target.old }
{
    match kind.size() {
        1 => join_each(op, kind, &One, count, source, target),
        2 => join_each(op, kind, &Two, count, source, target),
        4 => join_each(op, kind, &Four, count, source, target),
        _ => join_each(op, kind, &Eight, count, source, target),
    }
}
