//! What packed bytes stand for, stored at even places of a buffer.
ghost use Rattle.std.specs.Prelude.{◌≡◌, ℕ, pos, ◌+ℤ◌, ◌*ℤ◌, ◌+◌, ◌*◌, ◌^◌, ◌<◌, ◌≤◌, length, nat_abs, take, drop};
ghost use Rattle.dt_map.specs.Setting.{written};
ghost use Rattle.dt_offsets.specs.Offsets.{row_offsets};
ghost use Rattle.dt_rows.specs.Pieces.{IsPiece};
ghost use Rattle.dt_rows.specs.Storing.{stored};

use crate::pieces::place;
use crate::store::Store;

/// Stores what packed bytes stand for at a place of the buffer.
fn store_at<S: Store>(store: &S, image: &[u8], buffer: &mut [u8], at: i64)
    requires inside { IsPiece (length buffer.old) (S.width store.now) at }
    requires read { length image.now ≡ S.packed store.now }
    ensures value { buffer.new ≡ written buffer.old (nat_abs at) (S.restored store.now image.now) }
    ensures len { length (S.restored store.now image.now) ≡ S.width store.now }
{
    let width = store.width();
    let at = at as usize;
    store.store(image, &mut buffer[at..at + width]);
}

/// Stores what packed bytes stand for at `count` places of the buffer; the first is `start`, each next one `step` bytes further on.
/// No other byte of the buffer changes.
pub(crate) fn scatter_stores<S: Store>(
    store: &S,
    packed: &[u8],
    buffer: &mut [u8],
    start: i64,
    count: u64,
    step: i64,
)
    requires inside { (i : ℕ) → i < count → IsPiece (length buffer.old) (S.width store.now) (start +ℤ (pos i *ℤ step)) }
    requires near { length buffer.old < 2 ^ 63 }
    requires few { count < 2 ^ 63 }
    requires enough { count * S.packed store.now ≤ length packed.now }
    ensures { buffer.new ≡ stored (S.restored store.now) (S.packed store.now) (row_offsets start count step) buffer.old packed.now }
{
    let width = store.packed();
    'places: for i in 0..count {
        let from = i as usize * width;
        store_at(
            store,
            &packed[from..from + width],
            buffer,
            place(start, i, step),
        );
    }
}
