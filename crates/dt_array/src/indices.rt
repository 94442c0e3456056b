//! The chosen indices of one dimension of an array: few numbers for many indices.
ghost use Rattle.std.specs.Prelude.{◌≡◌, ◌+◌, ◌-◌, ◌*◌, ◌/◌, ◌%◌, ◌==◌, ◌<◌, ◌≤◌, min, map};
ghost use Rattle.std.specs.List.{filter};
ghost use Rattle.dt_array.specs.Indices.{AreInside, axis_of};
ghost use Rattle.dt_offsets.specs.Offsets.{below};

/// Indices in blocks: index q, for q below `count`, is `first + (q div block) * jump + q mod block`, of the `full` indices of the
/// dimension. A `block` is at least 1.
#[derive(Clone, Copy)]
pub struct Indices {
    pub full: u64,
    pub first: u64,
    pub count: u64,
    pub block: u64,
    pub jump: u64,
}

/// `count` indices in a row, from `first` on.
pub(crate) fn row_of(full: u64, first: u64, count: u64) -> Indices
    requires some { 1 ≤ count }
    requires within { first + count ≤ full }
    requires short { full ≤ 2147483647 }
    ensures axis { axis_of result ≡ record { full = full; chosen = map (λ k. first + k) (below count) } }
    ensures inside { AreInside result }
{
    Indices {
        full,
        first,
        count,
        block: count,
        jump: 0,
    }
}

/// How many of `full` indices one of the processes holds, whose first block lies `before` indices from the start of each round: a block
/// in each whole round, and what it has of the last.
fn held_of(full: u64, block: u64, round: u64, before: u64) -> u64
    requires some { 1 ≤ block }
    requires fits { block ≤ round }
    requires short { full ≤ 2147483647 }
    ensures { result ≡ full / round * block + min (full % round - before) block }
{
    full / round * block + (full % round).saturating_sub(before).min(block)
}

/// The number where there are more than `few`, and 0 where there aren't.
fn beyond(count: u64, few: u64, number: u64) -> u64
    ensures more { few < count → result ≡ number }
    ensures no_more { count ≤ few → result ≡ 0 }
{
    if count > few { number } else { 0 }
}

/// The indices that process `r` holds where `procs` processes take a block each, and then once more, as long as there are any.
pub(crate) fn rounds_of(full: u64, block: u64, procs: u64, r: u64) -> Indices
    requires some { 1 ≤ full }
    requires short { full ≤ 2147483647 }
    requires least { 1 ≤ block }
    requires most { block ≤ 2147483647 }
    requires procs { procs ≤ 2147483647 }
    requires r { r < procs }
    ensures axis { axis_of result ≡ record { full = full; chosen = filter (λ g. (g / block) % procs == r) (below full) } }
    ensures inside { AreInside result }
{
    let round = procs * block;
    let before = r * block;
    let count = held_of(full, block, round, before);
    Indices {
        full,
        first: beyond(count, 0, before),
        count,
        block,
        jump: beyond(count, block, round),
    }
}
