//! The elements that a tree places, found one by one by arithmetic.
ghost use Rattle.std.specs.Prelude.{◌≡◌, ℕ, ◌*◌, ◌/◌, ◌%◌, ◌≤◌, ◌<◌, ◌+ℤ◌, pos, nat_abs};
ghost use Rattle.dt_tree.specs.Number.{capped};

use dt_kinds::Kind;

/// An element that a tree places: a kind, and where it begins.
#[derive(Clone, Copy, Debug, PartialEq, Eq)]
pub struct Place {
    pub kind: Kind,
    pub disp: i128,
}

/// How often a number goes into another, and what is left. The number may stand still at 2^64.
pub(crate) fn split(k: u64, each: u128) -> (u64, u64)
    requires some { 0 < each }
    ensures times { (whole : ℕ) → each ≡ capped whole → result.0 ≡ k / whole }
    ensures left { (whole : ℕ) → each ≡ capped whole → result.1 ≡ k % whole }
{
    let k = u128::from(k);
    ((k / each) as u64, (k % each) as u64)
}

/// A place so many bytes further on.
pub(crate) fn moved(place: Place, by: i128) -> Place
    requires place { nat_abs place.disp ≤ 1267650600228229401496703205376 }
    requires by { nat_abs by ≤ 1267650600228229401496703205376 }
    ensures kind { result.kind ≡ place.kind }
    ensures disp { result.disp ≡ place.disp +ℤ by }
{
    Place {
        kind: place.kind,
        disp: place.disp + by,
    }
}

/// A place so many extents further on.
pub(crate) fn copies_on(place: Place, copy: u64, extent: u128) -> Place
    requires place { nat_abs place.disp ≤ 1208925819614629174706176 }
    requires copy { copy ≤ 1024 }
    requires extent { extent ≤ 4835703278458516698824704 }
    ensures kind { result.kind ≡ place.kind }
    ensures disp { result.disp ≡ place.disp +ℤ pos (copy * extent) }
    ensures near { nat_abs result.disp ≤ 1267650600228229401496703205376 }
{
    let far = u128::from(copy) * extent;
    Place {
        kind: place.kind,
        disp: place.disp + far as i128,
    }
}
