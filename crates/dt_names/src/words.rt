//! Words that are left out.
ghost use Rattle.std.specs.Prelude.{◌≡◌};
ghost use Rattle.dt_kinds.specs.Name.{is_left_out};

use dt_kinds::{Kind, KindFault};
use dt_script::Name;

/// Whether a type word is the name of a datatype that is left out.
pub fn is_left_out(word: &Name) -> bool
    ensures { result ≡ is_left_out word.now }
{
    matches!(Kind::of_name(word.as_bytes()), Err(KindFault::Unsupported))
}
