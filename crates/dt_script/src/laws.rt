//! What holds of the definitions themselves.
ghost use Rattle.std.specs.Prelude.{◌≡◌, List, ℕ};
ghost use Rattle.dt_script.specs.Line.{Meaning, IsLine};

/// Each line has a meaning.
pub fn some_meaning()
    ensures { (line : List ℕ) → (m : Meaning) × IsLine line m }
{}

/// A line means one thing alone: it is in at most one line form, and a fault is in none.
pub fn one_meaning()
    ensures { (line : List ℕ) (m n : Meaning) → IsLine line m → IsLine line n → m ≡ n }
{}
