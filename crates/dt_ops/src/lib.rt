//! Operations on the words of elements: what two words of a kind are joined to, that neighbours may be joined in any order, and
//! closures kept beside the fact that they answer such a join.
#![tactic(auto)]

pub mod law;
pub mod laws;
pub mod ops;
pub mod stored;
pub mod word;

pub use law::{AndLaw, FirstLaw, LastLaw, Law, MaxLaw, MinLaw, OrLaw, ProdLaw, SumLaw, XorLaw};
pub use ops::{and, first, last, max, min, or, prod, sum, xor};
pub use stored::{Call, StoredOp};
pub use word::is_word;
