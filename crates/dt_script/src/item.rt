//! Words that spell a number, a name or a representation, or pieces with `@` or `:` between.
ghost use Rattle.std.specs.Prelude.{◌≡◌, List, ℕ, Option, MatchOption, Some, None};
ghost use Rattle.dt_script.specs.Array.{order_of};
ghost use Rattle.dt_script.specs.Name.{name_of};
ghost use Rattle.dt_script.specs.Number.{int_of, address_of};
ghost use Rattle.dt_script.specs.Reading.{cut_of, rep_of, int_block_of, address_block_of, part_of, sub_dim_of, dist_dim_of};
ghost use Rattle.dt_script.specs.Reduction.{op_of, how_of};

use crate::array::{darg, dist, order};
use crate::command::{How, NamedPart, Op};
use crate::name::Name;
use crate::number::{address, int};
use crate::reduction::{how, op};
use dt_form::{AddrBlock, DistDim, IntBlock, Order, SubDim};
use dt_kinds::Rep;

/// What one word can spell.
pub(crate) trait Item: Sized {
    ghost item_of: { List ℕ → Option Self };

    fn of_word(word: &[u8]) -> Option<Self>
        ensures { result ≡ item_of word.now };
}

impl Item for i32 {
    ghost item_of = { int_of };

    fn of_word(word: &[u8]) -> Option<i32> {
        int(word)
    }
}

impl Item for i64 {
    ghost item_of = { address_of };

    fn of_word(word: &[u8]) -> Option<i64> {
        address(word)
    }
}

impl Item for Name {
    ghost item_of = { name_of };

    fn of_word(word: &[u8]) -> Option<Name> {
        Name::new(word)
    }
}

impl Item for Rep {
    ghost item_of = { rep_of };

    fn of_word(word: &[u8]) -> Option<Rep> {
        if word == b"native".as_slice() {
            Some(Rep::Native)
        } else if word == b"external32".as_slice() {
            Some(Rep::External32)
        } else {
            None
        }
    }
}

impl Item for Order {
    ghost item_of = { order_of };

    fn of_word(word: &[u8]) -> Option<Order> {
        order(word)
    }
}

impl Item for Op {
    ghost item_of = { op_of };

    fn of_word(word: &[u8]) -> Option<Op> {
        op(word)
    }
}

impl Item for How {
    ghost item_of = { how_of };

    fn of_word(word: &[u8]) -> Option<How> {
        how(word)
    }
}

impl Item for IntBlock {
    ghost item_of = { int_block_of };

    #[tactic(auto, unfolding(crate::specs::Reading::int_block_of))]
    fn of_word(word: &[u8]) -> Option<IntBlock> {
        let (len, disp) = cut(b'@', word)?;
        let len = int(len)?;
        let disp = int(disp)?;
        Some(IntBlock { len, disp })
    }
}

impl Item for AddrBlock {
    ghost item_of = { address_block_of };

    #[tactic(auto, unfolding(crate::specs::Reading::address_block_of))]
    fn of_word(word: &[u8]) -> Option<AddrBlock> {
        let (len, disp) = cut(b'@', word)?;
        let len = int(len)?;
        let disp = address(disp)?;
        Some(AddrBlock { len, disp })
    }
}

impl Item for NamedPart {
    ghost item_of = { part_of };

    #[tactic(auto, unfolding(crate::specs::Reading::part_of))]
    fn of_word(word: &[u8]) -> Option<NamedPart> {
        let (len, pieces) = cut(b'@', word)?;
        let len = int(len)?;
        let (disp, old) = cut(b'@', pieces)?;
        let disp = address(disp)?;
        let old = Name::new(old)?;
        Some(NamedPart { len, disp, old })
    }
}

impl Item for SubDim {
    ghost item_of = { sub_dim_of };

    #[tactic(auto, unfolding(crate::specs::Reading::sub_dim_of))]
    fn of_word(word: &[u8]) -> Option<SubDim> {
        let (size, pieces) = cut(b':', word)?;
        let size = int(size)?;
        let (sub, start) = cut(b':', pieces)?;
        let sub = int(sub)?;
        let start = int(start)?;
        Some(SubDim { size, sub, start })
    }
}

impl Item for DistDim {
    ghost item_of = { dist_dim_of };

    #[tactic(auto, unfolding(crate::specs::Reading::dist_dim_of))]
    fn of_word(word: &[u8]) -> Option<DistDim> {
        let (gsize, pieces) = cut(b':', word)?;
        let gsize = int(gsize)?;
        let (dealt, pieces) = cut(b':', pieces)?;
        let dist = dist(dealt)?;
        let (length, psize) = cut(b':', pieces)?;
        let darg = darg(length)?;
        let psize = int(psize)?;
        Some(DistDim {
            gsize,
            dist,
            darg,
            psize,
        })
    }
}

/// The bytes of a word before the first mark, and those behind it.
fn cut(mark: u8, word: &[u8]) -> Option<(&[u8], &[u8])>
    ensures { MatchOption result (cut_of mark word.now ≡ None) (λ cut. cut_of mark word.now ≡ Some (cut.0.now, cut.1.now)) }
{
    for (i, b) in word.iter().enumerate() {
        if *b == mark {
            return Some((word.split_at(i).0, word.split_at(i + 1).1));
        }
    }
    None
}
