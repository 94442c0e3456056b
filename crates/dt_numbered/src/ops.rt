//! The operations of reductions, under numbers.

/// An operation that joins two words of a kind.
#[derive(Clone, Copy, Debug, PartialEq, Eq)]
pub enum Op {
    Sum,
    Prod,
    Min,
    Max,
    And,
    Or,
    Xor,
    First,
    Last,
}

/// All operations, in the order of their numbers.
pub const OPS: [Op; 9] = [
    Op::Sum,
    Op::Prod,
    Op::Min,
    Op::Max,
    Op::And,
    Op::Or,
    Op::Xor,
    Op::First,
    Op::Last,
];
