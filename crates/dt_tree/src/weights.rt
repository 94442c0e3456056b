//! What the parts of a tree cost.
ghost use Rattle.std.specs.Prelude.{◌≡◌, ◌≤◌, MatchOption};

use std::marker::Model;

/// The weights of a leaf, a vector, an index, each of its places, a group, and each of its parts: each at most 1,000,000.
#[derive(Clone, Copy, Debug, PartialEq, Eq)]
pub struct Weights {
    leaf: u32,
    vector: u32,
    index: u32,
    place: u32,
    group: u32,
    part: u32,
}

impl Model for Weights {
    ghost use Rattle.dt_tree.specs.Weights.{Weights, weights_of, AreLight};

    ghost Value = { Weights };

    ghost view = { λ w. weights_of w.leaf w.vector w.index w.place w.group w.part };

    ghost invariant = { λ w. AreLight (weights_of w.leaf w.vector w.index w.place w.group w.part) };

    ghost inverse = { λ w. record { leaf = w.leaf; vector = w.vector; index = w.index; place = w.place; group = w.group; part = w.part } };
}

impl Weights {
    ghost use Rattle.dt_tree.specs.Weights.{weights_of, AreLight};

    /// The greatest weight that is taken.
    pub const MOST: u32 = 1_000_000;

    /// These six weights, or nothing where one of them is above 1,000,000.
    pub fn new(
        leaf: u32,
        vector: u32,
        index: u32,
        place: u32,
        group: u32,
        part: u32,
    ) -> Option<Weights>
        ensures { MatchOption result (¬ AreLight (weights_of leaf vector index place group part)) (λ w. w ≡ weights_of leaf vector index place group part) }
    {
        if leaf > Weights::MOST
            || vector > Weights::MOST
            || index > Weights::MOST
            || place > Weights::MOST
            || group > Weights::MOST
            || part > Weights::MOST
        {
            return None;
        }
        Some(Weights {
            leaf,
            vector,
            index,
            place,
            group,
            part,
        })
    }

    /// Each of them is within its limit.
    pub(crate) fn are_light(&self)
        ensures { AreLight self.now }
    {
        let _ = &self.leaf;
    }

    /// The weight of a leaf.
    pub fn leaf(&self) -> u32
        ensures value { result ≡ self.now.leaf }
        ensures light { result ≤ 1000000 }
    {
        self.leaf
    }

    /// The weight of a vector.
    pub fn vector(&self) -> u32
        ensures value { result ≡ self.now.vector }
        ensures light { result ≤ 1000000 }
    {
        self.vector
    }

    /// The weight of an index.
    pub fn index(&self) -> u32
        ensures value { result ≡ self.now.index }
        ensures light { result ≤ 1000000 }
    {
        self.index
    }

    /// The weight of each place of an index.
    pub fn place(&self) -> u32
        ensures value { result ≡ self.now.place }
        ensures light { result ≤ 1000000 }
    {
        self.place
    }

    /// The weight of a group.
    pub fn group(&self) -> u32
        ensures value { result ≡ self.now.group }
        ensures light { result ≤ 1000000 }
    {
        self.group
    }

    /// The weight of each part of a group.
    pub fn part(&self) -> u32
        ensures value { result ≡ self.now.part }
        ensures light { result ≤ 1000000 }
    {
        self.part
    }
}

impl Default for Weights {
    ghost use Rattle.dt_tree.specs.Weights.{default_weights};

    /// 1, 3, 2, 1, 2 and 2.
    fn default() -> Weights
        ensures { result ≡ default_weights }
    {
        Weights {
            leaf: 1,
            vector: 3,
            index: 2,
            place: 1,
            group: 2,
            part: 2,
        }
    }
}
