//! What a datatype places where: few numbers for many copies.

use crate::datatype::Datatype;
use dt_kinds::Kind;
use dt_offsets::{Marks, Spot, Turns};
use sqlite_items::Items;

/// A row of copies of an old type of its own.
#[derive(Drop)]
pub struct ShapePartOf<T> {
    pub first: i128,
    pub copies: u32,
    pub step: i128,
    pub old: T,
}

pub type ShapePart = ShapePartOf<Datatype>;

/// Which copies of which old types a datatype places, and where.
#[derive(Drop)]
pub enum ShapeOf<T> {
    /// The kind itself, at 0.
    One(Kind),
    /// A copy at each sum of one offset of each of the turns, the first ones outermost.
    Grid { turns: Items<Turns>, old: T },
    /// The copies of each spot in turn.
    Each { spots: Items<Spot>, old: T },
    /// The copies of each part in turn.
    Seq { parts: Items<ShapePartOf<T>> },
}

pub type Shape = ShapeOf<Datatype>;

/// Whether a datatype has the marks that its placed copies give it, or marks of its own.
#[derive(Clone, Copy)]
pub enum Cover {
    Keep,
    Erase(Marks),
}
