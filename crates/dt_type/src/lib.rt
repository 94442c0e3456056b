//! MPI datatypes: shared, never changed, each made of what it places and of what its user said.
#![tactic(auto)]

mod child;
mod contents;
pub mod datatype;
mod digest;
mod entries;
mod envelope;
pub mod fault;
mod flatten;
pub mod laws;
pub mod limits;
mod make;
mod measures;
pub mod shape;

pub use datatype::{Contents, Datatype, Form, Part, Seen};
pub use dt_form::{
    AddrBlock, Combiner, ContentsOf, Dist, DistDim, Envelope, FormOf, IntBlock, Order, PartOf,
    SubDim,
};
pub use dt_offsets::{Spot, Turns};
pub use fault::{ChildFault, ContentsFault, CtorFault, FlattenFault};
pub use limits::{DEPTH_MAX, WEIGHT_MAX};
pub use shape::{Cover, Shape, ShapeOf, ShapePart, ShapePartOf};
