//! The arguments of a constructor in front of its old type.
ghost use Rattle.std.specs.Prelude.{◌≡◌};
ghost use Rattle.dt_type.specs.Answer.{IsAnswer};
ghost use Rattle.dt_wire.specs.Building.{arguments_at, with_old};
ghost use Rattle.dt_wire.specs.Given.{Takes};

use crate::lists::list;
use crate::stop::Stop;
use crate::values::{Field, order};
use dt_array::{darray, subarray};
use dt_ctor::{
    contiguous, dup, hindexed, hindexed_block, hvector, indexed, indexed_block, resized, vector,
};
use dt_form::{AddrBlock, Combiner, DistDim, IntBlock, Order, SubDim};
use dt_type::{CtorFault, Datatype};
use sqlite_items::Items;
use std::alloc::Global;

/// The arguments of a constructor that has one old type, without that.
#[derive(Drop)]
pub(crate) enum Arguments {
    Dup,
    Contiguous {
        count: i32,
    },
    Vector {
        count: i32,
        block: i32,
        stride: i32,
    },
    Hvector {
        count: i32,
        block: i32,
        stride: i64,
    },
    Indexed {
        blocks: Items<IntBlock>,
    },
    Hindexed {
        blocks: Items<AddrBlock>,
    },
    IndexedBlock {
        block: i32,
        disps: Items<i32>,
    },
    HindexedBlock {
        block: i32,
        disps: Items<i64>,
    },
    Subarray {
        dims: Items<SubDim>,
        order: Order,
    },
    Darray {
        size: i32,
        rank: i32,
        dims: Items<DistDim>,
        order: Order,
    },
    Resized {
        lb: i64,
        extent: i64,
    },
}

/// The datatype that a constructor makes of its arguments and an old type.
pub(crate) fn construct(
    alloc: Global,
    arguments: &Arguments,
    old: &Datatype,
) -> Result<Datatype, CtorFault>
    ensures { IsAnswer (with_old arguments.now old.now) result }
{
    match arguments {
        Arguments::Dup => dup(alloc, old),
        Arguments::Contiguous { count } => contiguous(alloc, *count, old),
        Arguments::Vector {
            count,
            block,
            stride,
        } => vector(alloc, *count, *block, *stride, old),
        Arguments::Hvector {
            count,
            block,
            stride,
        } => hvector(alloc, *count, *block, *stride, old),
        Arguments::Indexed { blocks } => indexed(alloc, blocks.as_slice(), old),
        Arguments::Hindexed { blocks } => hindexed(alloc, blocks.as_slice(), old),
        Arguments::IndexedBlock { block, disps } => {
            indexed_block(alloc, *block, disps.as_slice(), old)
        }
        Arguments::HindexedBlock { block, disps } => {
            hindexed_block(alloc, *block, disps.as_slice(), old)
        }
        Arguments::Subarray { dims, order } => subarray(alloc, dims.as_slice(), *order, old),
        Arguments::Darray {
            size,
            rank,
            dims,
            order,
        } => darray(alloc, *size, *rank, dims.as_slice(), *order, old),
        Arguments::Resized { lb, extent } => resized(alloc, *lb, *extent, old),
    }
}

/// Reads the arguments of a constructor that has one old type.
#[tactic(auto, unfolding(crate::specs::Reading::map_at, crate::specs::Reading::pair_at, crate::specs::Reading::bind))]
pub(crate) fn read_arguments(
    alloc: Global,
    bytes: &[u8],
    combiner: Combiner,
) -> Result<(Arguments, &[u8]), Stop>
    ensures { Takes result (arguments_at combiner bytes.now) }
{
    match combiner {
        Combiner::Named | Combiner::Struct => Err(Stop::Bad),
        Combiner::Dup => Ok((Arguments::Dup, bytes)),
        Combiner::Contiguous => {
            let (count, rest) = i32::read(bytes)?;
            Ok((Arguments::Contiguous { count }, rest))
        }
        Combiner::Vector => {
            let (count, after_count) = i32::read(bytes)?;
            let (block, after_block) = i32::read(after_count)?;
            let (stride, rest) = i32::read(after_block)?;
            Ok((
                Arguments::Vector {
                    count,
                    block,
                    stride,
                },
                rest,
            ))
        }
        Combiner::Hvector => {
            let (count, after_count) = i32::read(bytes)?;
            let (block, after_block) = i32::read(after_count)?;
            let (stride, rest) = i64::read(after_block)?;
            Ok((
                Arguments::Hvector {
                    count,
                    block,
                    stride,
                },
                rest,
            ))
        }
        Combiner::Indexed => {
            let (blocks, rest) = list(alloc, bytes)?;
            Ok((Arguments::Indexed { blocks }, rest))
        }
        Combiner::Hindexed => {
            let (blocks, rest) = list(alloc, bytes)?;
            Ok((Arguments::Hindexed { blocks }, rest))
        }
        Combiner::IndexedBlock => {
            let (block, after_block) = i32::read(bytes)?;
            let (disps, rest) = list(alloc, after_block)?;
            Ok((Arguments::IndexedBlock { block, disps }, rest))
        }
        Combiner::HindexedBlock => {
            let (block, after_block) = i32::read(bytes)?;
            let (disps, rest) = list(alloc, after_block)?;
            Ok((Arguments::HindexedBlock { block, disps }, rest))
        }
        Combiner::Subarray => {
            let (order, after_order) = order(bytes)?;
            let (dims, rest) = list(alloc, after_order)?;
            Ok((Arguments::Subarray { dims, order }, rest))
        }
        Combiner::Darray => {
            let (size, after_size) = i32::read(bytes)?;
            let (rank, after_rank) = i32::read(after_size)?;
            let (order, after_order) = order(after_rank)?;
            let (dims, rest) = list(alloc, after_order)?;
            Ok((
                Arguments::Darray {
                    size,
                    rank,
                    dims,
                    order,
                },
                rest,
            ))
        }
        Combiner::Resized => {
            let (lb, after_lb) = i64::read(bytes)?;
            let (extent, rest) = i64::read(after_lb)?;
            Ok((Arguments::Resized { lb, extent }, rest))
        }
    }
}
