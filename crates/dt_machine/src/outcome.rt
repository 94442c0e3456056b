//! What a command comes to, before anything changes.
ghost use Rattle.std.specs.Prelude.{◌≡◌};
ghost use Rattle.dt_reply.specs.declared.reply.Reply.TheVariants.{Done};

use dt_copy::CopyPlan;
use dt_names::{Buffer, Kept};
use dt_reduce::{Ranks, ReducePlan};
use dt_reply::Reply;
use dt_script::{Name, Op};
use dt_sessions::Opened;
use dt_tree::Weights;
use sqlite_items::Items;

/// What a command adds to what stands.
#[derive(Drop)]
pub(crate) enum Change {
    Nothing,
    AddType {
        name: Name,
        kept: Kept,
    },
    Commit {
        name: Name,
    },
    Free {
        name: Name,
    },
    AddBuffer {
        name: Name,
        buffer: Buffer,
    },
    SetWeights {
        weights: Weights,
    },
    AddCost {
        cost: u64,
    },
    OpenSession {
        name: Name,
        opened: Opened,
    },
    SeekSession {
        name: Name,
        byte: u64,
    },
    TakeBytes {
        name: Name,
        byte: u64,
        count: u64,
    },
    CloseSession {
        name: Name,
    },
    CopyBytes {
        plan: CopyPlan,
        source: Name,
        target: Name,
    },
    ReduceBytes {
        op: Op,
        plan: ReducePlan,
        source: Name,
        target: Name,
    },
    ReduceRanks {
        op: Op,
        ranks: Ranks,
        merges: Items<u32>,
        origin: i64,
        target: Name,
    },
}

/// The reply to a command that is allowed, and the change that it makes.
#[derive(Drop)]
pub(crate) struct Outcome {
    pub(crate) reply: Reply,
    pub(crate) change: Change,
}

/// The outcome `ok`, with a change.
pub(crate) fn done(change: Change) -> Outcome
    ensures { result ≡ record { reply = Done; change = change } }
{
    Outcome {
        reply: Reply::Done,
        change,
    }
}

/// An outcome that changes nothing.
pub(crate) fn told(reply: Reply) -> Outcome
    ensures { result ≡ record { reply = reply; change = Change.Nothing } }
{
    Outcome {
        reply,
        change: Change::Nothing,
    }
}
