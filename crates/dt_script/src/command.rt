ghost use Rattle.std.specs.Prelude.{◌≡◌, ℕ, Bool, List};
ghost use Rattle.std.specs.List.{list_any};

use crate::bytes::Bytes;
use crate::name::Name;
use dt_form::{AddrBlock, DistDim, IntBlock, Order, SubDim};
use dt_kinds::Rep;
use sqlite_items::Items;

/// One line of a script that is neither blank nor a comment. The fields hold the words of the line in their order.
#[derive(Drop)]
pub enum Command {
    /// `type NAME = CTOR`
    Define {
        name: Name,
        ctor: Ctor,
    },
    /// `child NAME = TYPE NUMBER`
    Child {
        name: Name,
        ty: Name,
        k: i32,
    },
    /// `commit TYPE`
    Commit {
        ty: Name,
    },
    /// `free TYPE`
    Free {
        ty: Name,
    },
    /// `info TYPE`
    Info {
        ty: Name,
    },
    /// `map TYPE`
    Map {
        ty: Name,
    },
    /// `envelope TYPE`
    Envelope {
        ty: Name,
    },
    /// `contents TYPE`
    Contents {
        ty: Name,
    },
    /// `buffer NAME FILL`
    Buffer {
        name: Name,
        fill: Fill,
    },
    /// `show BUFFER`
    Show {
        buffer: Name,
    },
    /// `bytes REP COUNT TYPE BUFFER ORIGIN`
    Bytes {
        rep: Rep,
        count: i32,
        ty: Name,
        buffer: Name,
        origin: i64,
    },
    /// `elements REP BYTES TYPE`
    Elements {
        rep: Rep,
        bytes: i64,
        ty: Name,
    },
    /// `pack SESSION REP COUNT TYPE BUFFER ORIGIN`
    Pack {
        name: Name,
        rep: Rep,
        count: i32,
        ty: Name,
        buffer: Name,
        origin: i64,
    },
    /// `take SESSION LENGTH`
    Take {
        session: Name,
        len: i32,
    },
    /// `seek SESSION BYTE`
    Seek {
        session: Name,
        byte: i64,
    },
    /// `close SESSION`
    Close {
        session: Name,
    },
    /// `unpack SESSION REP COUNT TYPE BUFFER ORIGIN`
    Unpack {
        name: Name,
        rep: Rep,
        count: i32,
        ty: Name,
        buffer: Name,
        origin: i64,
    },
    /// `give SESSION HEX`
    Give {
        session: Name,
        bytes: Bytes,
    },
    /// `weights LEAF VECTOR INDEX PLACE GROUP PART`
    Weights {
        leaf: i32,
        vector: i32,
        index: i32,
        place: i32,
        group: i32,
        part: i32,
    },
    /// `normalise TYPE`
    Normalise {
        ty: Name,
    },
    /// `rebuild NAME = TYPE`
    Rebuild {
        name: Name,
        ty: Name,
    },
    /// `copy COUNT TYPE BUFFER ORIGIN COUNT TYPE BUFFER ORIGIN`, the source and then the target
    Copy {
        source_count: i32,
        source_type: Name,
        source: Name,
        source_origin: i64,
        target_count: i32,
        target_type: Name,
        target: Name,
        target_origin: i64,
    },
    /// `export TYPE`
    Export {
        ty: Name,
    },
    /// `import NAME = HEX`
    Import {
        name: Name,
        wire: Bytes,
    },
    /// `reduce OP COUNT TYPE BUFFER ORIGIN BUFFER ORIGIN`, the source and then the target
    Reduce {
        op: Op,
        count: i32,
        ty: Name,
        source: Name,
        source_origin: i64,
        target: Name,
        target_origin: i64,
    },
    /// `reduceall OP HOW COUNT TYPE ORIGIN TARGET` and the ranks in their order, one at least
    Reduceall {
        op: Op,
        how: How,
        count: i32,
        ty: Name,
        origin: i64,
        target: Name,
        ranks: Items<Name>,
    },
}

/// How a reduction joins two elements of one kind: that of the source with that of the target, or that of a rank with that of a
/// later one.
#[derive(Clone, Copy)]
pub enum Op {
    /// `sum`, modulo the range of the kind
    Sum,
    /// `prod`, modulo the range of the kind
    Prod,
    /// `min`
    Min,
    /// `max`
    Max,
    /// `and`, bit by bit
    And,
    /// `or`, bit by bit
    Or,
    /// `xor`, bit by bit
    Xor,
    /// `first`: that of the source, or of the earlier rank
    First,
    /// `last`: that of the target, or of the later rank
    Last,
}

/// In which sequence the elements of many ranks are joined.
#[derive(Clone, Copy)]
pub enum How {
    /// `halves`: neighbours in pairs, again and again, so that half are left each time
    Halves,
    /// `left`: the first two, and then what is joined with the next one
    Left,
}

/// What makes a type, with old types by their names. Lengths of blocks count copies; a stride or a displacement counts extents of
/// the old type where it is an `i32`, and bytes where it is an `i64` (MPI 4.1, sections 5.1.2 and 5.1.7). The numbers of an array
/// count indices (MPI 4.1, sections 5.1.3 and 5.1.4).
#[derive(Drop)]
pub enum Ctor {
    /// `contiguous COUNT TYPE`
    Contiguous {
        count: i32,
        old: Name,
    },
    /// `vector COUNT BLOCK STRIDE TYPE`
    Vector {
        count: i32,
        block: i32,
        stride: i32,
        old: Name,
    },
    /// `hvector COUNT BLOCK STRIDE TYPE`
    Hvector {
        count: i32,
        block: i32,
        stride: i64,
        old: Name,
    },
    /// `indexed TYPE` and the blocks, each `LENGTH@DISPLACEMENT`
    Indexed {
        old: Name,
        blocks: Items<IntBlock>,
    },
    /// `hindexed TYPE` and the blocks, each `LENGTH@DISPLACEMENT`
    Hindexed {
        old: Name,
        blocks: Items<AddrBlock>,
    },
    /// `indexed_block TYPE BLOCK` and the displacements
    IndexedBlock {
        old: Name,
        block: i32,
        disps: Items<i32>,
    },
    /// `hindexed_block TYPE BLOCK` and the displacements
    HindexedBlock {
        old: Name,
        block: i32,
        disps: Items<i64>,
    },
    /// `struct` and the parts, each `LENGTH@DISPLACEMENT@TYPE`
    Struct {
        parts: Items<NamedPart>,
    },
    /// `resized LB EXTENT TYPE`
    Resized {
        lb: i64,
        extent: i64,
        old: Name,
    },
    /// `dup TYPE`
    Dup {
        old: Name,
    },
    /// `subarray ORDER TYPE` and the dimensions, each `SIZE:SUBSIZE:START`
    Subarray {
        order: Order,
        old: Name,
        dims: Items<SubDim>,
    },
    /// `darray SIZE RANK ORDER TYPE` and the dimensions, each `GSIZE:DIST:DARG:PSIZE`
    Darray {
        size: i32,
        rank: i32,
        order: Order,
        old: Name,
        dims: Items<DistDim>,
    },
}

/// A test of the words that name types.
pub trait WordTest {
    ghost test: { Self → List ℕ → Bool };

    /// Whether a word passes.
    fn passes(&self, word: &Name) -> bool
        ensures { result ≡ test self.now word.now };
}

/// Whether the word of some part passes a test.
fn any_part<T: WordTest>(parts: &[NamedPart], test: &T) -> bool
    ensures { result ≡ list_any (λ part. T.test test.now part.old) parts.now }
{
    parts.iter().any(|part| test.passes(&part.old))
}

impl Ctor {
    ghost use Rattle.dt_script.specs.Olds.{any_old};

    /// Whether some word that names an old type passes a test.
    pub fn any_old<T: WordTest>(&self, test: &T) -> bool
        ensures { result ≡ any_old (T.test test.now) self.now }
    {
        match self {
            Ctor::Struct { parts } => any_part(parts.as_slice(), test),
            Ctor::Contiguous { old, .. } | Ctor::Vector { old, .. } | Ctor::Hvector { old, .. } => {
                test.passes(old)
            }
            Ctor::Indexed { old, .. } | Ctor::Hindexed { old, .. } => test.passes(old),
            Ctor::IndexedBlock { old, .. } | Ctor::HindexedBlock { old, .. } => test.passes(old),
            Ctor::Resized { old, .. } | Ctor::Dup { old } => test.passes(old),
            Ctor::Subarray { old, .. } | Ctor::Darray { old, .. } => test.passes(old),
        }
    }
}

/// A part of a struct: so many copies of an old type, from `disp` bytes on.
#[derive(Drop)]
pub struct NamedPart {
    pub len: i32,
    pub disp: i64,
    pub old: Name,
}

/// What a new buffer holds.
#[derive(Drop)]
pub enum Fill {
    /// `zero LENGTH`: that many zero bytes
    Zero(i32),
    /// `count LENGTH`: byte i is `i mod 256`
    Count(i32),
    /// `hex HEX`: these bytes
    Hex(Bytes),
}
