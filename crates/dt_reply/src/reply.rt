//! What is replied, and the line that says so. Each line is made in new memory, and `NoMemory` is answered where that runs out.
ghost use Rattle.std.specs.Prelude.{◌≡◌, ◌++◌, IfOk, OnOk, OnErr};
ghost use Rattle.dt_reply.specs.Reply.{text_of, is_accepted, bytes_words, line_of};
ghost use Rattle.dt_reply.specs.declared.reply.Reply.TheVariants.{Closed, Contained, Copied, Counted, Described, Done, Given, Least, Listed, Opened, Packed, Reduced, ReducedAll, Refused, Shown, Told, Wire};

use crate::arguments::{push_envelope, push_listed, push_types};
use crate::receipt::Receipt;
use crate::refusal::Refusal;
use crate::text::{
    push_committed, push_copies, push_entries, push_extent, push_field, push_hex, push_marks,
    push_number, push_receipt, push_sizes, push_true_bounds, push_word,
};
use dt_kinds::NoMemory;
use dt_map::{Bounds, FlatMap};
use dt_script::Bytes;
use dt_type::{Contents, Envelope};
use std::alloc::Global;

/// The reply `ok`, with its line feed.
pub const OK: [u8; 3] = *b"ok\n";

/// The line `ok`.
pub fn ok_line() -> &'static [u8]
    ensures { result.now ≡ text_of Done }
{
    &OK
}

/// `refused NUMBER WORD`, where the word may be several, as in `refused 12 too heavy`.
#[tactic(auto, unfolding(crate::specs::Reply::line_of))]
pub fn refusal_line(alloc: Global, refusal: Refusal) -> Result<Vec<u8>, NoMemory>
    ensures { IfOk result (λ line. line.items ≡ text_of (Refused refusal)) }
{
    let mut line = Vec::from_slice(alloc, b"refused")?;
    push_number(&mut line, refusal.number())?;
    push_word(&mut line, refusal.word().as_bytes())?;
    line.extend_from_slice(b"\n")?;
    Ok(line)
}

/// `bytes LENGTH HEX`: packed bytes, as in `bytes 2 0a0b`, with `-` for none.
pub fn packed_line(alloc: Global, bytes: &[u8]) -> Result<Vec<u8>, NoMemory>
    ensures { IfOk result (λ line. line.items ≡ text_of (Packed bytes.now)) }
{
    bytes_line(alloc, b"bytes", bytes)
}

/// `show LENGTH HEX`: the bytes of a buffer, with `-` for none.
pub fn shown_line(alloc: Global, bytes: &[u8]) -> Result<Vec<u8>, NoMemory>
    ensures { IfOk result (λ line. line.items ≡ text_of (Shown bytes.now)) }
{
    bytes_line(alloc, b"show", bytes)
}

/// `wire LENGTH HEX`: the bytes that spell a type.
pub fn wire_line(alloc: Global, bytes: &[u8]) -> Result<Vec<u8>, NoMemory>
    ensures { IfOk result (λ line. line.items ≡ text_of (Wire bytes.now)) }
{
    bytes_line(alloc, b"wire", bytes)
}

/// A word, how many bytes there are, and the bytes.
#[tactic(auto, unfolding(crate::specs::Reply::line_of))]
fn bytes_line(alloc: Global, first: &[u8], bytes: &[u8]) -> Result<Vec<u8>, NoMemory>
    ensures { IfOk result (λ line. line.items ≡ line_of first.now (bytes_words bytes.now)) }
{
    let room = bytes.len().saturating_mul(2).saturating_add(32);
    let mut line = Vec::with_capacity(alloc, room)?;
    line.extend_from_slice(first)?;
    push_number(&mut line, bytes.len())?;
    push_hex(&mut line, bytes)?;
    line.extend_from_slice(b"\n")?;
    Ok(line)
}

/// `info size S ext E elements K align A lb L ub U extent X true_lb P true_ub Q committed yes`, or `no` as last word:
/// sizes and bounds in bytes, and the extent from the lower to the upper bound, which may be negative (MPI 4.1,
/// sections 5.1.5 to 5.1.8).
#[tactic(auto, unfolding(crate::specs::Reply::line_of, crate::specs::Reply::info_words))]
pub fn info_line(alloc: Global, bounds: Bounds, committed: bool) -> Result<Vec<u8>, NoMemory>
    ensures { IfOk result (λ line. line.items ≡ text_of (Told bounds committed)) }
{
    let mut line = Vec::from_slice(alloc, b"info")?;
    push_sizes(&mut line, bounds)?;
    push_extent(&mut line, bounds)?;
    push_true_bounds(&mut line, bounds)?;
    push_committed(&mut line, committed)?;
    line.extend_from_slice(b"\n")?;
    Ok(line)
}

/// `map NUMBER marks none` or `map NUMBER marks LB UB`, and then ` KIND@DISP` for each entry of the typemap (MPI 4.1,
/// section 5.1), in order: marks and displacements in bytes.
#[tactic(auto, unfolding(crate::specs::Reply::line_of, crate::specs::Reply::map_words))]
pub fn map_line(alloc: Global, map: &FlatMap) -> Result<Vec<u8>, NoMemory>
    ensures { IfOk result (λ line. line.items ≡ text_of (Listed map.now)) }
{
    let mut line = Vec::from_slice(alloc, b"map")?;
    push_number(&mut line, map.entries().len())?;
    push_word(&mut line, b"marks")?;
    push_marks(&mut line, map.marks())?;
    push_entries(&mut line, map.entries())?;
    line.extend_from_slice(b"\n")?;
    Ok(line)
}

/// `envelope COMBINER integers I addresses A types T`: the constructor, and how many integers, addresses and types its arguments
/// have (MPI 4.1, section 5.1.13, `MPI_Type_get_envelope`), as in `envelope vector integers 3 addresses 0 types 1`.
#[tactic(auto, unfolding(crate::specs::Reply::line_of))]
pub fn envelope_line(alloc: Global, envelope: Envelope) -> Result<Vec<u8>, NoMemory>
    ensures { IfOk result (λ line. line.items ≡ text_of (Described envelope)) }
{
    let mut line = Vec::from_slice(alloc, b"envelope")?;
    push_envelope(&mut line, envelope)?;
    line.extend_from_slice(b"\n")?;
    Ok(line)
}

/// `contents integers I` and the integers, `addresses A` and the addresses in bytes, and `types T` and the old types: the kind of a
/// basic one, and the constructor of another between `<` and `>` (MPI 4.1, section 5.1.13, `MPI_Type_get_contents`).
#[tactic(auto, unfolding(crate::specs::Reply::line_of, crate::specs::Reply::contents_words))]
pub fn contents_line(alloc: Global, contents: &Contents) -> Result<Vec<u8>, NoMemory>
    ensures { IfOk result (λ line. line.items ≡ text_of (Contained contents.now)) }
{
    let mut line = Vec::from_slice(alloc, b"contents")?;
    push_listed(&mut line, b"integers", contents.integers.as_slice())?;
    push_listed(&mut line, b"addresses", contents.addresses.as_slice())?;
    push_types(&mut line, contents.types.as_slice())?;
    line.extend_from_slice(b"\n")?;
    Ok(line)
}

/// `tree cost COST base BASE` and the text of a tree, or `empty`: what the tree costs, and from where on, in bytes, it stands for a
/// typemap.
#[tactic(auto, unfolding(crate::specs::Reply::line_of, crate::specs::Reply::tree_words))]
pub fn tree_line(alloc: Global, cost: u64, base: i64, text: &[u8]) -> Result<Vec<u8>, NoMemory>
    ensures { IfOk result (λ line. line.items ≡ text_of (Least cost base text.now)) }
{
    let mut line = Vec::from_slice(alloc, b"tree")?;
    push_field(&mut line, b"cost", cost)?;
    push_field(&mut line, b"base", base)?;
    push_word(&mut line, text)?;
    line.extend_from_slice(b"\n")?;
    Ok(line)
}

/// `elements ELEMENTS copies COPIES`: the elements and the copies among received bytes, with `undefined` where the copies aren't whole
/// (MPI 4.1, sections 3.2.5 and 5.1.11).
#[tactic(auto, unfolding(crate::specs::Reply::line_of))]
pub fn counts_line(alloc: Global, elements: u64, copies: Option<u64>) -> Result<Vec<u8>, NoMemory>
    ensures { IfOk result (λ line. line.items ≡ text_of (Counted elements copies)) }
{
    let mut line = Vec::from_slice(alloc, b"elements")?;
    push_number(&mut line, elements)?;
    push_copies(&mut line, copies)?;
    line.extend_from_slice(b"\n")?;
    Ok(line)
}

/// `ok TOTAL`: a session was opened over so many packed bytes.
#[tactic(auto, unfolding(crate::specs::Reply::line_of))]
pub fn opened_line(alloc: Global, all: u64) -> Result<Vec<u8>, NoMemory>
    ensures { IfOk result (λ line. line.items ≡ text_of (Opened all)) }
{
    let mut line = Vec::from_slice(alloc, b"ok")?;
    push_number(&mut line, all)?;
    line.extend_from_slice(b"\n")?;
    Ok(line)
}

/// `given NEW held HELD bytes BYTES elements ELEMENTS copies COPIES`: what a piece came to.
#[tactic(auto, unfolding(crate::specs::Reply::line_of))]
pub fn receipt_line(alloc: Global, receipt: Receipt) -> Result<Vec<u8>, NoMemory>
    ensures { IfOk result (λ line. line.items ≡ text_of (Given receipt)) }
{
    let mut line = Vec::from_slice(alloc, b"given")?;
    push_receipt(&mut line, receipt)?;
    line.extend_from_slice(b"\n")?;
    Ok(line)
}

/// `closed bytes DONE of TOTAL`: a session ended at so many packed bytes.
#[tactic(auto, unfolding(crate::specs::Reply::line_of))]
pub fn closed_line(alloc: Global, passed: u64, all: u64) -> Result<Vec<u8>, NoMemory>
    ensures { IfOk result (λ line. line.items ≡ text_of (Closed passed all)) }
{
    let mut line = Vec::from_slice(alloc, b"closed")?;
    push_field(&mut line, b"bytes", passed)?;
    push_field(&mut line, b"of", all)?;
    line.extend_from_slice(b"\n")?;
    Ok(line)
}

/// `copied ELEMENTS bytes BYTES`: how many elements were copied, and how many bytes these have in memory.
#[tactic(auto, unfolding(crate::specs::Reply::line_of))]
pub fn copied_line(alloc: Global, elements: u64, bytes: u64) -> Result<Vec<u8>, NoMemory>
    ensures { IfOk result (λ line. line.items ≡ text_of (Copied elements bytes)) }
{
    let mut line = Vec::from_slice(alloc, b"copied")?;
    push_number(&mut line, elements)?;
    push_field(&mut line, b"bytes", bytes)?;
    line.extend_from_slice(b"\n")?;
    Ok(line)
}

/// `reduced ELEMENTS`: how many elements were reduced by as many others (MPI 4.1, section 6.9).
#[tactic(auto, unfolding(crate::specs::Reply::line_of))]
pub fn reduced_line(alloc: Global, elements: u64) -> Result<Vec<u8>, NoMemory>
    ensures { IfOk result (λ line. line.items ≡ text_of (Reduced elements)) }
{
    let mut line = Vec::from_slice(alloc, b"reduced")?;
    push_number(&mut line, elements)?;
    line.extend_from_slice(b"\n")?;
    Ok(line)
}

/// `reduced ELEMENTS ranks NUMBER`: how many elements each rank gave that were reduced, and how many ranks there were (MPI 4.1,
/// section 6.9).
#[tactic(auto, unfolding(crate::specs::Reply::line_of))]
pub fn reduced_all_line(alloc: Global, elements: u64, ranks: u64) -> Result<Vec<u8>, NoMemory>
    ensures { IfOk result (λ line. line.items ≡ text_of (ReducedAll elements ranks)) }
{
    let mut line = Vec::from_slice(alloc, b"reduced")?;
    push_number(&mut line, elements)?;
    push_field(&mut line, b"ranks", ranks)?;
    line.extend_from_slice(b"\n")?;
    Ok(line)
}

/// What is replied to a line.
#[derive(Drop)]
pub enum Reply {
    /// Nothing, to a blank or comment line.
    Silent,
    /// `ok`
    Done,
    /// Packed bytes.
    Packed(Bytes),
    /// The bytes of a buffer.
    Shown(Bytes),
    /// The bounds of a type, and whether it is committed.
    Told(Bounds, bool),
    /// A typemap with its marks.
    Listed(FlatMap),
    /// An envelope.
    Described(Envelope),
    /// Contents.
    Contained(Contents),
    /// What a least tree costs, where it begins, in bytes, and its text.
    Least { cost: u64, base: i64, text: Bytes },
    /// The elements among received bytes, and the copies where they are whole.
    Counted { elements: u64, copies: Option<u64> },
    /// A session was opened over so many packed bytes.
    Opened(u64),
    /// What a piece came to that a session was given.
    Given(Receipt),
    /// A session ended: how many packed bytes were passed, and how many there are.
    Closed { passed: u64, all: u64 },
    /// How many elements were copied, and how many bytes these have in memory.
    Copied { elements: u64, bytes: u64 },
    /// The bytes that spell a type.
    Wire(Bytes),
    /// How many elements were reduced by as many others.
    Reduced { elements: u64 },
    /// How many elements each rank gave that were reduced, and how many ranks there were.
    ReducedAll { elements: u64, ranks: u64 },
    /// A refusal.
    Refused(Refusal),
}

impl Reply {
    /// The line of the reply: none for `Silent`.
    fn line(&self, alloc: Global) -> Result<Vec<u8>, NoMemory>
        ensures { IfOk result (λ line. line.items ≡ text_of self.now) }
    {
        match self {
            Reply::Silent => Ok(Vec::new(alloc)),
            Reply::Done => Ok(Vec::from_slice(alloc, ok_line())?),
            Reply::Packed(bytes) => packed_line(alloc, bytes.as_slice()),
            Reply::Shown(bytes) => shown_line(alloc, bytes.as_slice()),
            Reply::Told(bounds, committed) => info_line(alloc, *bounds, *committed),
            Reply::Listed(map) => map_line(alloc, map),
            Reply::Described(envelope) => envelope_line(alloc, *envelope),
            Reply::Contained(contents) => contents_line(alloc, contents),
            Reply::Least { cost, base, text } => tree_line(alloc, *cost, *base, text.as_slice()),
            Reply::Counted { elements, copies } => counts_line(alloc, *elements, *copies),
            Reply::Opened(all) => opened_line(alloc, *all),
            Reply::Given(receipt) => receipt_line(alloc, *receipt),
            Reply::Closed { passed, all } => closed_line(alloc, *passed, *all),
            Reply::Copied { elements, bytes } => copied_line(alloc, *elements, *bytes),
            Reply::Wire(bytes) => wire_line(alloc, bytes.as_slice()),
            Reply::Reduced { elements } => reduced_line(alloc, *elements),
            Reply::ReducedAll { elements, ranks } => reduced_all_line(alloc, *elements, *ranks),
            Reply::Refused(refusal) => refusal_line(alloc, *refusal),
        }
    }

    /// Appends the line of the reply. Where memory runs out, `out` is as before.
    pub fn write(&self, alloc: Global, out: &mut Vec<u8>) -> Result<(), NoMemory>
        ensures ok { OnOk result (out.new.items ≡ out.old.items ++ text_of self.now) }
        ensures err { OnErr result (out.new.items ≡ out.old.items) }
    {
        let line = self.line(alloc)?;
        out.extend_from_slice(&line)?;
        Ok(())
    }

    /// Whether the reply is no refusal.
    pub fn is_accepted(&self) -> bool
        ensures { result ≡ is_accepted self.now }
    {
        !matches!(self, Reply::Refused(_))
    }
}
