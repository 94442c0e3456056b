//! The words of a line, appended one after another.
ghost use Rattle.std.specs.Prelude.{◌≡◌, ◌++◌, OnOk, flat_map, map};
ghost use Rattle.hex.specs.Hex.{encode_lower};
ghost use Rattle.dt_reply.specs.Reply.{committed_words, copies_words, entry_word, receipt_words, extent_words, hex_text, marks_words, sizes_words, spaced, true_bounds_words, yes_or_no};

use crate::receipt::Receipt;
use dt_kinds::NoMemory;
use dt_map::{Bounds, Entry, Marks};
use itoa::{Buffer, Integer};

/// Appends a space and a word.
pub(crate) fn push_word(out: &mut Vec<u8>, word: &[u8]) -> Result<(), NoMemory>
    ensures { OnOk result (out.new.items ≡ out.old.items ++ spaced word.now) }
{
    out.extend_from_slice(b" ")?;
    out.extend_from_slice(word)?;
    Ok(())
}

/// Appends a space and a number.
pub(crate) fn push_number<I: Integer>(out: &mut Vec<u8>, number: I) -> Result<(), NoMemory>
    ensures { OnOk result (out.new.items ≡ out.old.items ++ spaced (I.text number)) }
{
    let mut buffer = Buffer::new();
    push_word(out, buffer.format(number).as_bytes())
}

/// Appends bytes as hexadecimal text.
fn push_digits(out: &mut Vec<u8>, bytes: &[u8]) -> Result<(), NoMemory>
    ensures { OnOk result (out.new.items ≡ out.old.items ++ encode_lower bytes.now) }
{
    let start = out.len();
    let Some(end) = start.checked_add(bytes.len().saturating_mul(2)) else {
        return Err(NoMemory);
    };
    out.resize(end, 0)?;
    let Ok(()) = hex::encode_to_slice(bytes, &mut out[start..]) else {
        return Err(NoMemory);
    };
    Ok(())
}

/// Appends a space and bytes as hexadecimal text, `-` for none.
pub(crate) fn push_hex(out: &mut Vec<u8>, bytes: &[u8]) -> Result<(), NoMemory>
    ensures { OnOk result (out.new.items ≡ out.old.items ++ spaced (hex_text bytes.now)) }
{
    if bytes.is_empty() {
        return push_word(out, b"-");
    }
    out.extend_from_slice(b" ")?;
    push_digits(out, bytes)
}

/// Appends a name and a number, each behind a space.
pub(crate) fn push_field<I: Integer>(
    out: &mut Vec<u8>,
    name: &[u8],
    number: I,
) -> Result<(), NoMemory>
    ensures { OnOk result (out.new.items ≡ out.old.items ++ (spaced name.now ++ spaced (I.text number))) }
{
    push_word(out, name)?;
    push_number(out, number)
}

/// Appends sizes, the number of entries and the alignment.
#[tactic(auto, unfolding(crate::specs::Reply::sizes_words))]
pub(crate) fn push_sizes(out: &mut Vec<u8>, bounds: Bounds) -> Result<(), NoMemory>
    ensures { OnOk result (out.new.items ≡ out.old.items ++ flat_map spaced (sizes_words bounds)) }
{
    push_field(out, b"size", bounds.size)?;
    push_field(out, b"ext", bounds.ext_size)?;
    push_field(out, b"elements", bounds.elements)?;
    push_field(out, b"align", bounds.align)
}

/// Appends the bounds and the extent.
#[tactic(auto, unfolding(crate::specs::Reply::extent_words))]
pub(crate) fn push_extent(out: &mut Vec<u8>, bounds: Bounds) -> Result<(), NoMemory>
    ensures { OnOk result (out.new.items ≡ out.old.items ++ flat_map spaced (extent_words bounds)) }
{
    push_field(out, b"lb", bounds.lb)?;
    push_field(out, b"ub", bounds.ub)?;
    push_field(out, b"extent", bounds.extent())
}

/// Appends the true bounds.
#[tactic(auto, unfolding(crate::specs::Reply::true_bounds_words))]
pub(crate) fn push_true_bounds(out: &mut Vec<u8>, bounds: Bounds) -> Result<(), NoMemory>
    ensures { OnOk result (out.new.items ≡ out.old.items ++ flat_map spaced (true_bounds_words bounds)) }
{
    push_field(out, b"true_lb", bounds.true_lb)?;
    push_field(out, b"true_ub", bounds.true_ub)
}

/// Yes or no, in a word.
fn yes_or_no(committed: bool) -> &'static [u8]
    ensures { result.now ≡ yes_or_no committed }
{
    if committed { b"yes" } else { b"no" }
}

/// Appends whether a type is committed.
pub(crate) fn push_committed(out: &mut Vec<u8>, committed: bool) -> Result<(), NoMemory>
    ensures { OnOk result (out.new.items ≡ out.old.items ++ flat_map spaced (committed_words committed)) }
{
    push_word(out, b"committed")?;
    push_word(out, yes_or_no(committed))
}

/// Appends both marks, or that there are none.
pub(crate) fn push_marks(out: &mut Vec<u8>, marks: Option<Marks>) -> Result<(), NoMemory>
    ensures { OnOk result (out.new.items ≡ out.old.items ++ flat_map spaced (marks_words marks)) }
{
    match marks {
        None => push_word(out, b"none"),
        Some(marks) => {
            push_number(out, marks.lb)?;
            push_number(out, marks.ub)
        }
    }
}

/// Appends how many copies there are, behind their name, or that they aren't whole.
pub(crate) fn push_copies(out: &mut Vec<u8>, copies: Option<u64>) -> Result<(), NoMemory>
    ensures { OnOk result (out.new.items ≡ out.old.items ++ flat_map spaced (copies_words copies)) }
{
    push_word(out, b"copies")?;
    match copies {
        None => push_word(out, b"undefined"),
        Some(copies) => push_number(out, copies),
    }
}

/// Appends what a piece came to.
#[tactic(auto, unfolding(crate::specs::Reply::receipt_words, crate::specs::Reply::number_words))]
pub(crate) fn push_receipt(out: &mut Vec<u8>, receipt: Receipt) -> Result<(), NoMemory>
    ensures { OnOk result (out.new.items ≡ out.old.items ++ flat_map spaced (receipt_words receipt)) }
{
    push_number(out, receipt.completed)?;
    push_field(out, b"held", receipt.held)?;
    push_field(out, b"bytes", receipt.bytes)?;
    push_field(out, b"elements", receipt.elements)?;
    push_copies(out, receipt.copies)
}

/// Appends the entries in order.
pub(crate) fn push_entries(out: &mut Vec<u8>, entries: &[Entry]) -> Result<(), NoMemory>
    ensures { OnOk result (out.new.items ≡ out.old.items ++ flat_map spaced (map entry_word entries.now)) }
{
    'entries: for entry in entries {
        push_entry(out, *entry)?;
    }
    Ok(())
}

/// Appends one entry, such as ` MPI_INT@-4`.
fn push_entry(out: &mut Vec<u8>, entry: Entry) -> Result<(), NoMemory>
    ensures { OnOk result (out.new.items ≡ out.old.items ++ spaced (entry_word entry)) }
{
    let mut buffer = Buffer::new();
    push_word(out, entry.kind.name().as_bytes())?;
    out.extend_from_slice(b"@")?;
    out.extend_from_slice(buffer.format(entry.disp).as_bytes())?;
    Ok(())
}
