//! The lines of a certificate, appended one after another.
ghost use Rattle.std.specs.Prelude.{◌≡◌, ◌++◌, [], ◌∷◌, OnOk, codes, map, decimal};
ghost use Rattle.std.specs.Fmt.{signed_decimal};
ghost use Rattle.std.specs.List.{flat_map};
ghost use Rattle.dt_spelling.specs.Spelling.{space};
ghost use Rattle.dt_cert.specs.Certificate.{ByClasses};
ghost use Rattle.dt_cert.specs.Text.{line_feed, text_of_line, weights_line, entry_line, value_line};

use dt_kinds::NoMemory;
use dt_map::Entry;
use dt_normal::Low;
use dt_tree::Weights;
use itoa::{Buffer, Integer};

/// Appends a space and a word.
fn push_word(out: &mut Vec<u8>, word: &[u8]) -> Result<(), NoMemory>
    ensures { OnOk result (out.new.items ≡ out.old.items ++ space ∷ word.now) }
{
    out.push(b' ')?;
    out.extend_from_slice(word)?;
    Ok(())
}

/// Appends a space and a number.
fn push_number<I: Integer>(out: &mut Vec<u8>, number: I) -> Result<(), NoMemory>
    ensures { OnOk result (out.new.items ≡ out.old.items ++ space ∷ I.text number) }
{
    let mut buffer = Buffer::new();
    push_word(out, buffer.format(number).as_bytes())
}

/// Appends three numbers, a space before each.
#[tactic(auto, using(crate::proofs::Joins::joins))]
fn push_three(out: &mut Vec<u8>, one: u32, two: u32, three: u32) -> Result<(), NoMemory>
    ensures { OnOk result (out.new.items ≡ out.old.items ++ (space ∷ decimal one ++ (space ∷ decimal two ++ (space ∷ decimal three)))) }
{
    push_number(out, one)?;
    push_number(out, two)?;
    push_number(out, three)
}

/// Ends a line.
fn end_line(out: &mut Vec<u8>) -> Result<(), NoMemory>
    ensures { OnOk result (out.new.items ≡ out.old.items ++ line_feed ∷ []) }
{
    out.push(b'\n')?;
    Ok(())
}

/// Appends the line of the weights.
#[tactic(auto, using(crate::proofs::Joins::joins))]
pub(crate) fn push_weights(out: &mut Vec<u8>, w: &Weights) -> Result<(), NoMemory>
    ensures { OnOk result (out.new.items ≡ out.old.items ++ text_of_line (weights_line w.now)) }
{
    out.extend_from_slice(b"weights")?;
    push_three(out, w.leaf(), w.vector(), w.index())?;
    push_three(out, w.place(), w.group(), w.part())?;
    end_line(out)
}

/// Appends the line of an entry.
#[tactic(auto, using(crate::proofs::Joins::joins))]
fn push_entry(out: &mut Vec<u8>, entry: Entry) -> Result<(), NoMemory>
    ensures { OnOk result (out.new.items ≡ out.old.items ++ text_of_line (entry_line entry)) }
{
    out.extend_from_slice(b"entry")?;
    push_word(out, entry.kind.name().as_bytes())?;
    push_number(out, entry.disp)?;
    end_line(out)
}

/// Appends a line of a word and a number.
#[tactic(auto, using(crate::proofs::Joins::joins))]
pub(crate) fn push_line<I: Integer>(
    out: &mut Vec<u8>,
    word: &[u8],
    number: I,
) -> Result<(), NoMemory>
    ensures { OnOk result (out.new.items ≡ out.old.items ++ text_of_line (word.now ∷ I.text number ∷ [])) }
{
    out.extend_from_slice(word)?;
    push_number(out, number)?;
    end_line(out)
}

/// Appends the lines of entries.
pub(crate) fn push_entries(out: &mut Vec<u8>, entries: &[Entry]) -> Result<(), NoMemory>
    ensures { OnOk result (out.new.items ≡ out.old.items ++ flat_map text_of_line (map entry_line entries.now)) }
{
    'entries: for entry in entries {
        push_entry(out, *entry)?;
    }
    Ok(())
}

/// Appends the line of the value of a class.
#[tactic(auto, using(crate::proofs::Joins::joins))]
pub(crate) fn push_value(out: &mut Vec<u8>, low: Low) -> Result<(), NoMemory>
    ensures { OnOk result (out.new.items ≡ out.old.items ++ text_of_line (value_line ByClasses low)) }
{
    out.extend_from_slice(b"class")?;
    push_number(out, low.from)?;
    push_number(out, low.to)?;
    push_number(out, low.low)?;
    end_line(out)
}
