//! Lines of a text copied, and lines of values of classes.
ghost use Rattle.std.specs.Prelude.{◌≡◌, ◌++◌, ◌∷◌, OnOk, map, take};
ghost use Rattle.std.specs.List.{flat_map};
ghost use Rattle.dt_spelling.specs.Spelling.{space};
ghost use Rattle.dt_cert.specs.Certificate.{ByClasses};
ghost use Rattle.dt_cert.specs.Text.{text_of_line, value_line};
ghost use Rattle.dt_verdict.specs.Cut.{ended, lines_from};

use crate::cut::next_line;
use dt_kinds::NoMemory;
use dt_normal::Low;
use itoa::{Buffer, Integer};

/// Appends so many lines of a text, from a byte on.
pub(crate) fn push_lines(
    out: &mut Vec<u8>,
    text: &[u8],
    at: usize,
    number: usize,
) -> Result<(), NoMemory>
    ensures { OnOk result (out.new.items ≡ out.old.items ++ flat_map ended (take number (lines_from text.now at))) }
{
    let mut next = at;
    'lines: for _ in 0..number {
        let Some((line, after)) = next_line(text, next) else {
            return Ok(());
        };
        out.extend_from_slice(line)?;
        out.push(b'\n')?;
        next = after;
    }
    Ok(())
}

/// Appends a space and a number.
fn push_number<I: Integer>(out: &mut Vec<u8>, number: I) -> Result<(), NoMemory>
    ensures { OnOk result (out.new.items ≡ out.old.items ++ space ∷ I.text number) }
{
    let mut buffer = Buffer::new();
    out.push(b' ')?;
    out.extend_from_slice(buffer.format(number).as_bytes())?;
    Ok(())
}

/// Appends the line of the value of a class.
#[tactic(auto, using(dt_cert::proofs::Joins::joins))]
fn push_value(out: &mut Vec<u8>, a: Low) -> Result<(), NoMemory>
    ensures { OnOk result (out.new.items ≡ out.old.items ++ text_of_line (value_line ByClasses a)) }
{
    out.extend_from_slice(b"class")?;
    push_number(out, a.from)?;
    push_number(out, a.to)?;
    push_number(out, a.low)?;
    out.push(b'\n')?;
    Ok(())
}

/// Appends a line for each of some values.
pub(crate) fn push_values(out: &mut Vec<u8>, values: &[Low]) -> Result<(), NoMemory>
    ensures { OnOk result (out.new.items ≡ out.old.items ++ flat_map text_of_line (map (value_line ByClasses) values.now)) }
{
    'values: for a in values {
        push_value(out, *a)?;
    }
    Ok(())
}
