//! The words of a line, appended one after another.
ghost use Rattle.std.specs.Prelude.{◌≡◌, ◌++◌, decimal, OnOk};
ghost use Rattle.dt_kinds.specs.Kind.{name_of};
ghost use Rattle.dt_gen.specs.Script.{name, spaced};

use dt_kinds::{Kind, NoMemory};
use itoa::Buffer;

/// Appends a space and a word.
pub(crate) fn push_word(out: &mut Vec<u8>, word: &[u8]) -> Result<(), NoMemory>
    ensures { OnOk result (out.new.items ≡ out.old.items ++ spaced word.now) }
{
    out.extend_from_slice(b" ")?;
    out.extend_from_slice(word)?;
    Ok(())
}

/// Appends a space and a number.
pub(crate) fn push_number(out: &mut Vec<u8>, number: u64) -> Result<(), NoMemory>
    ensures { OnOk result (out.new.items ≡ out.old.items ++ spaced (decimal number)) }
{
    let mut buffer = Buffer::new();
    push_word(out, buffer.format(number).as_bytes())
}

/// Appends a space and a name, a letter and a number.
pub(crate) fn push_name(out: &mut Vec<u8>, letter: &[u8], number: u64) -> Result<(), NoMemory>
    ensures { OnOk result (out.new.items ≡ out.old.items ++ spaced (name letter.now number)) }
{
    push_word(out, letter)?;
    let mut buffer = Buffer::new();
    out.extend_from_slice(buffer.format(number).as_bytes())?;
    Ok(())
}

/// Appends a space and the name of a kind.
pub(crate) fn push_kind(out: &mut Vec<u8>, kind: Kind) -> Result<(), NoMemory>
    ensures { OnOk result (out.new.items ≡ out.old.items ++ spaced (name_of kind)) }
{
    push_word(out, kind.name().as_bytes())
}
