//! The lines of a round that come before and after its turns.
ghost use Rattle.std.specs.Prelude.{◌≡◌, ◌≤◌, ◌++◌, ◌∷◌, [], OnOk};
ghost use Rattle.dt_gen.specs.Script.{buffer_lines, end_lines, line, name, packed_len, round_at, row_len, row_step, rows_len, rows_line, session_line, session_lines, type_lines, vector_line};
ghost use Rattle.dt_gen.specs.Sizes.{IsSmall};

use crate::draws::Draws;
use crate::text::{push_kind, push_name, push_number, push_word};
use dt_kinds::{KINDS, Kind, NoMemory};

/// A vector of `count` blocks of `block` elements of a kind, `stride` elements from block to block, and `rows` copies of it with a gap
/// of so many times 8 bytes between.
#[derive(Clone, Copy)]
pub(crate) struct Round {
    pub(crate) kind: Kind,
    pub(crate) count: u64,
    pub(crate) block: u64,
    pub(crate) stride: u64,
    pub(crate) rows: u64,
    pub(crate) gap: u64,
}

impl Round {
    /// The next round.
    pub(crate) fn drawn(draws: &mut Draws) -> Round
        ensures drawn { result ≡ (round_at draws.old).0 }
        ensures moved { draws.new ≡ (round_at draws.old).1 }
        ensures small { IsSmall result }
    {
        let kind = draws.below(23);
        let count = draws.below(6);
        let block = draws.below(4);
        let more = draws.below(4);
        let rows = draws.below(4);
        let gap = draws.below(3);
        Round {
            kind: KINDS[kind as usize],
            count: 2 + count,
            block: 1 + block,
            stride: 1 + block + more,
            rows: 2 + rows,
            gap,
        }
    }

    /// The bytes from the first one of a row to its last.
    fn row_len(self) -> u64
        requires { IsSmall self }
        ensures value { result ≡ row_len self }
        ensures small { result ≤ 281474976710656 }
    {
        ((self.count - 1) * self.stride + self.block) * u64::from(self.kind.size())
    }

    /// The bytes from one row to the next.
    fn row_step(self) -> u64
        requires { IsSmall self }
        ensures value { result ≡ row_step self }
        ensures small { result ≤ 281474976710672 }
    {
        self.row_len() + 8 * self.gap
    }

    /// The bytes of the buffers.
    fn rows_len(self) -> u64
        requires { IsSmall self }
        ensures { result ≡ rows_len self }
    {
        (self.rows - 1) * self.row_step() + self.row_len()
    }

    /// The bytes of all elements.
    pub(crate) fn packed_len(self) -> u64
        requires { IsSmall self }
        ensures value { result ≡ packed_len self }
        ensures small { result ≤ 1125899906842624 }
    {
        self.rows * self.count * self.block * u64::from(self.kind.size())
    }

    /// Appends the line of the vector of the round of a number.
    #[tactic(auto, unfolding(crate::specs::Script::line, crate::specs::Script::vector_line))]
    fn push_vector(self, out: &mut Vec<u8>, number: u64) -> Result<(), NoMemory>
        ensures { OnOk result (out.new.items ≡ out.old.items ++ vector_line number self) }
    {
        out.extend_from_slice(b"type")?;
        push_name(out, b"v", number)?;
        push_word(out, b"=")?;
        push_word(out, b"vector")?;
        push_number(out, self.count)?;
        push_number(out, self.block)?;
        push_number(out, self.stride)?;
        push_kind(out, self.kind)?;
        out.extend_from_slice(b"\n")?;
        Ok(())
    }

    /// Appends the line of its rows.
    #[tactic(auto, unfolding(crate::specs::Script::line, crate::specs::Script::rows_line))]
    fn push_rows(self, out: &mut Vec<u8>, number: u64) -> Result<(), NoMemory>
        requires { IsSmall self }
        ensures { OnOk result (out.new.items ≡ out.old.items ++ rows_line number self) }
    {
        out.extend_from_slice(b"type")?;
        push_name(out, b"h", number)?;
        push_word(out, b"=")?;
        push_word(out, b"hvector")?;
        push_number(out, self.rows)?;
        push_word(out, b"1")?;
        push_number(out, self.row_step())?;
        push_name(out, b"v", number)?;
        out.extend_from_slice(b"\n")?;
        Ok(())
    }

    /// Appends the lines of its types.
    #[tactic(auto, unfolding(crate::specs::Script::type_lines))]
    pub(crate) fn push_types(self, out: &mut Vec<u8>, number: u64) -> Result<(), NoMemory>
        requires { IsSmall self }
        ensures { OnOk result (out.new.items ≡ out.old.items ++ type_lines number self) }
    {
        self.push_vector(out, number)?;
        self.push_rows(out, number)?;
        push_named(out, b"commit", b"h", number)
    }

    /// Appends the lines of its buffers.
    #[tactic(auto, unfolding(crate::specs::Script::line, crate::specs::Script::buffer_lines))]
    pub(crate) fn push_buffers(self, out: &mut Vec<u8>, number: u64) -> Result<(), NoMemory>
        requires { IsSmall self }
        ensures { OnOk result (out.new.items ≡ out.old.items ++ buffer_lines number self) }
    {
        let len = self.rows_len();
        out.extend_from_slice(b"buffer")?;
        push_name(out, b"b", number)?;
        out.extend_from_slice(b" count")?;
        push_number(out, len)?;
        out.extend_from_slice(b"\nbuffer")?;
        push_name(out, b"z", number)?;
        out.extend_from_slice(b" zero")?;
        push_number(out, len)?;
        out.extend_from_slice(b"\n")?;
        Ok(())
    }
}

/// Appends a line of a word and a name.
#[tactic(auto, unfolding(crate::specs::Script::line))]
fn push_named(out: &mut Vec<u8>, first: &[u8], letter: &[u8], number: u64) -> Result<(), NoMemory>
    ensures { OnOk result (out.new.items ≡ out.old.items ++ line first.now (name letter.now number ∷ [])) }
{
    out.extend_from_slice(first)?;
    push_name(out, letter, number)?;
    out.extend_from_slice(b"\n")?;
    Ok(())
}

/// Appends the line that opens a session over a buffer.
#[tactic(auto, unfolding(crate::specs::Script::line, crate::specs::Script::session_line))]
fn push_session(
    out: &mut Vec<u8>,
    first: &[u8],
    session: &[u8],
    buffer: &[u8],
    number: u64,
) -> Result<(), NoMemory>
    ensures { OnOk result (out.new.items ≡ out.old.items ++ session_line first.now session.now buffer.now number) }
{
    out.extend_from_slice(first)?;
    push_name(out, session, number)?;
    push_word(out, b"native")?;
    push_word(out, b"1")?;
    push_name(out, b"h", number)?;
    push_name(out, buffer, number)?;
    push_word(out, b"0")?;
    out.extend_from_slice(b"\n")?;
    Ok(())
}

/// Appends the lines that open the sessions of the round of a number.
#[tactic(auto, unfolding(crate::specs::Script::session_lines))]
pub(crate) fn push_sessions(out: &mut Vec<u8>, number: u64) -> Result<(), NoMemory>
    ensures { OnOk result (out.new.items ≡ out.old.items ++ session_lines number) }
{
    push_session(out, b"pack", b"p", b"b", number)?;
    push_session(out, b"unpack", b"u", b"z", number)
}

/// Appends the lines that end the round of a number.
#[tactic(auto, unfolding(crate::specs::Script::end_lines))]
pub(crate) fn push_end(out: &mut Vec<u8>, number: u64) -> Result<(), NoMemory>
    ensures { OnOk result (out.new.items ≡ out.old.items ++ end_lines number) }
{
    push_named(out, b"close", b"p", number)?;
    push_named(out, b"close", b"u", number)?;
    push_named(out, b"normalise", b"h", number)
}
