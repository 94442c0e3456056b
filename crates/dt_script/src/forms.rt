//! The line forms; those of constructors are in `ctors`.
ghost use Rattle.std.specs.Prelude.{◌≡◌};
ghost use Rattle.dt_script.specs.Words.{words_of};
ghost use Rattle.dt_script.specs.Reading.{Gives};
ghost use Rattle.dt_script.specs.Form.{behind, one_of};
ghost use Rattle.dt_script.specs.Forms.{hex, fill_of, define, child, buffer, give, weights, rebuild, copy, import, reduce, reduceall, reduction_forms, copy_forms, unpack_forms, session_forms, tree_forms, buffer_forms, question_forms, command_of};

use crate::command::{Command, Fill};
use crate::ctors::ctor;
use crate::fields::Fields;
use crate::line::LineFault;
use crate::name::Name;
use crate::reading::{end, hex, item, keyword, one_or_more, word};
use std::alloc::Global;

/// `HEX`
fn hex_fill(alloc: Global, line: &[u8]) -> Result<Fill, LineFault>
    ensures { Gives (λ x. x) result (behind hex (words_of line.now)) }
{
    let (bytes, line) = hex(alloc, line)?;
    end(line)?;
    Ok(Fill::Hex(bytes))
}

/// What follows the name of a buffer.
#[tactic(auto, unfolding(crate::specs::Forms::fill_of, crate::specs::Forms::fill_forms))]
fn fill(alloc: Global, line: &[u8]) -> Result<Fill, LineFault>
    ensures { Gives (λ x. x) result (fill_of (words_of line.now)) }
{
    let (first, line) = word(line)?;
    if first == b"zero".as_slice() {
        let (len, ()) = Fields::read(alloc, line)?;
        Ok(Fill::Zero(len))
    } else if first == b"count".as_slice() {
        let (len, ()) = Fields::read(alloc, line)?;
        Ok(Fill::Count(len))
    } else if first == b"hex".as_slice() {
        hex_fill(alloc, line)
    } else {
        Err(LineFault::Syntax)
    }
}

/// `NAME = CTOR`
fn define(alloc: Global, line: &[u8]) -> Result<Command, LineFault>
    ensures { Gives (λ x. x) result (behind define (words_of line.now)) }
{
    let (name, line) = item(line)?;
    let line = keyword(b"=", line)?;
    let ctor = ctor(alloc, line)?;
    Ok(Command::Define { name, ctor })
}

/// `NAME = TYPE NUMBER`
fn child(alloc: Global, line: &[u8]) -> Result<Command, LineFault>
    ensures { Gives (λ x. x) result (behind child (words_of line.now)) }
{
    let (name, line) = item(line)?;
    let line = keyword(b"=", line)?;
    let (ty, (k, ())) = Fields::read(alloc, line)?;
    Ok(Command::Child { name, ty, k })
}

/// `NAME FILL`
fn buffer(alloc: Global, line: &[u8]) -> Result<Command, LineFault>
    ensures { Gives (λ x. x) result (behind buffer (words_of line.now)) }
{
    let (name, line) = item(line)?;
    let fill = fill(alloc, line)?;
    Ok(Command::Buffer { name, fill })
}

/// `LEAF VECTOR INDEX PLACE GROUP PART`
fn weights(alloc: Global, line: &[u8]) -> Result<Command, LineFault>
    ensures { Gives (λ x. x) result (behind weights (words_of line.now)) }
{
    let (leaf, (vector, (index, (place, (group, (part, ())))))) = Fields::read(alloc, line)?;
    Ok(Command::Weights {
        leaf,
        vector,
        index,
        place,
        group,
        part,
    })
}

/// `NAME = TYPE`
fn rebuild(alloc: Global, line: &[u8]) -> Result<Command, LineFault>
    ensures { Gives (λ x. x) result (behind rebuild (words_of line.now)) }
{
    let (name, line) = item(line)?;
    let line = keyword(b"=", line)?;
    let (ty, ()) = Fields::read(alloc, line)?;
    Ok(Command::Rebuild { name, ty })
}

/// `SESSION HEX`
fn give(alloc: Global, line: &[u8]) -> Result<Command, LineFault>
    ensures { Gives (λ x. x) result (behind give (words_of line.now)) }
{
    let (session, line) = item(line)?;
    let (bytes, line) = hex(alloc, line)?;
    end(line)?;
    Ok(Command::Give { session, bytes })
}

/// `COUNT TYPE BUFFER ORIGIN COUNT TYPE BUFFER ORIGIN`
fn copy(alloc: Global, line: &[u8]) -> Result<Command, LineFault>
    ensures { Gives (λ x. x) result (behind copy (words_of line.now)) }
{
    let (source_count, (source_type, (source, (source_origin, rest)))) = Fields::read(alloc, line)?;
    let (target_count, (target_type, (target, (target_origin, ())))) = rest;
    Ok(Command::Copy {
        source_count,
        source_type,
        source,
        source_origin,
        target_count,
        target_type,
        target,
        target_origin,
    })
}

/// `NAME = HEX`
fn import(alloc: Global, line: &[u8]) -> Result<Command, LineFault>
    ensures { Gives (λ x. x) result (behind import (words_of line.now)) }
{
    let (name, line) = item(line)?;
    let line = keyword(b"=", line)?;
    let (wire, line) = hex(alloc, line)?;
    end(line)?;
    Ok(Command::Import { name, wire })
}

/// `OP COUNT TYPE BUFFER ORIGIN BUFFER ORIGIN`
fn reduce(alloc: Global, line: &[u8]) -> Result<Command, LineFault>
    ensures { Gives (λ x. x) result (behind reduce (words_of line.now)) }
{
    let (op, (count, (ty, (source, (source_origin, rest))))) = Fields::read(alloc, line)?;
    let (target, (target_origin, ())) = rest;
    Ok(Command::Reduce {
        op,
        count,
        ty,
        source,
        source_origin,
        target,
        target_origin,
    })
}

/// `OP HOW COUNT TYPE ORIGIN TARGET` and the ranks
fn reduceall(alloc: Global, line: &[u8]) -> Result<Command, LineFault>
    ensures { Gives (λ x. x) result (behind reduceall (words_of line.now)) }
{
    let (op, line) = item(line)?;
    let (how, line) = item(line)?;
    let (count, line) = item(line)?;
    let (ty, line) = item(line)?;
    let (origin, line) = item(line)?;
    let (target, line) = item(line)?;
    let ranks = one_or_more(alloc, line)?;
    Ok(Command::Reduceall {
        op,
        how,
        count,
        ty,
        origin,
        target,
        ranks,
    })
}

/// What follows the first word of a command that reduces.
#[tactic(auto, unfolding(crate::specs::Forms::reduction_forms))]
fn on_reductions(alloc: Global, first: &[u8], line: &[u8]) -> Result<Command, LineFault>
    ensures { Gives (λ x. x) result (one_of reduction_forms first.now (words_of line.now)) }
{
    if first == b"reduce".as_slice() {
        reduce(alloc, line)
    } else if first == b"reduceall".as_slice() {
        reduceall(alloc, line)
    } else {
        Err(LineFault::Syntax)
    }
}

/// What follows the first word of a command on copies or wire texts, or of one that reduces.
#[tactic(auto, unfolding(crate::specs::Forms::copy_forms))]
fn on_copies(alloc: Global, first: &[u8], line: &[u8]) -> Result<Command, LineFault>
    ensures { Gives (λ x. x) result (one_of copy_forms first.now (words_of line.now)) }
{
    if first == b"copy".as_slice() {
        copy(alloc, line)
    } else if first == b"export".as_slice() {
        let (ty, ()) = Fields::read(alloc, line)?;
        Ok(Command::Export { ty })
    } else if first == b"import".as_slice() {
        import(alloc, line)
    } else {
        on_reductions(alloc, first, line)
    }
}

/// What follows the first word of a command that receives, or of one on copies, wire texts or reductions.
#[tactic(auto, unfolding(crate::specs::Forms::unpack_forms))]
fn on_unpack(alloc: Global, first: &[u8], line: &[u8]) -> Result<Command, LineFault>
    ensures { Gives (λ x. x) result (one_of unpack_forms first.now (words_of line.now)) }
{
    if first == b"unpack".as_slice() {
        let (name, (rep, (count, (ty, (buffer, (origin, ())))))) = Fields::read(alloc, line)?;
        Ok(Command::Unpack {
            name,
            rep,
            count,
            ty,
            buffer,
            origin,
        })
    } else if first == b"give".as_slice() {
        give(alloc, line)
    } else {
        on_copies(alloc, first, line)
    }
}

/// What follows the first word of a command on sessions, or of one that receives.
#[tactic(auto, unfolding(crate::specs::Forms::session_forms))]
fn on_sessions(alloc: Global, first: &[u8], line: &[u8]) -> Result<Command, LineFault>
    ensures { Gives (λ x. x) result (one_of session_forms first.now (words_of line.now)) }
{
    if first == b"pack".as_slice() {
        let (name, (rep, (count, (ty, (buffer, (origin, ())))))) = Fields::read(alloc, line)?;
        Ok(Command::Pack {
            name,
            rep,
            count,
            ty,
            buffer,
            origin,
        })
    } else if first == b"take".as_slice() {
        let (session, (len, ())) = Fields::read(alloc, line)?;
        Ok(Command::Take { session, len })
    } else if first == b"seek".as_slice() {
        let (session, (byte, ())) = Fields::read(alloc, line)?;
        Ok(Command::Seek { session, byte })
    } else if first == b"close".as_slice() {
        let (session, ()) = Fields::read(alloc, line)?;
        Ok(Command::Close { session })
    } else {
        on_unpack(alloc, first, line)
    }
}

/// What follows the first word of a command on trees, or of one on sessions.
#[tactic(auto, unfolding(crate::specs::Forms::tree_forms))]
fn on_trees(alloc: Global, first: &[u8], line: &[u8]) -> Result<Command, LineFault>
    ensures { Gives (λ x. x) result (one_of tree_forms first.now (words_of line.now)) }
{
    if first == b"weights".as_slice() {
        weights(alloc, line)
    } else if first == b"normalise".as_slice() {
        let (ty, ()) = Fields::read(alloc, line)?;
        Ok(Command::Normalise { ty })
    } else if first == b"rebuild".as_slice() {
        rebuild(alloc, line)
    } else {
        on_sessions(alloc, first, line)
    }
}

/// What follows the first word of a command on buffers or received bytes, or of one on trees.
#[tactic(auto, unfolding(crate::specs::Forms::buffer_forms))]
fn on_buffers(alloc: Global, first: &[u8], line: &[u8]) -> Result<Command, LineFault>
    ensures { Gives (λ x. x) result (one_of buffer_forms first.now (words_of line.now)) }
{
    if first == b"buffer".as_slice() {
        buffer(alloc, line)
    } else if first == b"show".as_slice() {
        let (buffer, ()) = Fields::read(alloc, line)?;
        Ok(Command::Show { buffer })
    } else if first == b"bytes".as_slice() {
        let (rep, (count, (ty, (buffer, (origin, ()))))) = Fields::read(alloc, line)?;
        Ok(Command::Bytes {
            rep,
            count,
            ty,
            buffer,
            origin,
        })
    } else if first == b"elements".as_slice() {
        let (rep, (bytes, (ty, ()))) = Fields::read(alloc, line)?;
        Ok(Command::Elements { rep, bytes, ty })
    } else {
        on_trees(alloc, first, line)
    }
}

/// What follows the first word of a command that asks about a type, or of one on buffers or trees.
#[tactic(auto, unfolding(crate::specs::Forms::question_forms))]
fn question(alloc: Global, first: &[u8], line: &[u8]) -> Result<Command, LineFault>
    ensures { Gives (λ x. x) result (one_of question_forms first.now (words_of line.now)) }
{
    if first == b"info".as_slice() {
        let (ty, ()) = Fields::read(alloc, line)?;
        Ok(Command::Info { ty })
    } else if first == b"map".as_slice() {
        let (ty, ()) = Fields::read(alloc, line)?;
        Ok(Command::Map { ty })
    } else if first == b"envelope".as_slice() {
        let (ty, ()) = Fields::read(alloc, line)?;
        Ok(Command::Envelope { ty })
    } else if first == b"contents".as_slice() {
        let (ty, ()) = Fields::read(alloc, line)?;
        Ok(Command::Contents { ty })
    } else {
        on_buffers(alloc, first, line)
    }
}

/// A line that is in a line form.
#[tactic(auto, unfolding(crate::specs::Forms::command_of, crate::specs::Forms::command_forms))]
pub(crate) fn command(alloc: Global, line: &[u8]) -> Result<Command, LineFault>
    ensures { Gives (λ x. x) result (command_of (words_of line.now)) }
{
    let (first, line) = word(line)?;
    if first == b"type".as_slice() {
        define(alloc, line)
    } else if first == b"child".as_slice() {
        child(alloc, line)
    } else if first == b"commit".as_slice() {
        let (ty, ()) = Fields::read(alloc, line)?;
        Ok(Command::Commit { ty })
    } else if first == b"free".as_slice() {
        let (ty, ()) = Fields::read(alloc, line)?;
        Ok(Command::Free { ty })
    } else {
        question(alloc, first, line)
    }
}
