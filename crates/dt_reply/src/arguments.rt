//! The words of a constructor and of its arguments, appended one after another.
ghost use Rattle.std.specs.Prelude.{◌≡◌, ◌++◌, OnOk, codes, flat_map, map};
ghost use Rattle.std.specs.Fmt.{signed_decimal};
ghost use Rattle.dt_type.specs.Datatype.{form_of};
ghost use Rattle.dt_reply.specs.Reply as spec;
ghost use Rattle.dt_reply.specs.Reply.{envelope_words, listed_words, number_words, old_word, spaced};

use crate::text::{push_field, push_number, push_word};
use dt_kinds::NoMemory;
use dt_type::{Combiner, Datatype, Envelope, FormOf};

/// The name of a constructor.
fn combiner_name(combiner: Combiner) -> &'static str
    ensures { result.now ≡ spec.combiner_name combiner }
{
    match combiner {
        Combiner::Named => "named",
        Combiner::Dup => "dup",
        Combiner::Contiguous => "contiguous",
        Combiner::Vector => "vector",
        Combiner::Hvector => "hvector",
        Combiner::Indexed => "indexed",
        Combiner::Hindexed => "hindexed",
        Combiner::IndexedBlock => "indexed_block",
        Combiner::HindexedBlock => "hindexed_block",
        Combiner::Struct => "struct",
        Combiner::Subarray => "subarray",
        Combiner::Darray => "darray",
        Combiner::Resized => "resized",
    }
}

/// Appends a name, and how many there are.
#[tactic(auto, unfolding(crate::specs::Reply::number_words))]
fn push_number_of(out: &mut Vec<u8>, name: &[u8], number: u64) -> Result<(), NoMemory>
    ensures { OnOk result (out.new.items ≡ out.old.items ++ flat_map spaced (number_words name.now number)) }
{
    push_field(out, name, number)
}

/// Appends the constructor, and how many integers, addresses and types its arguments have.
#[tactic(auto, unfolding(crate::specs::Reply::envelope_words))]
pub(crate) fn push_envelope(out: &mut Vec<u8>, envelope: Envelope) -> Result<(), NoMemory>
    ensures { OnOk result (out.new.items ≡ out.old.items ++ flat_map spaced (envelope_words envelope)) }
{
    push_word(out, combiner_name(envelope.combiner).as_bytes())?;
    push_number_of(out, b"integers", envelope.integers)?;
    push_number_of(out, b"addresses", envelope.addresses)?;
    push_number_of(out, b"types", envelope.types)
}

/// Appends numbers in order.
fn push_numbers(out: &mut Vec<u8>, numbers: &[i64]) -> Result<(), NoMemory>
    ensures { OnOk result (out.new.items ≡ out.old.items ++ flat_map spaced (map signed_decimal numbers.now)) }
{
    'numbers: for number in numbers {
        push_number(out, *number)?;
    }
    Ok(())
}

/// Appends a name, how many numbers there are, and the numbers.
#[tactic(auto, unfolding(crate::specs::Reply::listed_words))]
pub(crate) fn push_listed(out: &mut Vec<u8>, name: &[u8], numbers: &[i64]) -> Result<(), NoMemory>
    ensures { OnOk result (out.new.items ≡ out.old.items ++ flat_map spaced (listed_words name.now signed_decimal numbers.now)) }
{
    push_number_of(out, name, numbers.len() as u64)?;
    push_numbers(out, numbers)
}

/// Appends the name of a constructor between `<` and `>`, such as ` <vector>`.
fn push_combiner(out: &mut Vec<u8>, combiner: Combiner) -> Result<(), NoMemory>
    ensures { OnOk result (out.new.items ≡ out.old.items ++ spaced (codes "<" ++ spec.combiner_name combiner ++ codes ">")) }
{
    push_word(out, b"<")?;
    out.extend_from_slice(combiner_name(combiner).as_bytes())?;
    out.extend_from_slice(b">")?;
    Ok(())
}

/// Appends the kind of a basic type, and the constructor of another.
fn push_old(out: &mut Vec<u8>, old: &Datatype) -> Result<(), NoMemory>
    ensures { OnOk result (out.new.items ≡ out.old.items ++ spaced (old_word (form_of old.now))) }
{
    match old.form() {
        FormOf::Named(kind) => push_word(out, kind.name().as_bytes()),
        _ => push_combiner(out, old.envelope().combiner),
    }
}

/// Appends old types in order.
fn push_olds(out: &mut Vec<u8>, olds: &[Datatype]) -> Result<(), NoMemory>
    ensures { OnOk result (out.new.items ≡ out.old.items ++ flat_map spaced (map (λ t. old_word (form_of t)) olds.now)) }
{
    'olds: for old in olds {
        push_old(out, old)?;
    }
    Ok(())
}

/// Appends how many old types there are, and the old types.
#[tactic(auto, unfolding(crate::specs::Reply::listed_words))]
pub(crate) fn push_types(out: &mut Vec<u8>, olds: &[Datatype]) -> Result<(), NoMemory>
    ensures { OnOk result (out.new.items ≡ out.old.items ++ flat_map spaced (listed_words (codes "types") (λ t. old_word (form_of t)) olds.now)) }
{
    push_number_of(out, b"types", olds.len() as u64)?;
    push_olds(out, olds)
}
