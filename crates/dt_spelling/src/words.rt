//! The words of a tree, appended one after another, each with a space behind it.
ghost use Rattle.std.specs.Prelude.{◌≡◌, ◌++◌, OnOk, flat_map, map};
ghost use Rattle.std.specs.Fmt.{signed_decimal};
ghost use Rattle.dt_tree.specs.Node.{tree_of};
ghost use Rattle.dt_spelling.specs.Spelling.{ended, words_of};

use dt_kinds::NoMemory;
use dt_tree::Node;
use itoa::{Buffer, Integer};

/// Appends a word and a space.
fn push_word(out: &mut Vec<u8>, word: &[u8]) -> Result<(), NoMemory>
    ensures { OnOk result (out.new.items ≡ out.old.items ++ ended word.now) }
{
    out.extend_from_slice(word)?;
    out.extend_from_slice(b" ")?;
    Ok(())
}

/// Appends a number and a space.
fn push_number<I: Integer>(out: &mut Vec<u8>, number: I) -> Result<(), NoMemory>
    ensures { OnOk result (out.new.items ≡ out.old.items ++ ended (I.text number)) }
{
    let mut buffer = Buffer::new();
    push_word(out, buffer.format(number).as_bytes())
}

/// Appends the places of an index.
fn push_places(out: &mut Vec<u8>, places: &[i64]) -> Result<(), NoMemory>
    ensures { OnOk result (out.new.items ≡ out.old.items ++ flat_map ended (map signed_decimal places.now)) }
{
    'places: for place in places {
        push_number(out, *place)?;
    }
    Ok(())
}

/// Appends the words of a node and of all below it.
#[tactic(auto, using(crate::proofs::Writes::writes))]
pub(crate) fn push_node(out: &mut Vec<u8>, node: &Node) -> Result<(), NoMemory>
    ensures { OnOk result (out.new.items ≡ out.old.items ++ flat_map ended (words_of (tree_of node.now))) }
{
    match node {
        Node::Leaf(kind) => {
            push_word(out, b"leaf")?;
            push_word(out, kind.name().as_bytes())
        }
        Node::Vector {
            count,
            block,
            stride,
            child,
        } => {
            push_word(out, b"vector")?;
            push_number(out, *count)?;
            push_number(out, *block)?;
            push_number(out, *stride)?;
            push_node(out, child.get())
        }
        Node::Index {
            block,
            places,
            child,
        } => {
            push_word(out, b"index")?;
            push_number(out, places.len())?;
            push_number(out, *block)?;
            push_places(out, places.as_slice())?;
            push_node(out, child.get())
        }
        Node::Group { parts } => {
            push_word(out, b"struct")?;
            push_number(out, parts.len())?;
            'parts: for part in parts.as_slice() {
                push_number(out, part.block)?;
                push_number(out, part.disp)?;
                push_node(out, &part.node)?;
            }
            Ok(())
        }
    }
}
