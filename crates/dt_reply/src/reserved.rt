//! A line that is appended where there is room for it, and so takes no memory.
ghost use Rattle.std.specs.Prelude.{◌≡◌, ◌+◌, ◌≤◌, ◌++◌, decimal, flat_map, length, vec_capacity, vec_len};
ghost use Rattle.dt_reply.specs.Reply.{copies_words, line_of, number_words, receipt_words, spaced, text_of};
ghost use Rattle.dt_reply.specs.declared.reply.Reply.TheVariants.{Given};

use crate::receipt::Receipt;
use itoa::Buffer;

/// No line of what a piece came to has more bytes.
pub const RECEIPT_ROOM: usize = 160;

/// Appends bytes.
fn put(out: &mut Vec<u8>, bytes: &[u8])
    requires { vec_len out.old + length bytes.now ≤ vec_capacity out.old }
    ensures items { out.new.items ≡ out.old.items ++ bytes.now }
    ensures len { vec_len out.new ≡ vec_len out.old + length bytes.now }
    ensures capacity { vec_capacity out.old ≤ vec_capacity out.new }
{
    let Ok(()) = out.extend_from_slice(bytes) else {
        unreachable!()
    };
}

/// Appends a space and a number.
fn put_number(out: &mut Vec<u8>, number: u64)
    requires { vec_len out.old + 21 ≤ vec_capacity out.old }
    ensures items { out.new.items ≡ out.old.items ++ spaced (decimal number) }
    ensures len { vec_len out.new ≤ vec_len out.old + 21 }
    ensures capacity { vec_capacity out.old ≤ vec_capacity out.new }
{
    let mut buffer = Buffer::new();
    put(out, b" ");
    put(out, buffer.format(number).as_bytes());
}

/// Appends a name and a number, each behind a space.
fn put_field(out: &mut Vec<u8>, name: &[u8], number: u64)
    requires { vec_len out.old + length name.now + 22 ≤ vec_capacity out.old }
    ensures items { out.new.items ≡ out.old.items ++ (spaced name.now ++ spaced (decimal number)) }
    ensures len { vec_len out.new ≤ vec_len out.old + length name.now + 22 }
    ensures capacity { vec_capacity out.old ≤ vec_capacity out.new }
{
    put(out, b" ");
    put(out, name);
    put_number(out, number);
}

/// Appends how many copies there are, behind their name, or that they aren't whole.
fn put_copies(out: &mut Vec<u8>, copies: Option<u64>)
    requires { vec_len out.old + 28 ≤ vec_capacity out.old }
    ensures items { out.new.items ≡ out.old.items ++ flat_map spaced (copies_words copies) }
    ensures len { vec_len out.new ≤ vec_len out.old + 28 }
    ensures capacity { vec_capacity out.old ≤ vec_capacity out.new }
{
    match copies {
        None => put(out, b" copies undefined"),
        Some(copies) => put_field(out, b"copies", copies),
    }
}

/// Appends `given NEW held HELD bytes BYTES elements ELEMENTS copies COPIES`, what a piece came to. It takes no memory.
#[tactic(auto, unfolding(crate::specs::Reply::line_of, crate::specs::Reply::receipt_words, crate::specs::Reply::number_words))]
pub fn write_receipt(out: &mut Vec<u8>, receipt: Receipt)
    requires { vec_len out.old + 160 ≤ vec_capacity out.old }
    ensures { out.new.items ≡ out.old.items ++ text_of (Given receipt) }
{
    put(out, b"given");
    put_number(out, receipt.completed);
    put_field(out, b"held", u64::from(receipt.held));
    put_field(out, b"bytes", receipt.bytes);
    put_field(out, b"elements", receipt.elements);
    put_copies(out, receipt.copies);
    put(out, b"\n");
}
