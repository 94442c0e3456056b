//! The bytes of a datatype.
ghost use Rattle.std.specs.Prelude.{◌≡◌, ◌<◌, ◌++◌, OnOk, IfOk};
ghost use Rattle.dt_form.specs.Form.{items_of};
ghost use Rattle.dt_type.specs.Datatype.{form_of};
ghost use Rattle.dt_wire.specs.Spelling.{layer, spelling, text_of};

use crate::fields::{
    push_addr_blocks, push_addr_disps, push_address, push_byte, push_dist_dims, push_int,
    push_int_blocks, push_int_disps, push_kind, push_number, push_order, push_sub_dims,
};
use dt_form::FormOf;
use dt_kinds::NoMemory;
use dt_type::{Datatype, Form};
use std::alloc::Global;

/// Appends the bytes of a datatype's form, of so many levels at most.
#[cycle(forms)]
fn push_form(out: &mut Vec<u8>, ty: &Datatype, levels: u32) -> Result<(), NoMemory>
    ensures { OnOk result (out.new.items ≡ out.old.items ++ spelling levels (form_of ty.now)) }
{
    if levels == 0 {
        return Ok(());
    }
    push_layer(out, ty.form(), levels - 1)
}

/// Appends the bytes of a form whose old types have so many levels at most.
#[cycle(forms)]
fn push_layer(out: &mut Vec<u8>, form: &Form, levels: u32) -> Result<(), NoMemory>
    requires { items_of form.now < 65536 }
    ensures { OnOk result (out.new.items ≡ out.old.items ++ layer (λ old. spelling levels (form_of old)) form.now) }
{
    match form {
        FormOf::Named(kind) => {
            push_byte(out, 0)?;
            push_kind(out, *kind)
        }
        FormOf::Dup { old } => {
            push_byte(out, 1)?;
            push_form(out, old, levels)
        }
        FormOf::Contiguous { count, old } => {
            push_byte(out, 2)?;
            push_int(out, *count)?;
            push_form(out, old, levels)
        }
        FormOf::Vector {
            count,
            block,
            stride,
            old,
        } => {
            push_byte(out, 3)?;
            push_int(out, *count)?;
            push_int(out, *block)?;
            push_int(out, *stride)?;
            push_form(out, old, levels)
        }
        FormOf::Hvector {
            count,
            block,
            stride,
            old,
        } => {
            push_byte(out, 4)?;
            push_int(out, *count)?;
            push_int(out, *block)?;
            push_address(out, *stride)?;
            push_form(out, old, levels)
        }
        FormOf::Indexed { blocks, old } => {
            push_byte(out, 5)?;
            push_number(out, blocks.as_slice())?;
            push_int_blocks(out, blocks.as_slice())?;
            push_form(out, old, levels)
        }
        FormOf::Hindexed { blocks, old } => {
            push_byte(out, 6)?;
            push_number(out, blocks.as_slice())?;
            push_addr_blocks(out, blocks.as_slice())?;
            push_form(out, old, levels)
        }
        FormOf::IndexedBlock { block, disps, old } => {
            push_byte(out, 7)?;
            push_int(out, *block)?;
            push_number(out, disps.as_slice())?;
            push_int_disps(out, disps.as_slice())?;
            push_form(out, old, levels)
        }
        FormOf::HindexedBlock { block, disps, old } => {
            push_byte(out, 8)?;
            push_int(out, *block)?;
            push_number(out, disps.as_slice())?;
            push_addr_disps(out, disps.as_slice())?;
            push_form(out, old, levels)
        }
        FormOf::Struct { parts } => {
            push_byte(out, 9)?;
            push_number(out, parts.as_slice())?;
            'parts: for part in parts.as_slice() {
                push_int(out, part.len)?;
                push_address(out, part.disp)?;
                push_form(out, &part.old, levels)?;
            }
            Ok(())
        }
        FormOf::Subarray { dims, order, old } => {
            push_byte(out, 10)?;
            push_order(out, *order)?;
            push_number(out, dims.as_slice())?;
            push_sub_dims(out, dims.as_slice())?;
            push_form(out, old, levels)
        }
        FormOf::Darray {
            size,
            rank,
            dims,
            order,
            old,
        } => {
            push_byte(out, 11)?;
            push_int(out, *size)?;
            push_int(out, *rank)?;
            push_order(out, *order)?;
            push_number(out, dims.as_slice())?;
            push_dist_dims(out, dims.as_slice())?;
            push_form(out, old, levels)
        }
        FormOf::Resized { lb, extent, old } => {
            push_byte(out, 12)?;
            push_address(out, *lb)?;
            push_address(out, *extent)?;
            push_form(out, old, levels)
        }
    }
}

/// The bytes of a datatype: `dtw1`, and its form with those of its old types in the places of these.
pub fn export(alloc: Global, ty: &Datatype) -> Result<Vec<u8>, NoMemory>
    ensures { IfOk result (λ text. text.items ≡ text_of (form_of ty.now)) }
{
    let mut out = Vec::new(alloc);
    out.extend_from_slice(b"dtw1")?;
    push_form(&mut out, ty, 64)?;
    Ok(out)
}
