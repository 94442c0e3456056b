//! The arguments that made a datatype, in three lists (MPI 4.1, section 5.1.13).
ghost use Rattle.std.specs.Prelude.{◌≡◌, ◌<◌, IfOk};
ghost use Rattle.dt_form.specs.Contents.{contents_of};
ghost use Rattle.dt_form.specs.Form.{items_of, olds_of};
ghost use Rattle.dt_type.specs.Contents.{AreContents};

use crate::datatype::{Contents, Datatype, Form};
use crate::fault::ContentsFault;
use crate::limits::WEIGHT_MAX;
use dt_form::ContentsOf;
use dt_kinds::NoMemory;
use sqlite_items::Items;
use std::alloc::Global;

/// The old datatypes of a form.
fn types(alloc: Global, form: &Form) -> Result<Items<Datatype>, NoMemory>
    ensures { IfOk result (λ list. list ≡ olds_of form.now) }
{
    let mut list = Items::new(alloc);
    'olds: for k in 0..form.number_of_olds() {
        list.push(form.old_type(k).share()?)?;
    }
    Ok(list)
}

/// All three lists of a form.
fn contents_by(alloc: Global, form: &Form) -> Result<Contents, NoMemory>
    requires { items_of form.now < WEIGHT_MAX }
    ensures { IfOk result (λ contents. contents ≡ contents_of form.now) }
{
    Ok(ContentsOf {
        integers: form.integers(alloc)?,
        addresses: form.addresses(alloc)?,
        types: types(alloc, form)?,
    })
}

impl Datatype {
    /// The arguments of the constructor that made the datatype (MPI 4.1, section 5.1.13, `MPI_Type_get_contents`). `Named` for a basic
    /// datatype, which no constructor made. The time is linear in the three lists.
    pub fn contents(&self, alloc: Global) -> Result<Contents, ContentsFault>
        ensures { AreContents self.now result }
    {
        let form = self.form();
        if form.is_named() {
            return Err(ContentsFault::Named);
        }
        Ok(contents_by(alloc, form)?)
    }
}
