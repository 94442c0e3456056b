//! The old datatypes of a datatype, one by one.
ghost use Rattle.std.specs.Prelude.{◌≡◌};
ghost use Rattle.std.specs.Option.{option_copied};
ghost use Rattle.dt_form.specs.Contents as spec;
ghost use Rattle.dt_type.specs.Contents.{IsChild};
ghost use Rattle.dt_form.specs.Form.{olds_of};

use crate::datatype::{Datatype, Form};
use crate::fault::ChildFault;

/// Old datatype k of a form, from 0 on.
fn old_at(form: &Form, k: i32) -> Option<&Datatype>
    ensures { option_copied result ≡ spec.old_at (olds_of form.now) k }
{
    let Ok(k) = usize::try_from(k) else {
        return None;
    };
    form.old_at(k)
}

impl Datatype {
    /// Old datatype k, from 0 on, in the order of the contents. `Named` for a basic datatype; `NoSuchChild` where the datatype isn't basic
    /// and `k` is negative or not below the number of its old datatypes. It takes no memory, but an `Rc` may refuse one more owner.
    pub fn child(&self, k: i32) -> Result<Datatype, ChildFault>
        ensures { IsChild self.now k result }
    {
        let form = self.form();
        if form.is_named() {
            return Err(ChildFault::Named);
        }
        let Some(old) = old_at(form, k) else {
            return Err(ChildFault::NoSuchChild);
        };
        Ok(old.share()?)
    }
}
