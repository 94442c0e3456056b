//! How heavy and how deep a form makes its datatype.
ghost use Rattle.std.specs.Prelude.{◌≡◌};
ghost use Rattle.std.specs.List.{AllByRecursion, sum_by};
ghost use Rattle.dt_form.specs.Form.{olds_of};
ghost use Rattle.dt_type.specs.Datatype.{weight_of};
ghost use Rattle.dt_type.specs.Form as spec;
ghost use Rattle.dt_type.specs.Whole.{IsWhole};
ghost use Rattle.dt_offsets.specs.Reach.{capped};

use crate::datatype::Form;

/// The weights of the old types, up to the greatest `u64`.
fn weight_of_olds(form: &Form) -> u64
    ensures { result ≡ capped (sum_by weight_of (olds_of form.now)) }
{
    let mut weight: u64 = 0;
    'olds: for k in 0..form.number_of_olds() {
        weight = weight.saturating_add(form.old_type(k).weight());
    }
    weight
}

/// The depth of the deepest old type.
fn depth_of_olds(form: &Form) -> u32
    ensures value { result ≡ spec.deepest (olds_of form.now) }
    ensures whole { AllByRecursion IsWhole (olds_of form.now) }
{
    let mut depth: u32 = 0;
    'olds: for k in 0..form.number_of_olds() {
        depth = depth.max(form.old_type(k).depth());
    }
    depth
}

/// The weight of the datatype that a form makes, up to the greatest `u64`.
pub(crate) fn weight_by(form: &Form) -> u64
    ensures { result ≡ capped (spec.weight_by form.now) }
{
    let items = form.items() as u64;
    items.saturating_add(1).saturating_add(weight_of_olds(form))
}

/// The depth of the datatype that a form makes, up to the greatest `u64`.
pub(crate) fn depth_by(form: &Form) -> u64
    ensures value { result ≡ capped (spec.depth_by form.now) }
    ensures whole { AllByRecursion IsWhole (olds_of form.now) }
{
    let levels = form.levels() as u64;
    levels.saturating_add(u64::from(depth_of_olds(form)))
}
