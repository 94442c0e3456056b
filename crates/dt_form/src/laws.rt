//! Laws of forms, stated over their definitions. The functions do nothing.
ghost use Rattle.dt_form.specs.Laws.{ContentsSayTheForm};

/// A combiner with the contents says all of a form that takes its arguments: what they decode to is the form.
pub fn contents_say_the_form<T>()
    ensures { ContentsSayTheForm T }
{}
