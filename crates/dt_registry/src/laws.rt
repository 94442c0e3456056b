//! Laws of registries, stated over their definitions. The functions do nothing.
ghost use Rattle.dt_registry.specs.Laws.{FreedStaysFreed, NoHandleTwice};

/// A handle that was made and is live no more never answers again, whatever is called.
pub fn freed_stays_freed()
    ensures { FreedStaysFreed }
{}

/// No handle is made twice, whatever is called in between.
pub fn no_handle_twice()
    ensures { NoHandleTwice }
{}
