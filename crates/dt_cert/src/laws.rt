//! Laws of certificates, stated over their definitions. The functions do nothing.
ghost use Rattle.dt_cert.specs.Laws.{HoldsIsLeast, ShownIsLeast};

/// The tree of a certificate that holds stands for its entries, and no tree that does, from whatever base on, costs less.
pub fn holds_is_least()
    ensures { HoldsIsLeast }
{}

/// The tree of a certificate that is shown stands for its entries, and no tree that does, from whatever base on, costs less.
pub fn shown_is_least()
    ensures { ShownIsLeast }
{}
