//! Laws of the texts of certificates, stated over their definitions. The functions do nothing.
ghost use Rattle.dt_verdict.specs.Laws.{MigratedOrNot, MigratedStays, NothingShown, OneCertificate, OneFault, OneReason, OneWrongLine};

/// A text is that of one certificate at most.
pub fn one_certificate()
    ensures { OneCertificate }
{}

/// One line of a text at most is the first wrong one.
pub fn one_wrong_line()
    ensures { OneWrongLine }
{}

/// There is one reason at most why a text shows nothing.
pub fn one_reason()
    ensures { OneReason }
{}

/// A text for which `check` has a reason shows no certificate.
pub fn nothing_shown()
    ensures { NothingShown }
{}

/// What `migrate` makes of a text shows a certificate, in version 3, and `migrate` leaves it as it is.
pub fn migrated_stays()
    ensures { MigratedStays }
{}

/// A text of which `migrate` makes another has no reason why not.
pub fn migrated_or_not()
    ensures { MigratedOrNot }
{}

/// There is one reason at most why `migrate` makes nothing of a text.
pub fn one_fault()
    ensures { OneFault }
{}
