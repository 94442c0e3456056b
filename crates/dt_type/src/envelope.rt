//! The constructor that made a datatype, and how many arguments of each sort it took.
ghost use Rattle.std.specs.Prelude.{◌≡◌};
ghost use Rattle.dt_form.specs.Contents.{envelope_of};
ghost use Rattle.dt_type.specs.Datatype.{form_of};

use crate::datatype::Datatype;
use dt_form::Envelope;

impl Datatype {
    /// The constructor that made the datatype, and how long the three lists of its contents are (MPI 4.1, section 5.1.13,
    /// `MPI_Type_get_envelope`). It takes no memory and a time that doesn't depend on the lists.
    pub fn envelope(&self) -> Envelope
        ensures { result ≡ envelope_of (form_of self.now) }
    {
        self.form().envelope()
    }
}
