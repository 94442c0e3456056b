//! How many items a form lists, and how many levels it adds.
ghost use Rattle.std.specs.Prelude.{◌≡◌};
ghost use Rattle.dt_form.specs.Form.{is_named, items_of, levels_of};

use crate::form::FormOf;

impl<T> FormOf<T> {
    /// Whether it is that of a basic datatype, which no constructor makes.
    pub fn is_named(&self) -> bool
        ensures { result ≡ is_named self.now }
    {
        matches!(self, FormOf::Named(_))
    }

    /// How many blocks, displacements, parts or dimensions the arguments list.
    pub fn items(&self) -> usize
        ensures { result ≡ items_of self.now }
    {
        match self {
            FormOf::Named(_) | FormOf::Dup { .. } | FormOf::Resized { .. } => 0,
            FormOf::Contiguous { .. } | FormOf::Vector { .. } | FormOf::Hvector { .. } => 1,
            FormOf::Indexed { blocks, .. } => blocks.len(),
            FormOf::Hindexed { blocks, .. } => blocks.len(),
            FormOf::IndexedBlock { disps, .. } => disps.len(),
            FormOf::HindexedBlock { disps, .. } => disps.len(),
            FormOf::Struct { parts } => parts.len(),
            FormOf::Subarray { dims, .. } => dims.len(),
            FormOf::Darray { dims, .. } => dims.len(),
        }
    }

    /// The levels that the constructor puts above its old types.
    pub fn levels(&self) -> usize
        ensures { result ≡ levels_of self.now }
    {
        match self {
            FormOf::Subarray { dims, .. } => dims.len(),
            FormOf::Darray { dims, .. } => dims.len(),
            _ => 1,
        }
    }
}
