//! The constructor that takes a datatype for each part (MPI 4.1, section 5.1.2).
ghost use Rattle.std.specs.Prelude.{◌≡◌, Some, MatchResult};
ghost use Rattle.dt_space.specs.Structures.{parts_at, part_at, IsNewStruct, IsMissingPart};

use crate::fault::SpaceFault;
use crate::number::TypeNumber;
use crate::space::Space;
use dt_type::{Part, PartOf};
use std::alloc::Global;

impl Space {
    /// A part over the datatype that its number stands for.
    fn part(&self, alloc: Global, part: &PartOf<TypeNumber>) -> Result<Part, SpaceFault>
        ensures { MatchResult result (λ p. part_at self.now part.now ≡ Some p) (IsMissingPart (part_at self.now part.now)) }
    {
        Ok(PartOf {
            len: part.len,
            disp: part.disp,
            old: self.kept(alloc, part.old)?.ty,
        })
    }

    /// All parts.
    fn parts(&self, alloc: Global, parts: &[PartOf<TypeNumber>]) -> Result<Vec<Part>, SpaceFault>
        ensures { MatchResult result (λ ps. parts_at self.now parts.now ≡ Some ps.items) (IsMissingPart (parts_at self.now parts.now)) }
    {
        let mut found = Vec::new(alloc);
        'parts: for part in parts {
            found.push(self.part(alloc, part)?)?;
        }
        Ok(found)
    }

    /// `MPI_Type_create_struct`: for each part so many copies of its own datatype, from so many bytes on.
    pub fn structure(
        &mut self,
        alloc: Global,
        parts: &[PartOf<TypeNumber>],
    ) -> Result<TypeNumber, SpaceFault>
        ensures { IsNewStruct self.old self.new parts.now result }
    {
        let parts = self.parts(alloc, parts)?;
        self.add(dt_ctor::structure(alloc, &parts)?)
    }
}
