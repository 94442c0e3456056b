//! The lines of the values of classes.
ghost use Rattle.std.specs.Prelude.{◌≡◌, ◌++◌, OnOk, map};
ghost use Rattle.std.specs.List.{All, filter, flat_map};
ghost use Rattle.dt_check.specs.Members.{IsMember};
ghost use Rattle.dt_cert.specs.Certificate.{ByClasses};
ghost use Rattle.dt_cert.specs.Classes.{is_first};
ghost use Rattle.dt_cert.specs.Text.{text_of_line, value_line};

use crate::lines::push_value;
use dt_alike::Classes;
use dt_kinds::NoMemory;
use dt_normal::Low;

/// Appends a line for each member that names the first segment of its class.
pub(crate) fn push_classes(
    out: &mut Vec<u8>,
    classes: &Classes,
    lows: &[Low],
) -> Result<(), NoMemory>
    requires members { All (IsMember classes.now) lows.now }
    ensures { OnOk result (out.new.items ≡ out.old.items ++ flat_map text_of_line (map (value_line ByClasses) (filter (is_first classes.now) lows.now))) }
{
    'lows: for low in lows {
        if classes.first(low.from, low.to) == low.from {
            push_value(out, *low)?;
        }
    }
    Ok(())
}
