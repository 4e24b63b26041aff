//! The line of an object.

ghost use Rattle.std.specs.Prelude.{◌≡◌, ◌++◌, ℕ, List, OnOk};
ghost use Rattle.sim_shows.specs.Lines.{object_line};

use crate::{Named, PlayFault, Shown};
use std::io::Write;

/// Adds the line of an object of the space of this name: `S ID CLASS names=N entries=K`.
pub fn put_object<S: Named>(
    text: &mut Vec<u8>,
    space: &S,
    name: &str,
    shown: &Shown,
) -> Result<(), PlayFault>
    ensures line { OnOk result ((class : List ℕ) × S.is_named space.now shown.now.class class
        × (text.new.items ≡ text.old.items ++ object_line name.now class shown.now)) }
{
    put_line(text, name, space.class_name(shown.class), shown)
}

// Adds the line of an object whose class has this name.
fn put_line(text: &mut Vec<u8>, name: &str, class: &[u8], shown: &Shown) -> Result<(), PlayFault>
    ensures line { OnOk result (text.new.items ≡ text.old.items
        ++ object_line name.now class.now shown.now) }
{
    write!(text, "{name} {} ", shown.id.0)?;
    text.extend_from_slice(class)?;
    writeln!(text, " names={} entries={}", shown.names, shown.entries)?;
    Ok(())
}
