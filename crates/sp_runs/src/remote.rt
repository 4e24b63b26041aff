//! Whether a method runs alone or in a space.

ghost use Rattle.std.specs.Prelude.{◌≡◌, true, false};
ghost use Rattle.vm_step.specs.Run.{HasNoRemote};

use space_ids::ClassId;
use vm_step::Program;

/// Whether a class of the program is remote.
pub fn has_remote(program: &Program) -> bool
    ensures none { result ≡ false → HasNoRemote program.now.classes }
    ensures one { result ≡ true → ¬ HasNoRemote program.now.classes }
{
    let set = program.linked().set();
    for index in 0..set.len() {
        if set.is_remote(ClassId(index as u16)) {
            return true;
        }
    }
    false
}
