//! Classes of which remote objects can be made.

ghost use Rattle.std.specs.Prelude.{◌≡◌};
ghost use Rattle.sp_behaviours.specs.Remote.{has_instances, is_abstract};

use cls_link::{ClassSet, Flags};
use space_ids::ClassId;
use vm_step::Program;

/// Whether a class is remote and not abstract.
pub(crate) fn has_instances(program: &Program, class: ClassId) -> bool
    ensures { result ≡ has_instances program.now.classes class }
{
    program.is_remote(class) && !is_abstract(program.linked().set(), class)
}

fn is_abstract(set: &ClassSet, class: ClassId) -> bool
    ensures { result ≡ is_abstract set.now class }
{
    if usize::from(class.0) >= set.len() {
        return false;
    }
    set.class(class).file.flags.has(Flags::ABSTRACT)
}
