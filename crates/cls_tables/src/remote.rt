//! Which classes of a set are remote.

ghost use Rattle.std.specs.Prelude.{IfOk};
ghost use Rattle.cls_tables.specs.Remote.{TellsRemote};

use cls_link::{ClassId, ClassSet};
use std::alloc::{AllocError, Global};

/// Whether objects of each class are remote, by class number.
pub(crate) fn tell_remote(alloc: Global, set: &ClassSet) -> Result<Vec<bool>, AllocError>
    ensures { IfOk result (λ told. TellsRemote set.now told.items) }
{
    let mut told = Vec::with_capacity(alloc, set.len())?;
    for number in 0..set.len() {
        told.push(set.is_remote(ClassId(number as u16)))?;
    }
    Ok(told)
}
