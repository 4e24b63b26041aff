//! Copies of what is asked of a peer.

ghost use Rattle.std.specs.Prelude.{◌≡◌, IfOk};

use crate::{Asked, OutCall, OutGroup};
use dgc_client::Group;
use message_copies::copy_message;
use space_ids::Row;
use std::alloc::{AllocError, Global};
use table_copies::CopyIn;

impl CopyIn for Asked {
    ghost is_copy = { λ asked copy. copy ≡ asked };

    fn copy_in(&self, alloc: Global) -> Result<Asked, AllocError> {
        match self {
            Asked::Call {
                number,
                task,
                lent,
                kind,
                message,
            } => Ok(Asked::Call {
                number: *number,
                task: *task,
                lent: *lent,
                kind: *kind,
                message: copy_message(alloc, message)?,
            }),
            Asked::Lookup { number, task, name } => Ok(Asked::Lookup {
                number: *number,
                task: *task,
                name: Row::new(name.as_slice().to_vec(alloc)?),
            }),
            Asked::Tell { call, group } => Ok(Asked::Tell {
                call: *call,
                group: copy_group(alloc, group)?,
            }),
        }
    }
}

impl CopyIn for OutCall {
    ghost is_copy = { λ call copy. copy ≡ call };

    fn copy_in(&self, _alloc: Global) -> Result<OutCall, AllocError> {
        Ok(*self)
    }
}

impl CopyIn for OutGroup {
    ghost is_copy = { λ group copy. copy ≡ group };

    fn copy_in(&self, alloc: Global) -> Result<OutGroup, AllocError> {
        Ok(OutGroup {
            call: self.call,
            group: copy_group(alloc, &self.group)?,
        })
    }
}

// Copies of what waits, in its order.
pub(crate) fn copy_waiting(alloc: Global, waiting: &[Asked]) -> Result<Vec<Asked>, AllocError>
    ensures { IfOk result (λ copies. copies.items ≡ waiting.now) }
{
    let mut copies = Vec::new(alloc);
    for asked in waiting {
        copies.push(asked.copy_in(alloc)?)?;
    }
    Ok(copies)
}

// A copy of a group.
fn copy_group(alloc: Global, group: &Group) -> Result<Group, AllocError>
    ensures { IfOk result (λ copy. copy ≡ group.now) }
{
    Ok(Group {
        peer: group.peer,
        kind: group.kind,
        ids: Row::new(group.ids.as_slice().to_vec(alloc)?),
    })
}
