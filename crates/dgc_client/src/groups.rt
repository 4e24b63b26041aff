//! Calls in groups, one a peer and kind.

ghost use Rattle.std.specs.Prelude.{◌≡◌, ◌<◌, ◌++◌, ◌∷◌, [], List, OnOk, IfOk};
ghost use Rattle.dgc_client.specs.Groups.{is_same_kind, is_of, is_clean, group_of, grouped, IsGrouping, part_of, parts_of};

use crate::{Due, ForeignId};
use space_ids::{ObjId, Row};
use std::alloc::{AllocError, Global};
use uuid::Uuid;

/// A call that is due of one reference.
#[derive(Clone, Copy, PartialEq, Eq)]
pub struct DueCall {
    pub reference: ForeignId,
    pub kind: Due,
}

/// References of one peer of which one call is due. It goes out in [parts](Group::parts), one a frame.
#[derive(Drop)]
pub struct Group {
    /// The space that owns the objects.
    pub peer: Uuid,
    /// Which call it is.
    pub kind: Due,
    /// The objects.
    pub ids: Row<ObjId>,
}

// Whether two calls are of one kind.
fn is_same_kind(one: Due, other: Due) -> bool
    ensures { result ≡ is_same_kind one other }
{
    match (one, other) {
        (Due::Dirty, Due::Dirty) => true,
        (Due::Clean { strong: one }, Due::Clean { strong: other }) => one == other,
        _ => false,
    }
}

impl DueCall {
    // Whether the call is of this peer and kind.
    pub(crate) fn is_of(&self, peer: &Uuid, kind: Due) -> bool
        ensures { result ≡ is_of peer.now kind self.now }
    {
        self.reference.space == *peer && is_same_kind(self.kind, kind)
    }

    pub(crate) fn is_clean(&self) -> bool
        ensures { result ≡ is_clean self.now }
    {
        matches!(self.kind, Due::Clean { .. })
    }
}

impl Group {
    // A group of one call alone.
    fn of(alloc: Global, call: &DueCall) -> Result<Group, AllocError>
        ensures { IfOk result (λ group. group ≡ group_of call.now) }
    {
        let mut ids = Vec::new(alloc);
        ids.push(call.reference.id)?;
        Ok(Group {
            peer: call.reference.space,
            kind: call.kind,
            ids: Row::new(ids),
        })
    }

    // The group with one more object after the others.
    fn with(self, id: ObjId) -> Result<Group, AllocError>
        ensures { IfOk result (λ group. group ≡ record self { ids = self.ids ++ id ∷ [] }) }
    {
        let Group { peer, kind, ids } = self;
        let mut ids = ids.into_vec();
        ids.push(id)?;
        Ok(Group {
            peer,
            kind,
            ids: Row::new(ids),
        })
    }

    // The group of these of its objects.
    fn part(&self, alloc: Global, ids: &[ObjId]) -> Result<Group, AllocError>
        ensures { IfOk result (λ part. part ≡ part_of self.now ids.now) }
    {
        Ok(Group {
            peer: self.peer,
            kind: self.kind,
            ids: Row::new(ids.to_vec(alloc)?),
        })
    }

    /// Returns the group in parts of `most` objects; the last may have fewer. Each part goes out in
    /// one frame, and `most` is how many objects a frame to this peer may name.
    pub fn parts(&self, alloc: Global, most: usize) -> Result<Vec<Group>, AllocError>
        requires { 0 < most }
        ensures { IfOk result (λ parts. parts.items ≡ parts_of most self.now) }
    {
        let mut parts = Vec::new(alloc);
        let mut rest = self.ids.as_slice();
        while !rest.is_empty() {
            let (ids, more) = rest.split_at(most.min(rest.len()));
            parts.push(self.part(alloc, ids)?)?;
            rest = more;
        }
        Ok(parts)
    }
}

// Puts a call into the last group, or into a new one if that is of another peer or kind.
fn put(alloc: Global, groups: &mut Vec<Group>, call: &DueCall) -> Result<(), AllocError>
    ensures { OnOk result ((calls : List DueCall) → IsGrouping calls groups.old.items → IsGrouping (calls ++ call.now ∷ []) groups.new.items) }
{
    let Some(last) = groups.pop() else {
        groups.push(Group::of(alloc, call)?)?;
        return Ok(());
    };
    if call.is_of(&last.peer, last.kind) {
        groups.push(last.with(call.reference.id)?)?;
    } else {
        groups.push(last)?;
        groups.push(Group::of(alloc, call)?)?;
    }
    Ok(())
}

/// The calls in groups.
pub(crate) fn grouped(alloc: Global, calls: &[DueCall]) -> Result<Vec<Group>, AllocError>
    ensures { IfOk result (λ groups. groups.items ≡ grouped calls.now) }
{
    let mut groups = Vec::new(alloc);
    for call in calls {
        put(alloc, &mut groups, call)?;
    }
    Ok(groups)
}
