//! The search for a holder. What it finds is looked at before it counts, so it promises nothing.

use crate::CallKey;
use crate::fields::is_in_object;
use crate::holder::{Holder, call_has, result_has, task_has};
use crate::tables::is_in_own_tables;
use sp_living::Living;
use sp_owner::Owner;
use sp_results::CallResults;
use sp_state::SpaceState;
use space_ids::Ref;

// One who holds the reference: a task or a result, one of these calls' or of a root or lookup, or an object.
pub(crate) fn find_holder(
    space: &SpaceState,
    calls: &[CallKey],
    reference: &Ref,
) -> Option<Holder> {
    match find_in_tables(space.living(), calls, reference) {
        Some(holder) => Some(holder),
        None => find_object(space.owner(), reference),
    }
}

// A task or a result that has the reference.
fn find_in_tables(living: &Living, calls: &[CallKey], reference: &Ref) -> Option<Holder> {
    match find_task(living, reference) {
        Some(holder) => Some(holder),
        None => find_call(living.call_results(), calls, reference),
    }
}

// An object with a field that has the reference.
fn find_object(owner: &Owner, reference: &Ref) -> Option<Holder> {
    let count = owner.store().len();
    for index in 0..count {
        if is_in_object(owner, index, reference) {
            let (id, _) = owner.object(index)?;
            return Some(Holder::Object(id));
        }
    }
    None
}

// A task that holds the reference, or one whose result it is, the latest first. Ids are looked at only if
// there is one.
fn find_task(living: &Living, reference: &Ref) -> Option<Holder> {
    if !is_in_own_tables(living, reference) {
        return None;
    }
    let made = living.tasks().made();
    for before in 0..made {
        let id = made - before;
        if task_has(living.tasks(), id, reference) {
            return Some(Holder::Task(id));
        }
        if result_has(living.results(), id, reference) {
            return Some(Holder::Result(id));
        }
    }
    None
}

// A call, one of these, whose result is the reference.
fn find_call(results: &CallResults, calls: &[CallKey], reference: &Ref) -> Option<Holder> {
    for call in calls {
        if call_has(results, call, reference) {
            return Some(Holder::Call(*call));
        }
    }
    None
}
