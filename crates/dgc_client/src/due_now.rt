//! The due calls, found at the references that were touched.

ghost use Rattle.std.specs.Prelude.{◌≡◌, ◌≤◌, ◌<◌, ◌+◌, ◌++◌, ℕ, length, min, vec_len, vec_capacity, option_to_list};
ghost use Rattle.std.specs.List.{filter_map};
ghost use Rattle.dgc_client.specs.Lease.{due};
ghost use Rattle.dgc_client.specs.Table.{leases_of};
ghost use Rattle.dgc_index.specs.Touched.{IsTouched, Rises};
ghost use Rattle.dgc_client.specs.Touched.{due_call, call_of_entry, call_at, IsDueAt, HasAll};

use crate::groups::DueCall;
use crate::leases::Leases;
use crate::{ClientLease, ForeignId};
use dgc_index::Touched;

// The call that is due of a reference.
fn due_call(reference: &ForeignId, lease: &ClientLease) -> Option<DueCall>
    ensures { result ≡ due_call reference.now (due lease.now) }
{
    let kind = lease.due()?;
    Some(DueCall {
        reference: *reference,
        kind,
    })
}

// The call that is due at an index.
fn call_at(leases: &Leases, at: usize) -> Option<DueCall>
    ensures { result ≡ call_at (leases_of leases.now) at }
{
    let (reference, lease) = leases.at(at)?;
    due_call(&reference, &lease)
}

// Adds the call that is due at an index, if one is, and has the index looked at again.
fn add_call(leases: &Leases, at: usize, calls: &mut Vec<DueCall>, again: &mut Touched)
    requires { vec_len calls.old < vec_capacity calls.old }
    ensures calls { calls.new.items ≡ calls.old.items ++ option_to_list (call_at (leases_of leases.now) at) }
    ensures len { vec_len calls.new ≤ vec_len calls.old + 1 }
    ensures capacity { vec_capacity calls.new ≡ vec_capacity calls.old }
    ensures here { IsDueAt (leases_of leases.now) at → IsTouched again.new at }
    ensures kept { (other : ℕ) → IsTouched again.old other → IsTouched again.new other }
{
    match call_at(leases, at) {
        Some(call) => {
            calls.push_reserved(call);
            again.add(at, leases.len());
        }
        None => {}
    }
}

// The calls that are due at these rising indexes: all that are due, if no other index has one.
// There is room for them, and their indexes are looked at again.
pub(crate) fn due_now(
    leases: &Leases,
    candidates: &[usize],
    calls: &mut Vec<DueCall>,
    again: &mut Touched,
)
    requires rising { Rises candidates.now }
    requires room { min (length candidates.now) (length (leases_of leases.now)) ≤ vec_capacity calls.old }
    ensures calls { HasAll (leases_of leases.now) candidates.now → calls.new.items ≡ filter_map call_of_entry (leases_of leases.now) }
    ensures again { HasAll (leases_of leases.now) candidates.now → (at : ℕ) → IsDueAt (leases_of leases.now) at → IsTouched again.new at }
    ensures few { vec_len calls.new ≤ min (length candidates.now) (length (leases_of leases.now)) }
    ensures capacity { vec_capacity calls.new ≡ vec_capacity calls.old }
{
    calls.clear();
    let mut passed = 0;
    for at in candidates {
        if *at < passed || *at >= leases.len() {
            continue;
        }
        add_call(leases, *at, calls, again);
        passed = *at + 1;
    }
}

// All due calls. There is room for them, and their indexes are looked at again.
pub(crate) fn all_due(leases: &Leases, calls: &mut Vec<DueCall>, again: &mut Touched)
    requires { length (leases_of leases.now) ≤ vec_capacity calls.old }
    ensures calls { calls.new.items ≡ filter_map call_of_entry (leases_of leases.now) }
    ensures again { (at : ℕ) → IsDueAt (leases_of leases.now) at → IsTouched again.new at }
    ensures few { vec_len calls.new ≤ length (leases_of leases.now) }
    ensures capacity { vec_capacity calls.new ≡ vec_capacity calls.old }
{
    calls.clear();
    for at in 0..leases.len() {
        add_call(leases, at, calls, again);
    }
}
