//! The deadlines of all leases, planned anew.

ghost use Rattle.std.specs.Prelude.{◌≡◌, ℕ, Some, slice_get};
ghost use Rattle.space_ids.specs.declared.ids.ForeignId.{ForeignId};
ghost use Rattle.dgc_index.specs.declared.plans.Term.{Term};
ghost use Rattle.dgc_index.specs.Plans.{IsPlannedTerm};
ghost use Rattle.dgc_client.specs.declared.lease.ClientLease.{ClientLease};
ghost use Rattle.dgc_client.specs.Table.{leases_of};

use crate::leases::Leases;
use crate::{ClientLease, Term};
use dgc_index::Plans;
use space_ids::ForeignId;

// Plans the deadlines of these leases, and no others.
pub(crate) fn plan_anew(plans: &mut Plans, leases: &Leases)
    ensures { (at : ℕ) (r : ForeignId) (l : ClientLease) (term : Term) → slice_get (leases_of leases.now) at ≡ Some (r, l) → l.lease ≡ Some term → IsPlannedTerm plans.new term at }
{
    plans.clear();
    for index in 0..leases.len() {
        let entry = leases.at(index);
        plans.add(index, term_of(entry));
    }
}

// The lease that stands, if a reference has one.
fn term_of(entry: Option<(ForeignId, ClientLease)>) -> Option<Term>
    ensures { (r : ForeignId) (l : ClientLease) → entry ≡ Some (r, l) → result ≡ l.lease }
{
    match entry {
        Some((_, lease)) => lease.lease,
        None => None,
    }
}
