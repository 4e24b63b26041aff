//! The references of which a question about a moment to come holds.

ghost use Rattle.std.specs.Prelude.{◌≡◌, IfOk};
ghost use Rattle.std.specs.List.{filter_map};
ghost use Rattle.dgc_client.specs.Table.{leases_of};
ghost use Rattle.dgc_index.specs.Touched.{Rises};
ghost use Rattle.dgc_client.specs.Touched.{holds, reference_of, at_index, HasAllOf};

use crate::leases::Leases;
use crate::{ClientLease, ForeignId};
use std::alloc::{AllocError, Global};

/// What is asked of a lease.
#[derive(Clone, Copy)]
pub(crate) enum Question {
    /// Whether it is due for renewal once this moment has come.
    Renewed(u64),
    /// Whether this moment ends it.
    Lapses(u64),
}

// Whether the question holds of a lease.
fn holds(question: Question, lease: &ClientLease) -> bool
    ensures { result ≡ holds question lease.now }
{
    match question {
        Question::Renewed(moment) => lease.is_renewed_at(moment),
        Question::Lapses(moment) => lease.lapses_at(moment),
    }
}

// The reference at an index, if the question holds of its lease.
fn reference_at(leases: &Leases, at: usize, question: Question) -> Option<ForeignId>
    ensures { result ≡ at_index (reference_of question) (leases_of leases.now) at }
{
    let (reference, lease) = leases.at(at)?;
    if holds(question, &lease) {
        Some(reference)
    } else {
        None
    }
}

// The references at these rising indexes of which the question holds.
pub(crate) fn picked(
    alloc: Global,
    leases: &Leases,
    candidates: &[usize],
    question: Question,
) -> Result<Vec<ForeignId>, AllocError>
    requires { Rises candidates.now }
    ensures { IfOk result (λ references. HasAllOf (reference_of question) (leases_of leases.now) candidates.now → references.items ≡ filter_map (reference_of question) (leases_of leases.now)) }
{
    let mut references = Vec::new(alloc);
    let mut passed = 0;
    for at in candidates {
        if *at < passed || *at >= leases.len() {
            continue;
        }
        match reference_at(leases, *at, question) {
            Some(reference) => references.push(reference)?,
            None => {}
        }
        passed = *at + 1;
    }
    Ok(references)
}
