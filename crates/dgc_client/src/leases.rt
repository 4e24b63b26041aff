//! The leases of all references that were ever held.

ghost use Rattle.std.specs.Prelude.{ℕ, ◌≡◌, ◌≤◌, ◌<◌, ◌+◌, ◌-◌, ◌^◌, [], OnOk, OnErr, IfOk, IfSome, IfNone, None, Some, false, map, max, slice_get, length, is_some, if◌then◌else◌};
ghost use Rattle.std.specs.List.{IsDistinct, position_or_len};
ghost use Rattle.std.specs.Map.{keys_of, lookup};
ghost use Rattle.indexmap.specs.IndexMap.{spare, set_value_at, insert_entry};
ghost use Rattle.space_ids.specs.declared.ids.ForeignId.{ForeignId};
ghost use Rattle.dgc_client.specs.declared.lease.ClientLease.{ClientLease};
ghost use Rattle.dgc_client.specs.Lease.{after_moment};
ghost use Rattle.dgc_client.specs.Kept.{is_same, lease_now, kept_anew, AreTimely, AreTimely-prop};

use crate::{ClientLease, Term};
use indexmap::IndexMap;
use space_ids::ForeignId;
use std::alloc::{AllocError, Global};
use table_copies::PeerHashes;

/// A lease as it was at the last event of its reference, and how many moments had come by then.
#[derive(Clone, Copy)]
pub(crate) struct Kept {
    pub(crate) lease: ClientLease,
    pub(crate) moments: u64,
}

/// The leases of the references, in the order in which these were first held. A moment is counted
/// into a lease when the lease is looked at, not when the moment comes.
#[derive(Drop)]
pub(crate) struct Leases {
    references: IndexMap<ForeignId, Kept, PeerHashes>,
    moment: u64,
    moments: u64,
    ghost timely: { AreTimely moment moments references.entries } by { AreTimely-prop moment moments references.entries },
}

impl Kept {
    // The lease after `moments` moments, the last of which is `moment`.
    fn lease_now(&self, moment: u64, moments: u64) -> ClientLease
        ensures { result ≡ lease_now moment moments self.now }
    {
        let mut lease = self.lease;
        if self.moments < moments {
            lease.moment(moment);
        }
        lease
    }
}

impl Leases {
    ghost use Rattle.dgc_client.specs.Table.{leases_of, lease_in};

    // No reference was held, at moment 0.
    pub(crate) fn new(alloc: Global, hashes: PeerHashes) -> Leases
        ensures leases { leases_of result ≡ [] }
        ensures moment { result.moment ≡ 0 }
    {
        Leases {
            references: IndexMap::with_hasher(alloc, hashes),
            moment: 0,
            moments: 0,
        }
    }

    // The same leases, with no room for more.
    pub(crate) fn copy(&self) -> Result<Leases, AllocError>
        ensures entries { IfOk result (λ copy. copy.references.entries ≡ self.now.references.entries) }
        ensures moment { IfOk result (λ copy. copy.moment ≡ self.now.moment) }
        ensures moments { IfOk result (λ copy. copy.moments ≡ self.now.moments) }
    {
        Ok(Leases {
            references: self.references.clone()?,
            moment: self.moment,
            moments: self.moments,
        })
    }

    // How many references were ever held.
    pub(crate) fn len(&self) -> usize
        ensures len { result ≡ length (leases_of self.now) }
        ensures unique { IsDistinct is_same (keys_of (leases_of self.now)) }
    {
        self.references.len()
    }

    // The last moment, at which each lease is.
    pub(crate) fn last_moment(&self) -> u64
        ensures moment { result ≡ self.now.moment }
        ensures each { (index : ℕ) (r : ForeignId) (l : ClientLease) → slice_get (leases_of self.now) index ≡ Some (r, l) → l.moment ≡ self.now.moment }
        ensures early { (moment : ℕ) → moment < self.now.moment → leases_of self.now ≡ map (λ entry. (entry.0, after_moment moment entry.1)) (leases_of self.now) }
    {
        self.moment
    }

    // The lease of a reference.
    pub(crate) fn get(&self, reference: &ForeignId) -> ClientLease
        ensures lease { result ≡ lease_in self.now reference.now }
        ensures moment { result.moment ≡ self.now.moment }
    {
        match self.references.get(reference) {
            Some(kept) => kept.lease_now(self.moment, self.moments),
            None => ClientLease::new(self.moment),
        }
    }

    // The term of the lease that a reference had when something last happened to it.
    pub(crate) fn last_term(&self, reference: &ForeignId) -> Option<Term> {
        self.references.get(reference)?.lease.lease
    }

    // The reference at an index, with its lease.
    pub(crate) fn at(&self, index: usize) -> Option<(ForeignId, ClientLease)>
        ensures { result ≡ slice_get (leases_of self.now) index }
    {
        let (reference, kept) = self.references.get_index(index)?;
        Some((*reference, kept.lease_now(self.moment, self.moments)))
    }

    // Makes room for this many references that were never held before.
    pub(crate) fn reserve(&mut self, references: usize) -> Result<(), AllocError>
        ensures ok { OnOk result (references ≤ spare self.new.references) }
        ensures leases { leases_of self.new ≡ leases_of self.old }
        ensures moment { self.new.moment ≡ self.old.moment }
        ensures kept { spare self.old.references ≤ spare self.new.references }
    {
        self.references.reserve(references)
    }

    // Sets the lease of a reference, after the others if it was never held. Returns its index.
    pub(crate) fn insert(
        &mut self,
        reference: &ForeignId,
        lease: ClientLease,
    ) -> Result<usize, AllocError>
        requires { lease.moment ≡ self.old.moment }
        ensures leases { OnOk result (leases_of self.new ≡ insert_entry is_same (leases_of self.old) reference.now lease) }
        ensures each { OnOk result ((q : ForeignId) → lookup (is_same q) (leases_of self.new) ≡ (if is_same reference.now q then Some lease else lookup (is_same q) (leases_of self.old))) }
        ensures index { IfOk result (λ index. index ≡ position_or_len (is_same reference.now) (keys_of (leases_of self.old))) }
        ensures moment { self.new.moment ≡ self.old.moment }
        ensures err { OnErr result (leases_of self.new ≡ leases_of self.old) }
        ensures absent { OnErr result (lookup (is_same reference.now) (leases_of self.old) ≡ None) }
        ensures no_room { OnErr result (spare self.old.references ≡ 0) }
        ensures room { spare self.old.references ≤ spare self.new.references + 1 }
    {
        let kept = Kept {
            lease,
            moments: self.moments,
        };
        let (index, _) = self.references.insert_full(*reference, kept)?;
        Ok(index)
    }

    // Sets the lease of a reference if it was ever held. Returns its index, or `None`.
    pub(crate) fn put(&mut self, reference: &ForeignId, lease: ClientLease) -> Option<usize>
        requires { lease.moment ≡ self.old.moment }
        ensures leases { IfSome result (λ index. leases_of self.new ≡ set_value_at (leases_of self.old) index lease) }
        ensures each { IfSome result (λ index. (q : ForeignId) → lookup (is_same q) (leases_of self.new) ≡ (if is_same reference.now q then Some lease else lookup (is_same q) (leases_of self.old))) }
        ensures index { IfSome result (λ index. index ≡ position_or_len (is_same reference.now) (keys_of (leases_of self.old))) }
        ensures known { is_some result ≡ is_some (lookup (is_same reference.now) (leases_of self.old)) }
        ensures moment { self.new.moment ≡ self.old.moment }
        ensures unchanged { IfNone result (self.new ≡ self.old) }
        ensures room { spare self.new.references ≡ spare self.old.references }
    {
        let index = self.references.get_index_of(reference)?;
        self.references[index] = Kept {
            lease,
            moments: self.moments,
        };
        Some(index)
    }

    // The moment comes for each reference. A moment below the last changes nothing.
    pub(crate) fn pass(&mut self, moment: u64)
        ensures leases { leases_of self.new ≡ map (λ entry. (entry.0, after_moment moment entry.1)) (leases_of self.old) }
        ensures moment { self.new.moment ≡ max self.old.moment moment }
        ensures room { spare self.new.references ≡ spare self.old.references }
    {
        if moment < self.moment {
            return;
        }
        self.count_anew();
        self.moments += 1;
        self.moment = moment;
    }

    // Counts the moments anew if no more can be counted: the last one is counted into each lease.
    fn count_anew(&mut self)
        ensures leases { leases_of self.new ≡ leases_of self.old }
        ensures moment { self.new.moment ≡ self.old.moment }
        ensures below { self.new.moments < 2 ^ 64 - 1 }
        ensures room { spare self.new.references ≡ spare self.old.references }
    {
        if self.moments == u64::MAX {
            keep_anew(&mut self.references, self.moment, self.moments);
            self.moments = 0;
        }
    }
}

// Keeps each lease as it is after `moments` moments, the last of them `moment`, to count from 0.
fn keep_anew(references: &mut IndexMap<ForeignId, Kept, PeerHashes>, moment: u64, moments: u64)
    ensures each { references.new.entries ≡ map (λ entry. (entry.0, kept_anew moment moments entry.1)) references.old.entries }
    ensures room { spare references.new ≡ spare references.old }
{
    for index in 0..references.len() {
        let lease = references[index].lease_now(moment, moments);
        references[index] = Kept { lease, moments: 0 };
    }
}
