//! The leases that an owner granted, as the frames between spaces say: which stand, and until when.

use indexmap::IndexMap;
use std::alloc::{AllocError, Global};
use std::collections::BTreeSet;

// The longest lease, in milliseconds.
const LONGEST: u64 = 600_000;

// A client's entry for an object.
#[derive(Clone, Copy, PartialEq, Eq, Hash)]
pub(crate) struct LeaseKey {
    pub client: usize,
    pub object: u64,
}

// What is remembered of a key: the number of the last call, if one is remembered, whether for good, and the lease that stands.
#[derive(Clone, Copy)]
struct Remembered {
    number: Option<u64>,
    for_good: bool,
    lease: Option<Standing>,
}

// A lease that stands: its bar, and the moment of the owner at which it lapses.
#[derive(Clone, Copy)]
struct Standing {
    bar: usize,
    until: u64,
}

// When a lease lapses.
#[derive(Clone, Copy, PartialEq, Eq, PartialOrd, Ord)]
struct Lapse {
    until: u64,
    client: usize,
    object: u64,
}

// The leases of an owner that stand, and what is remembered of calls (Java RMI specification, DGC): a call whose number is not above the one that is
// remembered is late, and changes nothing.
#[derive(Drop)]
pub(crate) struct Leases {
    rows: IndexMap<LeaseKey, Remembered>,
    lapses: BTreeSet<Lapse>,
}

impl Leases {
    pub fn new(alloc: Global) -> Leases {
        Leases {
            rows: IndexMap::new(alloc),
            lapses: BTreeSet::new(alloc),
        }
    }

    // A dirty call of this number comes at a moment. Returns whether it grants a lease that did not stand: its bar is then this one.
    pub fn grant(
        &mut self,
        key: LeaseKey,
        number: u64,
        moment: u64,
        period: u64,
        bar: usize,
    ) -> Result<bool, AllocError> {
        let old = self.remembered(key);
        if is_late(&old, number) {
            return Ok(false);
        }
        let until = moment.saturating_add(period.min(LONGEST));
        let standing = Standing {
            bar: match old.lease {
                Some(lease) => lease.bar,
                None => bar,
            },
            until,
        };
        self.drop_lapse(key, &old);
        self.lapses.insert(lapse_of(key, until))?;
        self.rows.insert(
            key,
            Remembered {
                number: Some(number),
                for_good: old.for_good,
                lease: Some(standing),
            },
        )?;
        Ok(old.lease.is_none())
    }

    // A clean call of this number comes. Returns the bar of the lease that it ends.
    pub fn clean(
        &mut self,
        key: LeaseKey,
        number: u64,
        strong: bool,
    ) -> Result<Option<usize>, AllocError> {
        let old = self.remembered(key);
        if is_late(&old, number) {
            return Ok(None);
        }
        self.drop_lapse(key, &old);
        let for_good = strong || old.for_good;
        let remembered = Remembered {
            number: if strong {
                Some(number)
            } else if old.for_good {
                old.number
            } else {
                None
            },
            for_good,
            lease: None,
        };
        self.rows.insert(key, remembered)?;
        Ok(old.lease.map(|lease| lease.bar))
    }

    // The bar of a lease that has lapsed at a moment, if there is one. It stands no more.
    pub fn pop_lapsed(&mut self, moment: u64) -> Option<usize> {
        let first = match self.lapses.first() {
            Some(first) if first.until <= moment => *first,
            _ => return None,
        };
        let _ = self.lapses.remove(&first);
        let key = LeaseKey {
            client: first.client,
            object: first.object,
        };
        let row = self.rows.get_mut(&key)?;
        let lease = row.lease.take();
        if !row.for_good {
            row.number = None;
        }
        lease.map(|lease| lease.bar)
    }

    fn remembered(&self, key: LeaseKey) -> Remembered {
        match self.rows.get(&key) {
            Some(remembered) => *remembered,
            None => Remembered {
                number: None,
                for_good: false,
                lease: None,
            },
        }
    }

    fn drop_lapse(&mut self, key: LeaseKey, old: &Remembered) {
        if let Some(lease) = old.lease {
            let _ = self.lapses.remove(&lapse_of(key, lease.until));
        }
    }
}

fn lapse_of(key: LeaseKey, until: u64) -> Lapse {
    Lapse {
        until,
        client: key.client,
        object: key.object,
    }
}

fn is_late(remembered: &Remembered, number: u64) -> bool {
    match remembered.number {
        Some(last) => number <= last,
        None => false,
    }
}
