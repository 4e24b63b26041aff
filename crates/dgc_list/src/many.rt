//! The clients of an object that has many.

ghost use Rattle.std.specs.Prelude.{◌≡◌, ◌∷◌, ◌++◌, [], false, IsTrue, IfOk, OnOk, OnErr, length, map, filter, is_some};
ghost use Rattle.std.specs.List.{IsDistinct};
ghost use Rattle.std.specs.Map.{keys_of, lookup};
ghost use Rattle.std.specs.Str.{bytes_eq};
ghost use Rattle.dgc_list.specs.Remembered.{blank};
ghost use Rattle.dgc_list.specs.Clients.{remembered_in, is_known, leased, Sets};

use crate::Remembered;
use lru::LruCache;
use std::alloc::{AllocError, Global};
use std::marker::Model;
use table_copies::{PeerHashes, copy_cache};
use uuid::Uuid;

/// Clients of an object in a hash map. A list through its entries keeps their order, so a client comes and
/// goes at a cost that does not depend on how many there are.
#[derive(Drop)]
pub(crate) struct Many {
    remembered: LruCache<Uuid, Remembered, PeerHashes>,
    hashes: PeerHashes,
}

impl Model for Many {
    ghost use Rattle.std.specs.Prelude.{List, ℕ};
    ghost use Rattle.dgc_list.specs.declared.remembered.Remembered.{Remembered};

    ghost Value = { List (List ℕ × Remembered) };

    ghost use Rattle.std.specs.Prelude.{◌≡◌, ◌-◌, ◌^◌};
    ghost use Rattle.std.specs.List.{IsDistinct};
    ghost use Rattle.std.specs.Map.{keys_of};
    ghost use Rattle.std.specs.Str.{bytes_eq};

    ghost view = { λ many. many.remembered.entries };

    ghost invariant = { λ many. IsDistinct bytes_eq (keys_of many.remembered.entries)
        × (many.remembered.cap ≡ 2 ^ 64 - 1) };
}

impl Many {
    fn new(alloc: Global, hashes: PeerHashes) -> Result<Many, AllocError>
        ensures { IfOk result (λ many. many ≡ []) }
    {
        Ok(Many {
            remembered: LruCache::unbounded_with_hasher(alloc, hashes)?,
            hashes,
        })
    }

    // The clients of a row.
    pub(crate) fn from_rows(
        alloc: Global,
        hashes: PeerHashes,
        rows: &[(Uuid, Remembered)],
    ) -> Result<Many, AllocError>
        requires { IsDistinct bytes_eq (keys_of rows.now) }
        ensures { IfOk result (λ many. many ≡ rows.now) }
    {
        let mut many = Many::new(alloc, hashes)?;
        for row in rows {
            many.push(&row.0, row.1)?;
        }
        Ok(many)
    }

    // The same clients.
    pub(crate) fn copy(&self) -> Result<Many, AllocError>
        ensures { IfOk result (λ copy. copy ≡ self.now) }
    {
        Ok(Many {
            remembered: copy_cache(&self.remembered, self.hashes)?,
            hashes: self.hashes,
        })
    }

    pub(crate) fn is_empty(&self) -> bool
        ensures { IsTrue result → self.now ≡ [] }
    {
        self.remembered.is_empty()
    }

    // What is remembered of the client, if it has room.
    pub(crate) fn find(&self, client: &Uuid) -> Option<Remembered>
        ensures { result ≡ lookup (bytes_eq client.now) self.now }
    {
        self.remembered.peek(client).copied()
    }

    // The clients with an entry, in their order.
    pub(crate) fn leased(&self, alloc: Global) -> Result<Vec<Uuid>, AllocError>
        ensures { IfOk result (λ clients. clients.items
            ≡ map (λ entry. entry.0) (filter (λ entry. is_some entry.1.expires) self.now)) }
    {
        self.remembered
            .iter()
            .filter(|entry| entry.1.expires.is_some())
            .map(|entry| *entry.0)
            .collect(alloc)
    }

    // How many clients have an entry.
    #[tactic(auto, using(crate::proofs::ClientsLemmas::leased_count))]
    pub(crate) fn count(&self) -> usize
        ensures { result ≡ length (leased self.now) }
    {
        self.remembered
            .iter()
            .filter(|entry| entry.1.expires.is_some())
            .count()
    }

    // Adds a client after the others.
    pub(crate) fn push(&mut self, client: &Uuid, remembered: Remembered) -> Result<(), AllocError>
        requires { is_known self.old client.now ≡ false }
        ensures pushed { OnOk result (self.new ≡ self.old ++ (client.now, remembered) ∷ []) }
        ensures same { OnErr result (self.new ≡ self.old) }
    {
        let count = self.remembered.len();
        prove!(count < usize::MAX);
        self.remembered.put(*client, remembered)?;
        let _ = self.remembered.demote(client);
        Ok(())
    }

    // Takes the client out.
    pub(crate) fn take_out(&mut self, client: &Uuid)
        ensures sets { Sets client.now blank self.old self.new }
        ensures gone { is_known self.new client.now ≡ false }
    {
        let _ = self.remembered.pop(client);
    }

    // Sets what is remembered of a client, whose index stays: no entry is set anew.
    pub(crate) fn put(&mut self, client: &Uuid, remembered: Remembered)
        requires known { IsTrue (is_known self.old client.now) }
        requires kept { IsTrue (is_some remembered.expires)
            → IsTrue (is_some (remembered_in self.old client.now).expires) }
        ensures { Sets client.now remembered self.old self.new }
    {
        match self.remembered.peek_mut(client) {
            Some(before) => *before = remembered,
            None => unreachable!(),
        }
    }

    // Sets an entry of a client that had none, after all others.
    pub(crate) fn put_last(&mut self, client: &Uuid, remembered: Remembered)
        requires known { IsTrue (is_known self.old client.now) }
        requires none { is_some (remembered_in self.old client.now).expires ≡ false }
        requires set { IsTrue (is_some remembered.expires) }
        ensures { Sets client.now remembered self.old self.new }
    {
        let Ok(_) = self.remembered.put(*client, remembered) else {
            unreachable!();
        };
        let _ = self.remembered.demote(client);
    }
}
