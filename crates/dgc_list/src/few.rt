//! The clients of an object that has few.

ghost use Rattle.std.specs.Prelude.{◌≡◌, ◌∷◌, ◌++◌, ◌≤◌, ◌↔◌, [], false, IsTrue, IfOk, OnOk, OnErr, length, map, filter, position, is_some};
ghost use Rattle.std.specs.Map.{lookup};
ghost use Rattle.std.specs.Str.{bytes_eq};
ghost use Rattle.dgc_list.specs.Remembered.{blank};
ghost use Rattle.dgc_list.specs.Clients.{remembered_in, is_known, leased, Sets};

use crate::Remembered;
use crate::many::Many;
use std::alloc::{AllocError, Global};
use std::marker::Model;
use table_copies::PeerHashes;
use uuid::Uuid;

/// So many clients stand in a row. With one more a hash map takes less than 250 bytes for each of them.
const MOST: usize = 8;

/// Clients of an object in a row, which takes no more memory than they need. A look-up goes along it, so
/// it is short.
#[derive(Drop)]
pub(crate) struct Few {
    rows: Vec<(Uuid, Remembered)>,
}

impl Model for Few {
    ghost use Rattle.std.specs.Prelude.{List, ℕ};
    ghost use Rattle.dgc_list.specs.declared.remembered.Remembered.{Remembered};

    ghost Value = { List (List ℕ × Remembered) };

    ghost use Rattle.std.specs.List.{IsDistinct};
    ghost use Rattle.std.specs.Map.{keys_of};
    ghost use Rattle.std.specs.Str.{bytes_eq};

    ghost view = { λ few. few.rows.items };

    ghost invariant = { λ few. IsDistinct bytes_eq (keys_of few.rows.items) };
}

impl Few {
    pub(crate) fn new(alloc: Global) -> Few
        ensures { result ≡ [] }
    {
        Few {
            rows: Vec::new(alloc),
        }
    }

    // The same clients.
    pub(crate) fn copy(&self) -> Result<Few, AllocError>
        ensures { IfOk result (λ copy. copy ≡ self.now) }
    {
        Ok(Few {
            rows: Vec::from_slice(*self.rows.allocator(), self.rows.as_slice())?,
        })
    }

    // The same clients in a hash map.
    pub(crate) fn to_many(&self, hashes: PeerHashes) -> Result<Many, AllocError>
        ensures { IfOk result (λ many. many ≡ self.now) }
    {
        Many::from_rows(*self.rows.allocator(), hashes, self.rows.as_slice())
    }

    pub(crate) fn is_empty(&self) -> bool
        ensures { IsTrue result → self.now ≡ [] }
    {
        self.rows.is_empty()
    }

    // Whether the row is to get no longer.
    pub(crate) fn is_full(&self) -> bool
        ensures { IsTrue result ↔ (8 ≤ length self.now) }
    {
        self.rows.len() >= MOST
    }

    // What is remembered of the client, if it has room.
    pub(crate) fn find(&self, client: &Uuid) -> Option<Remembered>
        ensures { result ≡ lookup (bytes_eq client.now) self.now }
    {
        match self.index_of(client) {
            Some(index) => Some(self.rows[index].1),
            None => None,
        }
    }

    // Where the client stands.
    fn index_of(&self, client: &Uuid) -> Option<usize>
        ensures { result ≡ position (λ entry. bytes_eq client.now entry.0) self.now }
    {
        self.rows.iter().position(|row| *client == row.0)
    }

    // The clients with an entry, in their order.
    pub(crate) fn leased(&self, alloc: Global) -> Result<Vec<Uuid>, AllocError>
        ensures { IfOk result (λ clients. clients.items
            ≡ map (λ entry. entry.0) (filter (λ entry. is_some entry.1.expires) self.now)) }
    {
        self.rows
            .iter()
            .filter(|row| row.1.expires.is_some())
            .map(|row| row.0)
            .collect(alloc)
    }

    // How many clients have an entry.
    #[tactic(auto, using(crate::proofs::ClientsLemmas::leased_count))]
    pub(crate) fn count(&self) -> usize
        ensures { result ≡ length (leased self.now) }
    {
        self.rows
            .iter()
            .filter(|row| row.1.expires.is_some())
            .count()
    }

    // Adds a client after the others.
    pub(crate) fn push(&mut self, client: &Uuid, remembered: Remembered) -> Result<(), AllocError>
        requires { is_known self.old client.now ≡ false }
        ensures pushed { OnOk result (self.new ≡ self.old ++ (client.now, remembered) ∷ []) }
        ensures same { OnErr result (self.new ≡ self.old) }
    {
        self.rows.reserve_exact(1)?;
        self.rows.push_reserved((*client, remembered));
        Ok(())
    }

    // Takes the client out.
    pub(crate) fn take_out(&mut self, client: &Uuid)
        ensures sets { Sets client.now blank self.old self.new }
        ensures gone { is_known self.new client.now ≡ false }
    {
        if let Some(index) = self.index_of(client) {
            let _ = self.rows.remove(index);
        }
    }

    // Sets what is remembered of a client, whose index stays: no entry is set anew.
    pub(crate) fn put(&mut self, client: &Uuid, remembered: Remembered)
        requires known { IsTrue (is_known self.old client.now) }
        requires kept { IsTrue (is_some remembered.expires)
            → IsTrue (is_some (remembered_in self.old client.now).expires) }
        ensures { Sets client.now remembered self.old self.new }
    {
        match self.index_of(client) {
            Some(index) => self.rows[index].1 = remembered,
            None => unreachable!(),
        }
    }

    // Sets an entry of a client that had none, after all others.
    pub(crate) fn put_last(&mut self, client: &Uuid, remembered: Remembered)
        requires known { IsTrue (is_known self.old client.now) }
        requires none { is_some (remembered_in self.old client.now).expires ≡ false }
        requires set { IsTrue (is_some remembered.expires) }
        ensures { Sets client.now remembered self.old self.new }
    {
        match self.index_of(client) {
            Some(index) => {
                let _ = self.rows.remove(index);
                self.rows.push_reserved((*client, remembered));
            }
            None => unreachable!(),
        }
    }
}
