//! The clients that are remembered of one object.

ghost use Rattle.std.specs.Prelude.{◌≡◌, ◌∷◌, ◌++◌, [], false, IsTrue, IfOk, OnOk, OnErr, length, map, filter, is_some, ◌||◌};
ghost use Rattle.std.specs.Map.{lookup};
ghost use Rattle.std.specs.Str.{bytes_eq};
ghost use Rattle.dgc_list.specs.Remembered.{blank, is_blank};
ghost use Rattle.dgc_list.specs.Clients.{remembered_in, is_known, leased, IsSame, Sets};

use crate::Remembered;
use crate::few::Few;
use crate::many::Many;
use std::alloc::{AllocError, Global};
use std::marker::Model;
use table_copies::{CopyIn, PeerHashes};
use uuid::Uuid;

/// The clients that are remembered of one object. Those with an entry are in the order in which the
/// entries were first set. A contract sees the list of the clients with what is remembered of each.
#[derive(Drop)]
pub(crate) struct Clients {
    form: Form,
}

/// Most objects have few clients, and a hash map takes ten times the memory of a row for them.
#[derive(Drop)]
pub(crate) enum Form {
    Few(Few),
    Many(Box<Many>),
}

impl Model for Clients {
    ghost use Rattle.std.specs.Prelude.{List, ℕ};
    ghost use Rattle.dgc_list.specs.declared.remembered.Remembered.{Remembered};

    ghost Value = { List (List ℕ × Remembered) };

    ghost use Rattle.dgc_list.specs.Forms.{clients_in};

    ghost view = { λ clients. clients_in clients.form };
}

impl Clients {
    pub(crate) fn new(alloc: Global) -> Clients
        ensures { result ≡ [] }
    {
        Clients {
            form: Form::Few(Few::new(alloc)),
        }
    }

    // The same clients.
    pub(crate) fn copy(&self, alloc: Global) -> Result<Clients, AllocError>
        ensures { IfOk result (λ copy. copy ≡ self.now) }
    {
        let form = match &self.form {
            Form::Few(few) => Form::Few(few.copy()?),
            Form::Many(many) => Form::Many(Box::new(alloc, many.copy()?)?),
        };
        Ok(Clients { form })
    }

    pub(crate) fn is_empty(&self) -> bool
        ensures { IsTrue result → self.now ≡ [] }
    {
        match &self.form {
            Form::Few(few) => few.is_empty(),
            Form::Many(many) => many.is_empty(),
        }
    }

    // What is remembered of the client.
    pub(crate) fn get(&self, client: &Uuid) -> Remembered
        ensures { result ≡ remembered_in self.now client.now }
    {
        match self.find(client) {
            Some(remembered) => remembered,
            None => Remembered::BLANK,
        }
    }

    // What is remembered of the client, if it has room.
    fn find(&self, client: &Uuid) -> Option<Remembered>
        ensures { result ≡ lookup (bytes_eq client.now) self.now }
    {
        match &self.form {
            Form::Few(few) => few.find(client),
            Form::Many(many) => many.find(client),
        }
    }

    // The clients with an entry, in their order.
    pub(crate) fn leased(&self, alloc: Global) -> Result<Vec<Uuid>, AllocError>
        ensures { IfOk result (λ clients. clients.items
            ≡ map (λ entry. entry.0) (filter (λ entry. is_some entry.1.expires) self.now)) }
    {
        match &self.form {
            Form::Few(few) => few.leased(alloc),
            Form::Many(many) => many.leased(alloc),
        }
    }

    // How many clients have an entry.
    pub(crate) fn count(&self) -> usize
        ensures { result ≡ length (leased self.now) }
    {
        match &self.form {
            Form::Few(few) => few.count(),
            Form::Many(many) => many.count(),
        }
    }

    // Makes room for the client. That nothing is remembered of it stays so.
    pub(crate) fn add(
        &mut self,
        client: &Uuid,
        alloc: Global,
        hashes: PeerHashes,
    ) -> Result<(), AllocError>
        ensures known { OnOk result (IsTrue (is_known self.new client.now)) }
        ensures same { IsSame self.old self.new }
    {
        if self.find(client).is_some() {
            return Ok(());
        }
        self.widen(alloc, hashes)?;
        self.push(client, Remembered::BLANK)?;
        Ok(())
    }

    // Makes a hash map of a row that is to get no longer.
    fn widen(&mut self, alloc: Global, hashes: PeerHashes) -> Result<(), AllocError>
        ensures { self.new ≡ self.old }
    {
        if let Form::Few(few) = &self.form
            && few.is_full()
        {
            let many = Box::new(alloc, few.to_many(hashes)?)?;
            self.form = Form::Many(many);
        }
        Ok(())
    }

    // Adds a client after the others.
    fn push(&mut self, client: &Uuid, remembered: Remembered) -> Result<(), AllocError>
        requires { is_known self.old client.now ≡ false }
        ensures pushed { OnOk result (self.new ≡ self.old ++ (client.now, remembered) ∷ []) }
        ensures same { OnErr result (self.new ≡ self.old) }
    {
        match &mut self.form {
            Form::Few(few) => few.push(client, remembered),
            Form::Many(many) => many.push(client, remembered),
        }
    }

    // Sets what is remembered of a client if it has room, or if that is nothing; else nothing
    // changes. A new entry goes after the others, and a client of which nothing is remembered goes.
    pub(crate) fn set(&mut self, client: &Uuid, remembered: Remembered)
        ensures sets { IsTrue (is_known self.old client.now || is_blank remembered)
            → Sets client.now remembered self.old self.new }
        ensures gone { IsTrue (is_blank remembered) → is_known self.new client.now ≡ false }
    {
        if remembered.is_blank() {
            self.take_out(client);
        } else if let Some(before) = self.find(client) {
            self.put_anywhere(client, before, remembered);
        }
    }

    // Sets what is remembered of a client that has room: a new entry goes after the others.
    fn put_anywhere(&mut self, client: &Uuid, before: Remembered, remembered: Remembered)
        requires known { IsTrue (is_known self.old client.now) }
        requires before { before ≡ remembered_in self.old client.now }
        ensures { Sets client.now remembered self.old self.new }
    {
        if remembered.expires.is_some() && before.expires.is_none() {
            self.put_last(client, remembered);
        } else {
            self.put(client, remembered);
        }
    }

    // Takes the client out.
    fn take_out(&mut self, client: &Uuid)
        ensures sets { Sets client.now blank self.old self.new }
        ensures gone { is_known self.new client.now ≡ false }
    {
        match &mut self.form {
            Form::Few(few) => few.take_out(client),
            Form::Many(many) => many.take_out(client),
        }
    }

    // Sets what is remembered of a client, whose index stays: no entry is set anew.
    fn put(&mut self, client: &Uuid, remembered: Remembered)
        requires known { IsTrue (is_known self.old client.now) }
        requires kept { IsTrue (is_some remembered.expires)
            → IsTrue (is_some (remembered_in self.old client.now).expires) }
        ensures { Sets client.now remembered self.old self.new }
    {
        match &mut self.form {
            Form::Few(few) => few.put(client, remembered),
            Form::Many(many) => many.put(client, remembered),
        }
    }

    // Sets an entry of a client that had none, after all others.
    fn put_last(&mut self, client: &Uuid, remembered: Remembered)
        requires known { IsTrue (is_known self.old client.now) }
        requires none { is_some (remembered_in self.old client.now).expires ≡ false }
        requires set { IsTrue (is_some remembered.expires) }
        ensures { Sets client.now remembered self.old self.new }
    {
        match &mut self.form {
            Form::Few(few) => few.put_last(client, remembered),
            Form::Many(many) => many.put_last(client, remembered),
        }
    }
}

impl CopyIn for Clients {
    ghost use Rattle.std.specs.Prelude.{◌≡◌};

    ghost is_copy = { λ clients copy. copy ≡ clients };

    fn copy_in(&self, alloc: Global) -> Result<Clients, AllocError> {
        self.copy(alloc)
    }
}
