//! The parts of a space, each by itself.

use super::{clients, leases, lists, names, objects, results};
use dgc_client::{ClientLease, Clients};
use dgc_list::RefList;
use sp_registry::Registry;
use sp_results::Results;
use sp_store::Store;
use std::alloc::{AllocError, Global};
use test_rows::{RowFault, Stage, replace, space_of, words_of};

/// The parts of space 1.
#[derive(Drop)]
pub struct Parts {
    alloc: Global,
    lease: ClientLease,
    clients: Clients,
    list: RefList,
    names: Registry,
    objects: Store,
    results: Results,
}

impl Parts {
    /// Returns parts to which nothing has happened; the moment is 0.
    pub fn new(alloc: Global) -> Result<Parts, AllocError> {
        let names = Registry::new(alloc)?;
        let results = Results::new(alloc)?;
        Ok(Parts {
            alloc,
            lease: ClientLease::new(0),
            clients: Clients::new(alloc),
            list: RefList::new(alloc),
            names,
            objects: Store::new(alloc, space_of(1)),
            results,
        })
    }

    fn begin_again(&mut self) -> Result<(), RowFault> {
        replace(self, Parts::new(self.alloc)?);
        Ok(())
    }

    fn call(&mut self, said: &mut Vec<u8>, part: &str, words: &[&str]) -> Result<(), RowFault> {
        let [call, words @ ..] = words else {
            return Err(RowFault::Bad);
        };
        match part {
            "lease" => leases::play(&mut self.lease, said, call, words),
            "client" => clients::play(&mut self.clients, self.alloc, said, call, words),
            "list" => lists::play(&mut self.list, self.alloc, said, call, words),
            "name" => names::play(&mut self.names, self.alloc, said, call, words),
            "object" => objects::play(&mut self.objects, self.alloc, said, call, words),
            "result" => results::play(&mut self.results, self.alloc, said, call, words),
            _ => Err(RowFault::Bad),
        }
    }
}

impl Stage for Parts {
    fn play(&mut self, said: &mut Vec<u8>, part: &str, text: &str) -> Result<(), RowFault> {
        if part == "new" && text.is_empty() {
            return self.begin_again();
        }
        let words = words_of(self.alloc, text)?;
        self.call(said, part, &words)
    }
}
