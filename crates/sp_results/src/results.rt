//! Results of roots and lookups, which wait to be acknowledged.

ghost use Rattle.std.specs.Prelude.{◌≡◌, ◌++◌, ◌||◌, [], ◌∷◌, false, filter, IfOk, OnOk, OnErr, option_copied};
ghost use Rattle.std.specs.List.{list_any};
ghost use Rattle.space_ids.specs.declared.ids.ObjId.{ObjId};
ghost use Rattle.sp_rules.specs.References.{is_id_in, is_reference_in, own_ids, references_in};
ghost use Rattle.sp_results.specs.Waiting.{is_waiting, of_task, row_of, without};

use lru::LruCache;
use sp_store::IdSet;
use space_ids::{Ref, Uuid, Value};
use std::alloc::{AllocError, Global};
use std::marker::Model;
use table_copies::{NumberHashes, copy_cache};

/// The results that wait to be acknowledged, by the tasks whose they are. A list through the entries of
/// a hash map keeps their order, so a result comes and goes at a cost that does not depend on how many
/// wait.
///
/// A contract sees the list of the tasks with their results, in the order in which these came.
#[derive(Drop)]
pub struct Results {
    results: LruCache<u64, Option<Value>, NumberHashes>,
}

impl Model for Results {
    ghost use Rattle.std.specs.Prelude.{◌≡◌, ◌-◌, ◌^◌, ℕ, List, Option, nat_eq};
    ghost use Rattle.std.specs.List.{IsDistinct};
    ghost use Rattle.std.specs.Map.{keys_of};
    ghost use Rattle.space_ids.specs.declared.value.Value.{Value as Carried};

    ghost Value = { List (ℕ × Option Carried) };

    ghost view = { λ waiting. waiting.results.entries };

    ghost invariant = { λ waiting. IsDistinct nat_eq (keys_of waiting.results.entries) × (waiting.results.cap ≡ 2 ^ 64 - 1) };
}

impl Results {
    /// No result waits. Memory is for the list of those that will.
    pub fn new(alloc: Global) -> Result<Results, AllocError>
        ensures { IfOk result (λ waiting. waiting ≡ []) }
    {
        Ok(Results {
            results: LruCache::unbounded_with_hasher(alloc, NumberHashes::new())?,
        })
    }

    /// The same results, in their order. It costs a step a result.
    pub fn copy(&self) -> Result<Results, AllocError>
        ensures copied { IfOk result (λ copy. copy ≡ self.now) }
    {
        Ok(Results {
            results: copy_cache(&self.results, NumberHashes::new())?,
        })
    }

    /// Whether a result of the task waits.
    pub fn contains(&self, task: u64) -> bool
        ensures { result ≡ is_waiting self.now task }
    {
        self.results.contains(&task)
    }

    /// The result of the task, if one waits.
    pub fn get(&self, task: u64) -> Option<&Option<Value>>
        ensures { of_task task self.now ≡ row_of task (option_copied result) }
    {
        self.results.peek(&task)
    }

    /// Whether a result is the reference, under its class. It looks at each.
    pub fn has_reference(&self, reference: &Ref) -> bool
        ensures { result ≡ list_any (λ row. is_reference_in (references_in row.1) reference.now) self.now }
    {
        for (_, value) in self.results.iter() {
            if is_result(value, reference) {
                return true;
            }
        }
        false
    }

    /// Holds the result of a task of which none waits, after all others. At out of memory nothing
    /// happens.
    pub fn hold(&mut self, task: u64, value: Option<Value>) -> Result<(), AllocError>
        requires { is_waiting self.old task ≡ false }
        ensures ok { OnOk result (self.new ≡ self.old ++ (task, value) ∷ []) }
        ensures err { OnErr result (self.new ≡ self.old) }
    {
        let count = self.results.len();
        prove!(count < usize::MAX);
        self.results.put(task, value)?;
        let _ = self.results.demote(&task);
        Ok(())
    }

    /// Lets the result of the task go, if one waits. The order of the others stays.
    pub fn release(&mut self, task: u64)
        ensures { self.new ≡ without task self.old }
    {
        let _ = self.take(task);
    }

    /// Lets the result of the task go, if one waits, and returns it. The order of the others stays.
    pub fn take(&mut self, task: u64) -> Option<Option<Value>>
        ensures value { of_task task self.old ≡ row_of task result }
        ensures left { self.new ≡ without task self.old }
    {
        self.results.pop(&task)
    }

    /// Adds the ids of the space's own objects that the results name.
    pub fn insert_own(&self, own: &Uuid, ids: &mut IdSet) -> Result<(), AllocError>
        ensures { OnOk result ((id : ObjId) → is_id_in ids.new id ≡ (is_id_in ids.old id || list_any (λ row. is_id_in (own_ids own.now (references_in row.1)) id) self.now)) }
    {
        for (_, value) in self.results.iter() {
            insert_result(own, value, ids)?;
        }
        Ok(())
    }
}

// Adds the id of the space's own object that the result names, if it names one.
fn insert_result(own: &Uuid, value: &Option<Value>, ids: &mut IdSet) -> Result<(), AllocError>
    ensures { OnOk result ((id : ObjId) → is_id_in ids.new id ≡ (is_id_in ids.old id || is_id_in (own_ids own.now (references_in value.now)) id)) }
{
    match value {
        Some(value) => ids.insert_value(own, value),
        None => Ok(()),
    }
}

// Whether the result is the reference.
fn is_result(value: &Option<Value>, reference: &Ref) -> bool
    ensures { result ≡ is_reference_in (references_in value.now) reference.now }
{
    match value {
        Some(Value::Ref(other)) => {
            reference.space == other.space
                && (reference.id == other.id && reference.class == other.class)
        }
        _ => false,
    }
}
