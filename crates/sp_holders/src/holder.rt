//! Who holds a reference.

ghost use Rattle.std.specs.Prelude.{◌≡◌, ℕ, List, true};
ghost use Rattle.std.specs.List.{list_any};
ghost use Rattle.sp_results.specs.Held.{AreCallResults};
ghost use Rattle.sp_living.specs.Livings.{IsLiving};
ghost use Rattle.sp_rules.specs.Classes.{Setting};
ghost use Rattle.sp_rules.specs.Holders.{has_holder};
ghost use Rattle.sp_rules.specs.References.{is_reference_in, references_in};
ghost use Rattle.sp_rules.specs.State.{KeptResult as Kept, State};
ghost use Rattle.sp_state.specs.Spaces.{IsSpace};
ghost use Rattle.sp_holders.specs.Places.{tables_have};

use crate::fields::object_has;
use crate::same::is_result;
use sp_living::Living;
use sp_results::{CallResults, Results};
use sp_state::SpaceState;
use sp_tasks::Tasks;
use space_ids::{ObjId, Ref, is_among};

/// A call that came, by its connection and its number there.
#[derive(Clone, Copy, PartialEq, Eq)]
pub struct CallKey {
    pub conn: u64,
    pub number: u64,
}

// Who may hold a reference.
#[derive(Clone, Copy)]
pub(crate) enum Holder {
    // A field of an object.
    Object(ObjId),
    Task(u64),
    // The result of a root or lookup.
    Result(u64),
    // The result of a call that came.
    Call(CallKey),
}

// Whether this one holds the reference.
pub(crate) fn is_held_by(space: &SpaceState, holder: &Holder, reference: &Ref) -> bool
    ensures { result ≡ true → (g : Setting) (s : State) → IsSpace g s space.now → has_holder g s reference.now ≡ true }
{
    match holder {
        Holder::Object(id) => object_has(space.owner(), *id, reference),
        _ => is_in_table(space.living(), holder, reference),
    }
}

// Whether this one holds the reference, if it is a task or a result.
pub(crate) fn is_in_table(living: &Living, holder: &Holder, reference: &Ref) -> bool
    ensures { result ≡ true → (g : Setting) (s : State) → IsLiving g s living.now → tables_have s reference.now ≡ true }
{
    match holder {
        Holder::Object(_) => false,
        Holder::Task(id) => task_has(living.tasks(), *id, reference),
        Holder::Result(task) => result_has(living.results(), *task, reference),
        Holder::Call(call) => call_has(living.call_results(), call, reference),
    }
}

// Whether the task of this id lives and holds the reference.
pub(crate) fn task_has(tasks: &Tasks, id: u64, reference: &Ref) -> bool
    ensures { result ≡ true → list_any (λ row. is_reference_in row.1.held reference.now) tasks.now.rows ≡ true }
{
    match tasks.held(id) {
        Some(held) => is_among(held, reference),
        None => false,
    }
}

// Whether the result of a root or lookup, if it is held, has the reference.
pub(crate) fn result_has(results: &Results, task: u64, reference: &Ref) -> bool
    ensures { result ≡ true → list_any (λ row. is_reference_in (references_in row.1) reference.now) results.now ≡ true }
{
    match results.get(task) {
        Some(value) => is_result(value, reference),
        None => false,
    }
}

// Whether the result of a call, if it is held, has the reference.
pub(crate) fn call_has(results: &CallResults, call: &CallKey, reference: &Ref) -> bool
    ensures { result ≡ true → (moment : ℕ) (all : List Kept) → AreCallResults moment all results.now → list_any (λ k. is_reference_in (references_in k.value) reference.now) all ≡ true }
{
    match results.get(call.conn, call.number) {
        Some(value) => is_result(value, reference),
        None => false,
    }
}
