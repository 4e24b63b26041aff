//! The living tasks of a space.

ghost use Rattle.std.specs.Prelude.{◌≡◌, ℕ, ◌+◌, ◌^◌, ◌<◌, ◌≤◌, ◌++◌, ◌||◌, not, max, [], ◌∷◌, true, false, None, Some, IfNone, IfOk, IfSome, OnOk, OnErr, length, map, nat_eq, option_copied, option_map};
ghost use Rattle.std.specs.List.{IsDistinct, list_any};
ghost use Rattle.std.specs.Map.{keys_of};
ghost use Rattle.space_ids.specs.declared.ids.ObjId.{ObjId};
ghost use Rattle.sp_rules.specs.References.{is_id_in, is_reference_in, own_ids, references_in};
ghost use Rattle.sp_rules.specs.Refusals.{result_of};
ghost use Rattle.sp_rules.specs.State.{OfRoot};
ghost use Rattle.sp_tasks.specs.Behaviours.{op_of, origin_of, outcome_of, reply_of};
ghost use Rattle.sp_tasks.specs.Lent.{KeepsLent, LendsNoMore, LendsToo};
ghost use Rattle.sp_tasks.specs.Rows.{TaskRow, answered_row, at_row, back_row, first_ready, hand_of, has_room, is_in_hand, is_parked, lent_row, parked_row, replied_hand, replied_row, roomy_hand, roomy_row, row_holds, row_holds_op, row_of, started_row, with_started, without};
ghost use Rattle.sp_tasks.specs.Tables.{ready_number, some_id_of};

use crate::holding::is_held;
use crate::living::LivingTask;
use crate::{LentTask, NewTask, Op, Origin, Outcome, Reply};
use indexmap::IndexMap;
use least_tree::{LeastTree, NOTHING};
use sp_store::IdSet;
use space_ids::{Ref, Uuid, Value};
use std::alloc::{AllocError, Global};
use std::marker::Model;
use table_copies::{NumberHashes, copy_map};

/// The living tasks of a space, by id. Ids begin at 1, rise, and never come again. A task starts, is lent,
/// waits and ends at a cost that grows with the logarithm of how many live; the lowest that may go on is
/// at hand.
///
/// A contract sees how many started, how many more can start without taking memory, and the list of the
/// ids and rows of those that live, in the order in which they started.
#[derive(Drop)]
pub struct Tasks {
    made: u64,
    // For how many more tasks there is room in both of the following.
    room: usize,
    rows: IndexMap<u64, LivingTask, NumberHashes>,
    // At the index of each row its id, if the task may go on.
    ready: LeastTree,
}

impl Model for Tasks {
    ghost use Rattle.indexmap.specs.IndexMap.{spare};
    ghost use Rattle.sp_tasks.specs.Rows.{TaskTable, by_id};
    ghost use Rattle.sp_tasks.specs.Tables.{IsTable};

    ghost Value = { TaskTable };

    ghost view = { λ tasks. record { made = tasks.made; room = tasks.room; rows = by_id tasks.rows.entries } };

    ghost invariant = { λ tasks. IsTable tasks.made tasks.room (spare tasks.rows) tasks.rows.entries tasks.ready };
}

impl Tasks {
    /// No task lives.
    pub fn new(alloc: Global) -> Tasks
        ensures { result ≡ record { made = 0; room = 0; rows = [] } }
    {
        Tasks {
            made: 0,
            room: 0,
            rows: IndexMap::with_hasher(alloc, NumberHashes::new()),
            ready: LeastTree::new(alloc),
        }
    }

    /// The same tasks. What is lent is lent in the copy too, and there is no room for more tasks. It costs
    /// a step for each entry of each record.
    pub fn copy(&self) -> Result<Tasks, AllocError>
        ensures copied { IfOk result (λ copy. copy ≡ record self.now { room = 0 }) }
    {
        Ok(Tasks {
            made: self.made,
            room: 0,
            rows: copy_map(&self.rows)?,
            ready: self.ready.copy(*self.rows.allocator())?,
        })
    }

    /// How many live.
    pub fn len(&self) -> usize
        ensures { result ≡ length self.now.rows }
    {
        self.rows.len()
    }

    /// How many started: the last id that was given, 0 before the first.
    pub fn made(&self) -> u64
        ensures { result ≡ self.now.made }
    {
        self.made
    }

    /// Makes room for this many more tasks, those included for which there is room. At out of memory
    /// nothing happens.
    pub fn reserve(&mut self, tasks: usize) -> Result<(), AllocError>
        ensures ok { OnOk result (self.new ≡ record self.old { room = max self.old.room tasks }) }
        ensures lent { OnOk result (KeepsLent self.old self.new) }
        ensures err { OnErr result (self.new ≡ self.old) }
    {
        self.rows.reserve(tasks)?;
        self.ready.reserve(tasks)?;
        self.room = self.room.max(tasks);
        Ok(())
    }

    /// Starts a task under the next id, which it returns. The task stands after all others, and is not
    /// lent. It takes no memory: the caller owes [room](Tasks::reserve) for one.
    pub fn start_reserved(&mut self, new: NewTask) -> u64
        requires last { self.old.made < 2 ^ 63 }
        requires room { 0 < self.old.room }
        ensures id { result ≡ self.old.made + 1 }
        ensures started { self.new ≡ with_started new self.old }
        ensures lent { KeepsLent self.old self.new }
    {
        let id = self.made + 1;
        let Ok(_) = self.rows.insert(id, new.into_row()) else {
            unreachable!();
        };
        self.ready.push_reserved(id);
        self.made = id;
        self.room -= 1;
        id
    }

    /// Starts a root's task at a method, under the next id. It stands after all others, is not lent, and
    /// holds the references among its arguments. For as many others as before there is room. At out of
    /// memory nothing happens.
    pub fn start(
        &mut self,
        alloc: Global,
        method: u32,
        arguments: &[Value],
        fuel: u64,
    ) -> Result<u64, AllocError>
        requires { self.old.made < 2 ^ 63 }
        ensures id { IfOk result (λ id. id ≡ self.old.made + 1) }
        ensures made { OnOk result (self.new.made ≡ self.old.made + 1) }
        ensures rows { OnOk result (self.new.rows ≡ self.old.rows ++ (self.old.made + 1, started_row OfRoot method arguments.now fuel) ∷ []) }
        ensures room { OnOk result (self.new.room ≡ self.old.room) }
        ensures lent { OnOk result (KeepsLent self.old self.new) }
        ensures err { OnErr result (self.new ≡ self.old) }
    {
        let new = NewTask::new(alloc, Origin::Root, method, arguments, fuel)?;
        let Some(room) = self.room.checked_add(1) else {
            return Err(AllocError);
        };
        self.reserve(room)?;
        Ok(self.start_reserved(new))
    }

    /// Takes the next id for a lookup, which is no task.
    pub fn take_id(&mut self) -> u64
        requires { self.old.made < 2 ^ 63 }
        ensures id { result ≡ self.old.made + 1 }
        ensures taken { self.new ≡ record self.old { made = self.old.made + 1 } }
        ensures lent { KeepsLent self.old self.new }
    {
        self.made += 1;
        self.made
    }

    /// How a task that lives began.
    pub fn origin(&self, id: u64) -> Option<Origin>
        ensures { option_map origin_of result ≡ option_map (λ row. row.origin) (row_of id self.now.rows) }
    {
        match self.row(id) {
            Some(row) => Some(row.origin()),
            None => None,
        }
    }

    /// The references that a task holds that lives.
    pub fn held(&self, id: u64) -> Option<&[Ref]>
        ensures { option_copied result ≡ option_map (λ row. row.held) (row_of id self.now.rows) }
    {
        match self.row(id) {
            Some(row) => Some(row.held()),
            None => None,
        }
    }

    /// Whether a task lives that waits for the reply to a call.
    pub fn waits(&self, id: u64) -> bool
        ensures { result ≡ is_parked (row_of id self.now.rows) }
    {
        match self.row(id) {
            Some(row) => row.waits(),
            None => false,
        }
    }

    /// Whether a task that lives holds what it asks for.
    pub fn holds_op(&self, own: &Uuid, id: u64, op: &Op) -> bool
        ensures { (row : TaskRow) → row_of id self.now.rows ≡ Some row → result ≡ row_holds_op own.now row (op_of op.now) }
    {
        match self.row(id) {
            Some(row) => row.holds_op(own, op),
            None => false,
        }
    }

    /// Whether a task that lives holds the reference that it returns, if it returns one.
    pub fn holds_result(&self, id: u64, outcome: &Outcome) -> bool
        ensures { (row : TaskRow) → row_of id self.now.rows ≡ Some row → result ≡ row_holds row (references_in (result_of (outcome_of outcome.now))) }
    {
        match self.row(id) {
            Some(row) => row.holds_result(outcome),
            None => false,
        }
    }

    /// Lends a task that lives, is not lent and does not wait. It takes no memory.
    pub fn lend(&mut self, id: u64) -> Option<LentTask>
        ensures task { result ≡ hand_of id (row_of id self.old.rows) }
        ensures rows { self.new ≡ record self.old { rows = at_row id lent_row self.old.rows } }
        ensures lent { IfSome result (λ _. LendsToo id self.old self.new) }
        ensures unlent { IfNone result (KeepsLent self.old self.new) }
    {
        let index = self.rows.get_index_of(&id)?;
        let task = self.rows[index].lend(id);
        self.ready.put(index, NOTHING);
        task
    }

    /// Whether the task in hand is the lent one of its id, and its record what is recorded of that one.
    pub fn is_lent_as(&self, task: &LentTask) -> bool
        ensures lent { result ≡ is_in_hand (row_of task.now.id self.now.rows) task.now }
        ensures made { result ≡ true → task.now.id ≤ self.now.made }
    {
        match self.row(task.id()) {
            Some(row) => row.is_lent_as(task),
            None => false,
        }
    }

    /// Takes a lent task back, which can be lent again. It takes no memory.
    pub fn give_back(&mut self, task: LentTask)
        requires { is_in_hand (row_of task.id self.old.rows) task ≡ true }
        ensures back { self.new ≡ record self.old { rows = at_row task.id (back_row task.made) self.old.rows } }
        ensures lent { LendsNoMore task.id self.old self.new }
    {
        let id = task.id();
        match self.rows.get_index_of(&id) {
            Some(index) => {
                let row = &mut self.rows[index];
                row.give_back(task);
                let number = ready_id(id, row);
                self.ready.put(index, number);
            }
            None => unreachable!(),
        }
    }

    /// Makes room for the reply to the next call of a lent task, so that it can wait. At out of memory
    /// nothing happens.
    pub fn reserve_answer(&mut self, task: &mut LentTask) -> Result<(), AllocError>
        requires { is_in_hand (row_of task.old.id self.old.rows) task.old ≡ true }
        ensures rows { OnOk result (self.new ≡ record self.old { rows = at_row task.old.id roomy_row self.old.rows }) }
        ensures lent { OnOk result (KeepsLent self.old self.new) }
        ensures task { OnOk result (task.new ≡ roomy_hand task.old) }
        ensures err { OnErr result (self.new ≡ self.old) }
        ensures kept { OnErr result (task.new ≡ task.old) }
    {
        match self.rows.get_index_of(&task.id()) {
            Some(index) => self.rows[index].reserve_answer(task),
            None => unreachable!(),
        }
    }

    /// Takes a lent task back that waits for the reply to its call. It takes no memory: the caller owes
    /// [room](Tasks::reserve_answer) for the reply.
    pub fn park(&mut self, task: LentTask)
        requires lent { is_in_hand (row_of task.id self.old.rows) task ≡ true }
        requires row { has_room (row_of task.id self.old.rows) ≡ true }
        requires task { task.room ≡ true }
        ensures parked { self.new ≡ record self.old { rows = at_row task.id (parked_row task.made) self.old.rows } }
        ensures lent { LendsNoMore task.id self.old self.new }
    {
        match self.rows.get_index_of(&task.id()) {
            Some(index) => {
                self.rows[index].park(task);
                self.ready.put(index, NOTHING);
            }
            None => unreachable!(),
        }
    }

    /// Gives a lent task a reply to its operation on the store, of which these are two copies: it is
    /// entered into its record, and the task holds the reference in it. At out of memory nothing happens.
    pub fn reply(
        &mut self,
        task: &mut LentTask,
        reply: Reply,
        copy: Reply,
    ) -> Result<(), AllocError>
        requires lent { is_in_hand (row_of task.old.id self.old.rows) task.old ≡ true }
        requires same { copy ≡ reply }
        ensures rows { OnOk result (self.new ≡ record self.old { rows = at_row task.old.id (replied_row task.old.made (reply_of reply)) self.old.rows }) }
        ensures lent { OnOk result (KeepsLent self.old self.new) }
        ensures task { OnOk result (task.new ≡ replied_hand (reply_of reply) task.old) }
        ensures err { OnErr result (self.new ≡ self.old) }
        ensures kept { OnErr result (task.new ≡ task.old) }
    {
        match self.rows.get_index_of(&task.id()) {
            Some(index) => self.rows[index].reply(task, reply, copy),
            None => unreachable!(),
        }
    }

    /// Gives a task that waits the reply to its call, of which these are two copies: it is entered into
    /// the task's record, the task holds the reference in it, and may go on. It takes no memory.
    pub fn answer_reserved(&mut self, id: u64, reply: Reply, copy: Reply)
        requires waits { is_parked (row_of id self.old.rows) ≡ true }
        requires same { copy ≡ reply }
        ensures answered { self.new ≡ record self.old { rows = at_row id (answered_row (reply_of reply)) self.old.rows } }
        ensures lent { KeepsLent self.old self.new }
    {
        match self.rows.get_index_of(&id) {
            Some(index) => {
                let row = &mut self.rows[index];
                row.answer_reserved(reply, copy);
                let number = ready_id(id, row);
                self.ready.put(index, number);
            }
            None => unreachable!(),
        }
    }

    /// Lets a task go. The order of the others stays.
    pub fn end(&mut self, id: u64)
        ensures ended { self.new ≡ record self.old { rows = without id self.old.rows } }
        ensures lent { LendsNoMore id self.old self.new }
    {
        let _ = self.let_go(id);
    }

    /// The lowest task that is not lent and does not wait.
    pub fn ready(&self) -> Option<u64>
        ensures first { result ≡ first_ready self.now.rows }
        ensures distinct { IsDistinct nat_eq (keys_of self.now.rows) }
    {
        some_id(self.ready.least())
    }

    /// Adds the ids of the space's own objects that the tasks hold.
    pub fn insert_own(&self, own: &Uuid, ids: &mut IdSet) -> Result<(), AllocError>
        ensures { OnOk result ((id : ObjId) → is_id_in ids.new id ≡ (is_id_in ids.old id || list_any (λ row. is_id_in (own_ids own.now row.1.held) id) self.now.rows)) }
    {
        insert_held(&self.rows, own, ids)
    }

    /// Whether a task that lives holds the reference, under its class. It looks at each.
    pub fn has_reference(&self, reference: &Ref) -> bool
        ensures { result ≡ list_any (λ row. is_reference_in row.1.held reference.now) self.now.rows }
    {
        is_held(&self.rows, reference)
    }

    // The row of a task, if it lives.
    fn row(&self, id: u64) -> Option<&LivingTask>
        ensures row { option_copied result ≡ row_of id self.now.rows }
        ensures made { IfSome result (λ _. id ≤ self.now.made) }
    {
        self.rows.get(&id)
    }

    // Lets a task go that lives.
    fn let_go(&mut self, id: u64) -> Option<()>
        ensures { self.new ≡ record self.old { rows = without id self.old.rows } }
    {
        let index = self.rows.get_index_of(&id)?;
        let _ = self.rows.swap_remove_index(index);
        self.ready.swap_remove(index);
        Some(())
    }
}

// Adds the ids of the space's own objects that the tasks of these rows hold.
fn insert_held(
    rows: &IndexMap<u64, LivingTask, NumberHashes>,
    own: &Uuid,
    ids: &mut IdSet,
) -> Result<(), AllocError>
    ensures { OnOk result ((id : ObjId) → is_id_in ids.new id ≡ (is_id_in ids.old id || list_any (λ row. is_id_in (own_ids own.now row.1.held) id) rows.now.entries)) }
{
    for (_, task) in rows.iter() {
        ids.insert_references(own, task.held())?;
    }
    Ok(())
}

// The id that the number is, if it does not stand for none.
fn some_id(number: u64) -> Option<u64>
    ensures { result ≡ some_id_of number }
{
    if number == NOTHING {
        None
    } else {
        Some(number)
    }
}

// The id of a task if it may go on, and otherwise the number that stands for none.
fn ready_id(id: u64, row: &LivingTask) -> u64
    ensures { result ≡ ready_number (id, row.now) }
{
    if row.is_ready() { id } else { NOTHING }
}
