//! What a space keeps of one living task.

ghost use Rattle.std.specs.Prelude.{◌≡◌, ◌&&◌, ◌+◌, ◌<◌, ◌≤◌, not, [], true, false, None, Some, IfOk, OnOk, OnErr, vec_len, vec_capacity};
ghost use Rattle.std.specs.List.{list_all, list_any};
ghost use Rattle.std.specs.Str.{bytes_eq};
ghost use Rattle.sp_rules.specs.References.{is_id, is_reference_in, reference_of, references_in, references_of, with_references};
ghost use Rattle.sp_rules.specs.Refusals.{result_of};
ghost use Rattle.sp_tasks.specs.Behaviours.{op_of, origin_of, outcome_of, reply_of};
ghost use Rattle.sp_tasks.specs.Recorded.{IsSpareCopy};
ghost use Rattle.sp_tasks.specs.Rows.{answered_row, back_row, hand_of, is_in_hand, is_ready, lent_row, parked_row, replied_hand, replied_row, roomy_hand, roomy_row, row_holds, row_holds_op, started_row, value_given, with_gained};

use crate::{LentTask, Op, Origin, Outcome, Record, Reply};
use space_ids::{ObjId, Ref, Uuid, Value, is_among};
use std::alloc::{AllocError, Global};
use std::marker::Model;
use table_copies::CopyIn;

/// A living task: how it began, the references that it holds, each once, its record, and its own
/// instructions since the last reply. While it is not lent, a second record waits to be lent with it. A
/// task that waits for the reply to a call has room for it in both records and among its references.
#[derive(Drop)]
pub(crate) struct LivingTask {
    origin: Origin,
    waits: bool,
    held: Vec<Ref>,
    past: Record,
    steps: u64,
    spare: Option<Record>,
    room: bool,
}

impl Model for LivingTask {
    ghost use Rattle.std.specs.Prelude.{◌≡◌, ◌<◌, IfSome, IsSomeAnd, is_some, not, true, vec_len};
    ghost use Rattle.std.specs.Vec.{vec_capacity};
    ghost use Rattle.sp_tasks.specs.Behaviours.{origin_of};
    ghost use Rattle.sp_tasks.specs.Rows.{TaskRow};

    ghost Value = { TaskRow };

    ghost view = { λ task. record { origin = origin_of task.origin; waits = task.waits; held = task.held.items; past = task.past.past; steps = task.steps; lent = not (is_some task.spare); room = task.room } };

    ghost invariant = { λ task. IfSome task.spare (λ spare. spare.past ≡ task.past.past) × (task.room ≡ true → (0 < task.past.room) × (vec_len task.held < vec_capacity task.held)) × (task.waits ≡ true → (task.room ≡ true) × IsSomeAnd task.spare (λ spare. 0 < spare.room)) };
}

impl CopyIn for LivingTask {
    ghost use Rattle.std.specs.Prelude.{◌≡◌};

    ghost is_copy = { λ task copy. copy ≡ task };

    fn copy_in(&self, alloc: Global) -> Result<LivingTask, AllocError> {
        let mut held = self.held.as_slice().to_vec(alloc)?;
        held.reserve(1)?;
        Ok(LivingTask {
            origin: self.origin,
            waits: self.waits,
            held,
            past: self.past.copy(alloc)?,
            steps: self.steps,
            spare: copy_spare(alloc, &self.spare)?,
            room: self.room,
        })
    }
}

impl LivingTask {
    // A task that starts at a method. It is not lent, and holds the references among its arguments, each
    // once, in the order in which they come.
    pub(crate) fn start(
        alloc: Global,
        origin: Origin,
        method: u32,
        arguments: &[Value],
        fuel: u64,
    ) -> Result<LivingTask, AllocError>
        ensures { IfOk result (λ task. task ≡ started_row (origin_of origin) method arguments.now fuel) }
    {
        let held = held_by(alloc, arguments)?;
        let past = Record::start(alloc, method, arguments, fuel)?;
        let spare = Record::start(alloc, method, arguments, fuel)?;
        Ok(LivingTask {
            origin,
            waits: false,
            held,
            past,
            steps: 0,
            spare: Some(spare),
            room: false,
        })
    }

    // How it began.
    pub(crate) fn origin(&self) -> Origin
        ensures { origin_of result ≡ self.now.origin }
    {
        self.origin
    }

    // The references that it holds.
    pub(crate) fn held(&self) -> &[Ref]
        ensures { result.now ≡ self.now.held }
    {
        &self.held
    }

    // Whether it holds what it asks for.
    pub(crate) fn holds_op(&self, own: &Uuid, op: &Op) -> bool
        ensures { result ≡ row_holds_op own.now self.now (op_of op.now) }
    {
        match op {
            Op::Create(_) => true,
            Op::Get { object, slot: _ } => has_object(&self.held, own, *object),
            Op::Put {
                object,
                slot: _,
                value,
            } => has_object(&self.held, own, *object) && has_value(&self.held, value),
            Op::Call {
                target,
                method: _,
                arguments,
            } => is_among(&self.held, target) && has_values(&self.held, arguments.as_slice()),
        }
    }

    // Whether it holds the reference that it returns, if it returns one.
    pub(crate) fn holds_result(&self, outcome: &Outcome) -> bool
        ensures { result ≡ row_holds self.now (references_in (result_of (outcome_of outcome.now))) }
    {
        match outcome {
            Outcome::Returned(Some(value)) => has_value(&self.held, value),
            _ => true,
        }
    }

    // Whether it waits for the reply to a call.
    pub(crate) fn waits(&self) -> bool
        ensures { result ≡ self.now.waits }
    {
        self.waits
    }

    // Whether it may go on: it is not lent, and does not wait.
    pub(crate) fn is_ready(&self) -> bool
        ensures { result ≡ is_ready self.now }
    {
        !(self.waits || self.spare.is_none())
    }

    // Lends the task, under its id, if it may go on.
    pub(crate) fn lend(&mut self, id: u64) -> Option<LentTask>
        ensures task { result ≡ hand_of id (Some self.old) }
        ensures row { self.new ≡ lent_row self.old }
    {
        if self.waits {
            return None;
        }
        match self.spare.take() {
            Some(past) => Some(LentTask::new(id, past, self.steps)),
            None => None,
        }
    }

    // Whether the task in hand is this one, as it was lent or as the last reply left it.
    pub(crate) fn is_lent_as(&self, task: &LentTask) -> bool
        ensures { result ≡ is_in_hand (Some self.now) task.now }
    {
        self.spare.is_none() && (self.steps == task.steps() && self.past.is_same(task.record()))
    }

    // Takes the task back, which can be lent again.
    pub(crate) fn give_back(&mut self, task: LentTask)
        requires { is_in_hand (Some self.old) task ≡ true }
        ensures { self.new ≡ back_row task.made self.old }
    {
        self.steps += task.made();
        self.spare = Some(task.into_record());
    }

    // Takes the task back, which waits for the reply to its call. Both have room for it.
    pub(crate) fn park(&mut self, task: LentTask)
        requires lent { is_in_hand (Some self.old) task ≡ true }
        requires row { self.old.room ≡ true }
        requires task { task.room ≡ true }
        ensures { self.new ≡ parked_row task.made self.old }
    {
        let made = task.made();
        self.spare = Some(task.into_record());
        self.steps += made;
        self.waits = true;
    }

    // Makes room for the reply to the next call of the task in hand. At out of memory nothing happens.
    pub(crate) fn reserve_answer(&mut self, task: &mut LentTask) -> Result<(), AllocError>
        ensures row { OnOk result (self.new ≡ roomy_row self.old) }
        ensures task { OnOk result (task.new ≡ roomy_hand task.old) }
        ensures err { OnErr result (self.new ≡ self.old) }
        ensures kept { OnErr result (task.new ≡ task.old) }
    {
        self.held.reserve(1)?;
        self.past.reserve()?;
        task.reserve()?;
        self.room = true;
        Ok(())
    }

    // Gives the task a reply to its operation on the store, of which these are two copies. It holds the
    // reference in it too. At out of memory nothing happens.
    pub(crate) fn reply(
        &mut self,
        task: &mut LentTask,
        reply: Reply,
        copy: Reply,
    ) -> Result<(), AllocError>
        requires lent { is_in_hand (Some self.old) task.old ≡ true }
        requires same { copy ≡ reply }
        ensures row { OnOk result (self.new ≡ replied_row task.old.made (reply_of reply) self.old) }
        ensures task { OnOk result (task.new ≡ replied_hand (reply_of reply) task.old) }
        ensures err { OnErr result (self.new ≡ self.old) }
        ensures kept { OnErr result (task.new ≡ task.old) }
    {
        let gained = gained(&self.held, &reply);
        self.reserve_answer(task)?;
        self.past
            .enter_reserved(task.steps() + task.made(), false, reply);
        task.enter_reserved(copy);
        hold(&mut self.held, gained);
        self.steps = 0;
        self.room = false;
        Ok(())
    }

    // Gives the task the reply to the call for which it waits, of which these are two copies. It holds
    // the reference in it too, and may go on. It takes no memory.
    pub(crate) fn answer_reserved(&mut self, reply: Reply, copy: Reply)
        requires waits { self.old.waits ≡ true }
        requires same { copy ≡ reply }
        ensures { self.new ≡ answered_row (reply_of reply) self.old }
    {
        let gained = gained(&self.held, &reply);
        let Some(mut spare) = self.spare.take() else {
            unreachable!();
        };
        self.past.enter_reserved(self.steps, true, reply);
        spare.enter_reserved(self.steps, true, copy);
        self.spare = Some(spare);
        hold(&mut self.held, gained);
        self.waits = false;
        self.steps = 0;
        self.room = false;
    }
}

// The same record, if there is one, with room for one more reply.
fn copy_spare(alloc: Global, spare: &Option<Record>) -> Result<Option<Record>, AllocError>
    ensures { IfOk result (IsSpareCopy spare.now) }
{
    match spare {
        Some(record) => Ok(Some(record.copy(alloc)?)),
        None => Ok(None),
    }
}

// The reference in the reply, if there is one and it is not held.
fn gained(held: &[Ref], reply: &Reply) -> Option<Ref>
    ensures { with_references held.now (references_in (value_given (reply_of reply.now))) ≡ with_gained held.now result }
{
    match reply {
        Reply::Gives(Some(Value::Ref(reference)))
        | Reply::GivesBack {
            value: Some(Value::Ref(reference)),
            fuel: _,
        } if !is_among(held, reference) => Some(*reference),
        _ => None,
    }
}

// Adds the reference that is gained, if one is. There is room for it.
fn hold(held: &mut Vec<Ref>, gained: Option<Ref>)
    requires { vec_len held.old < vec_capacity held.old }
    ensures { held.new.items ≡ with_gained held.old.items gained }
{
    match gained {
        Some(reference) => held.push_reserved(reference),
        None => {}
    }
}

// The references among the values, each once, in the order in which they come.
fn held_by(alloc: Global, values: &[Value]) -> Result<Vec<Ref>, AllocError>
    ensures { IfOk result (λ held. held.items ≡ with_references [] (references_of values.now)) }
{
    let mut held = Vec::new(alloc);
    for value in values {
        gain(&mut held, value)?;
    }
    Ok(held)
}

// Adds the reference that the value is, if it is one and is not among these.
fn gain(held: &mut Vec<Ref>, value: &Value) -> Result<(), AllocError>
    ensures { OnOk result (held.new.items ≡ with_references held.old.items (reference_of value.now)) }
{
    match value {
        Value::Ref(reference) if !is_among(held, reference) => {
            held.push(*reference)?;
            Ok(())
        }
        _ => Ok(()),
    }
}

// Whether the reference that the value is, if it is one, is among these.
fn has_value(held: &[Ref], value: &Value) -> bool
    ensures { result ≡ list_all (is_reference_in held.now) (reference_of value.now) }
{
    match value {
        Value::Ref(reference) => is_among(held, reference),
        _ => true,
    }
}

// Whether each reference among the values is among these.
fn has_values(held: &[Ref], values: &[Value]) -> bool
    ensures { result ≡ list_all (λ value. list_all (is_reference_in held.now) (reference_of value)) values.now }
{
    values.iter().all(|value| has_value(held, value))
}

// Whether one of these is of the space's own object of this id.
fn has_object(held: &[Ref], own: &Uuid, id: ObjId) -> bool
    ensures { result ≡ list_any (λ reference. bytes_eq reference.space own.now && is_id id reference.id) held.now }
{
    held.iter()
        .any(|reference| reference.space == *own && id == reference.id)
}
