//! What machines and the core tell one another.

ghost use Rattle.std.specs.Prelude.{◌≡◌, ℕ, IfOk, IfErr, option_map};
ghost use Rattle.sp_behaviours.specs.Behaviours as behaviours;
ghost use Rattle.sp_behaviours.specs.Starts.{start_refusal_in};
ghost use Rattle.sp_events.specs.FaultNames.{start_refusal};
ghost use Rattle.sp_tasks.specs.Behaviours.{op_of, outcome_of, reply_of};
ghost use Rattle.uuid.specs.declared.Uuid.{Uuid};
ghost use Rattle.vm_act.specs.declared.machine.Machine.{Machine};
ghost use Rattle.vm_step.specs.Run.{Waits};
ghost use Rattle.sp_machines.specs.Players.{AsksIn};

use sp_events::{CoreFault, StartFault};
use sp_tasks::{Op, Outcome, Reply};
use space_ids::{Row, Value};
use std::alloc::{AllocError, Global};
use table_copies::copy_result;
use vm_code::{Asked, FieldValue};
use vm_step::{MethodId, Program, Task};

/// How a task ended, as the core is told.
pub(crate) fn outcome(ended: vm_step::Outcome) -> Outcome
    ensures { outcome_of result ≡ behaviours.told ended }
{
    match ended {
        vm_step::Outcome::Returned(value) => Outcome::Returned(value),
        vm_step::Outcome::Threw(class) => Outcome::Threw(class),
        vm_step::Outcome::Spent => Outcome::Spent,
    }
}

/// What the machine of a task asks for, as the core is told: a call with the arguments that cross.
pub(crate) fn op(
    alloc: Global,
    program: &Program,
    task: &Task,
    asked: &Asked,
) -> Result<Op, AllocError>
    requires program { task.now.program ≡ program.now }
    requires asked { AsksIn asked.now task.now.state }
    ensures { IfOk result (λ op. (m : Machine) (fuel : ℕ) → task.now.state ≡ Waits asked.now m fuel → op_of op ≡ behaviours.op_at program.now.classes asked.now m) }
{
    match *asked {
        Asked::Create(class) => Ok(Op::Create(class)),
        Asked::Get { object, slot } => Ok(Op::Get {
            object: object.id,
            slot: slot as usize,
        }),
        Asked::Put {
            object,
            slot,
            value,
        } => Ok(Op::Put {
            object: object.id,
            slot: slot as usize,
            value: field_value(value),
        }),
        Asked::Call {
            target,
            method,
            arguments: _,
        } => match task.arguments(alloc, program)? {
            Some(arguments) => Ok(Op::Call {
                target,
                method,
                arguments: Row::new(arguments),
            }),
            None => unreachable!(),
        },
    }
}

fn field_value(value: FieldValue) -> Value
    ensures { result ≡ behaviours.value_of value }
{
    match value {
        FieldValue::Null => Value::Null,
        FieldValue::Int(n) => Value::Int(n),
        FieldValue::Reference(reference) => Value::Ref(reference),
    }
}

/// The reply of the core as a machine takes it, if it is one to what was asked.
pub(crate) fn reply(
    alloc: Global,
    asked: &Asked,
    given: &Reply,
) -> Result<Option<vm_code::Reply>, AllocError>
    ensures { IfOk result (λ told. told ≡ behaviours.reply_to asked.now (reply_of given.now)) }
{
    match given {
        Reply::Gives(value) => Ok(value_reply(asked, value)),
        Reply::GivesBack { value, fuel } => returned(alloc, asked, value, *fuel),
        Reply::Throws(class) => Ok(Some(vm_code::Reply::Throws(*class))),
        Reply::RunsOut => Ok(spent(asked)),
    }
}

fn returned(
    alloc: Global,
    asked: &Asked,
    value: &Option<Value>,
    fuel: u64,
) -> Result<Option<vm_code::Reply>, AllocError>
    ensures { IfOk result (λ told. told ≡ behaviours.returned_of asked.now value.now fuel) }
{
    match asked {
        Asked::Call { .. } => Ok(Some(vm_code::Reply::Returned {
            value: copy_result(alloc, value)?,
            fuel,
        })),
        _ => Ok(None),
    }
}

fn spent(asked: &Asked) -> Option<vm_code::Reply>
    ensures { result ≡ behaviours.spent_of asked.now }
{
    match asked {
        Asked::Call { .. } => Some(vm_code::Reply::RunsOut),
        _ => None,
    }
}

fn value_reply(asked: &Asked, value: &Option<Value>) -> Option<vm_code::Reply>
    ensures { result ≡ behaviours.reply_of asked.now value.now }
{
    match asked {
        Asked::Create(_) => made(value),
        Asked::Get { object: _, slot: _ } => held(value),
        Asked::Put {
            object: _,
            slot: _,
            value: _,
        } => written(value),
        Asked::Call { .. } => None,
    }
}

fn made(value: &Option<Value>) -> Option<vm_code::Reply>
    ensures { result ≡ behaviours.made_of value.now }
{
    match value {
        Some(Value::Ref(reference)) => Some(vm_code::Reply::Made(*reference)),
        _ => None,
    }
}

fn held(value: &Option<Value>) -> Option<vm_code::Reply>
    ensures { result ≡ behaviours.held_of value.now }
{
    match value {
        Some(Value::Null) => Some(vm_code::Reply::Holds(FieldValue::Null)),
        Some(Value::Int(n)) => Some(vm_code::Reply::Holds(FieldValue::Int(*n))),
        Some(Value::Ref(reference)) => {
            Some(vm_code::Reply::Holds(FieldValue::Reference(*reference)))
        }
        _ => None,
    }
}

fn written(value: &Option<Value>) -> Option<vm_code::Reply>
    ensures { result ≡ behaviours.written_of value.now }
{
    match value {
        Some(_) => None,
        None => Some(vm_code::Reply::Written),
    }
}

/// Why the program starts no task at a method with these arguments, if it does not, as the core is told.
pub fn refusal(
    program: &Program,
    method: u32,
    arguments: &[Value],
) -> Result<Option<StartFault>, CoreFault>
    ensures told { IfOk result (λ refused. (own : Uuid) → start_refusal_in program.now own method arguments.now ≡ option_map start_refusal refused) }
    ensures memory { IfErr result (λ fault. fault ≡ CoreFault.Memory) }
{
    match program.refusal(MethodId(method), arguments) {
        None => Ok(None),
        Some(vm_step::StartFault::AbsentMethod) => Ok(Some(StartFault::AbsentMethod)),
        Some(vm_step::StartFault::BadSignature) => Ok(Some(StartFault::BadSignature)),
        Some(vm_step::StartFault::BadArgument) => Ok(Some(StartFault::BadArgument)),
        Some(vm_step::StartFault::Memory) => Err(CoreFault::Memory),
    }
}
