//! The machine with which a task begins: its arguments and its first frame.
ghost use Rattle.std.specs.Prelude.{◌≡◌, ◌+◌, ◌-◌, ◌≤◌, ◌<◌, ◌^◌, ◌↔◌, ◌++◌, IsTrue, IfOk, length, drop};
ghost use Rattle.std.specs.Bool.{OnTrue};
ghost use Rattle.vm_heap.specs.Tagged.{most_rows};
ghost use Rattle.vm_heap.specs.Heap.{Ints, all_cost, cost, with_new};
ghost use Rattle.vm_step.specs.Start.{copies, copy_of, has_room_for, has_row, have_room, have_rows, opening_state, passed_at, passed_from, with_arguments, with_value, AreHeld, IsHeld};
ghost use Rattle.vm_step.specs.Task.{phase_state, fuel_left};

use crate::limits::Limits;
use crate::phase::{Last, Phase};
use cls_link::{Code, MethodId};
use std::alloc::{AllocError, Global};
use vm_code::{Ending, Machine, Thrown};
use vm_heap::{Heap, References, Uuid, Value, Word};
use vm_stack::Stack;

/// The phase in which a method begins, in a task of the space of this id.
pub fn opening(
    alloc: Global,
    own: Uuid,
    method: MethodId,
    code: &Code,
    arguments: &[Value],
    limits: Limits,
) -> Result<Phase, AllocError>
    requires few { length arguments.now ≤ code.now.max_locals }
    ensures opens { IfOk result (λ phase. phase_state phase ≡ opening_state own method code.now arguments.now limits) }
    ensures fuel { IfOk result (λ phase. fuel_left (phase_state phase) ≡ limits.fuel) }
    ensures short { IfOk result (λ phase. fuel_left (phase_state phase) < 2 ^ 64) }
{
    let mut stack = Stack::with_words(alloc, limits.stack_words as usize)?;
    let mut heap = Heap::with_words(alloc, limits.heap_words)?;
    let mut references = References::with_limit(alloc, own, limits.references)?;
    if !copy_in(&mut heap, arguments) {
        return Ok(thrown(Thrown::OutOfMemoryError, limits.fuel));
    }
    if !hold_all(&mut references, arguments) {
        return Ok(thrown(Thrown::OutOfMemoryError, limits.fuel));
    }
    if !stack.push_frame(method.0, 0, code.max_locals, code.max_stack) {
        return Ok(thrown(Thrown::StackOverflowError, limits.fuel));
    }
    pass(&mut stack, &mut references, arguments);
    Ok(Phase::Running(
        Machine {
            stack,
            heap,
            references,
        },
        limits.fuel,
    ))
}

// The phase of a task that throws before its first instruction.
fn thrown(thrown: Thrown, fuel: u64) -> Phase
    ensures { result ≡ Phase.Over (Last.Ended (Ending.Threw thrown)) fuel }
{
    Phase::Over(Last::Ended(Ending::Threw(thrown)), fuel)
}

// Copies the arguments that are arrays into the heap, if each fits.
fn copy_in(heap: &mut Heap, arguments: &[Value]) -> bool
    ensures fits { result ≡ have_room arguments.now heap.old.free }
    ensures cells { OnTrue result (heap.new.cells ≡ heap.old.cells ++ copies arguments.now) }
    ensures free { OnTrue result (heap.new.free + all_cost (copies arguments.now) ≡ heap.old.free) }
{
    for argument in arguments {
        if !copy_one(heap, argument) {
            return false;
        }
    }
    true
}

fn copy_one(heap: &mut Heap, argument: &Value) -> bool
    ensures fits { result ≡ has_room_for argument.now heap.old.free }
    ensures cells { OnTrue result (heap.new.cells ≡ heap.old.cells ++ copy_of argument.now) }
    ensures free { OnTrue result (heap.new.free + all_cost (copy_of argument.now) ≡ heap.old.free) }
{
    match argument {
        Value::Ints(elements) => copy_ints(heap, elements.as_slice()),
        _ => true,
    }
}

// Copies an array into the heap, if it fits.
fn copy_ints(heap: &mut Heap, elements: &[i32]) -> bool
    ensures fits { IsTrue result ↔ (length elements.now < 2 ^ 31) × (cost (Ints elements.now) ≤ heap.old.free) }
    ensures copied { OnTrue result (heap.new ≡ with_new (Ints elements.now) heap.old) }
{
    elements.len() < 0x8000_0000 && heap.copy_ints(elements).is_some()
}

// Comes by the arguments that are references, if all of them are within the limit.
fn hold_all(references: &mut References, arguments: &[Value]) -> bool
    ensures rows { result ≡ have_rows arguments.now references.old }
    ensures held { OnTrue result (references.new ≡ with_arguments arguments.now references.old) }
{
    for argument in arguments {
        if !hold_one(references, argument) {
            return false;
        }
    }
    true
}

fn hold_one(references: &mut References, argument: &Value) -> bool
    ensures row { result ≡ has_row argument.now references.old }
    ensures held { references.new ≡ with_value argument.now references.old }
{
    match argument {
        Value::Ref(reference) => references.hold(*reference).is_some(),
        _ => true,
    }
}

// Writes the arguments into the first local variables: each array is the address of its copy, and each
// reference, by which the task has come, a row.
fn pass(stack: &mut Stack, references: &mut References, arguments: &[Value])
    requires room { length arguments.now ≤ length stack.old.frame.locals }
    requires small { all_cost (copies arguments.now) + most_rows < 2 ^ 32 }
    requires known { AreHeld references.old arguments.now }
    ensures frame { stack.new.frame
        ≡ record stack.old.frame {
          locals =
              passed_from 0 references.old arguments.now
              ++ drop (length arguments.now) stack.old.frame.locals;
        } }
    ensures callers { stack.new.callers ≡ stack.old.callers }
    ensures free { stack.new.free ≡ stack.old.free }
    ensures references { references.new ≡ references.old }
{
    let mut address = 0;
    for index in 0..arguments.len() {
        let argument = &arguments[index];
        stack.set_local(index, word(address, references, argument));
        address += words(argument);
    }
}

// An argument as a local variable holds it, where the next copy comes to an address.
fn word(address: usize, references: &mut References, argument: &Value) -> Word
    requires address { address + all_cost (copy_of argument.now) + most_rows < 2 ^ 32 }
    requires known { IsHeld references.old argument.now }
    ensures word { result ≡ passed_at address references.old argument.now }
    ensures references { references.new ≡ references.old }
{
    match argument {
        Value::Null => Word::null(),
        Value::Int(n) => Word::int(*n),
        Value::Ints(_) => Word::local(address),
        Value::Ref(reference) => match references.hold(*reference) {
            Some(word) => word,
            None => Word::unset(),
        },
    }
}

// How many words of the heap the copy of an argument takes.
fn words(argument: &Value) -> usize
    requires { all_cost (copy_of argument.now) < 2 ^ 32 }
    ensures { result ≡ all_cost (copy_of argument.now) }
{
    match argument {
        Value::Ints(elements) => elements.as_slice().len() + 2,
        _ => 0,
    }
}
