//! Tasks.
ghost use Rattle.std.specs.Prelude.{List, ◌≡◌, ◌≢◌, ℕ, ◌+◌, ◌^◌, ◌<◌, ◌≤◌, [], IsSome, IsTrue, IfSome, IfOk, IfErr, OnErr, map, option_and_then, option_map};
ghost use Rattle.std.specs.Option.{option_map_or};
ghost use Rattle.vm_heap.specs.Heap.{Ints, cell_at, length_at};
ghost use Rattle.vm_step.specs.Ends.{end_of, returned_at};
ghost use Rattle.vm_step.specs.Begin.{begun};
ghost use Rattle.vm_step.specs.Start.{started, Refuses};
ghost use Rattle.vm_step.specs.Limited.{AlwaysKeepsWithin, KeepsWithin};
ghost use Rattle.vm_code.specs.Parameters.{parameter_of};
ghost use Rattle.vm_typing.specs.Runs.{Move};
ghost use Rattle.vm_laws.specs.Worlds.{takes_at};
ghost use Rattle.vm_step.specs.Run.{answer, played, run, AreDue, HasNoRemote, HasStopped, IsCrossing, IsDue, IsOver, IsNeverStuck};
ghost use Rattle.vm_step.specs.Task.{pause_at, fuel_left, left_after, final_state, arguments_of, call_arguments, last_end, outcome_of, outcome_at, phase_state, threw_named, unmarshalled, GivesInts, IsCall, IsCalling, IsOutcome, IsOfSet};

use crate::fault::StartFault;
use crate::found::find;
use crate::limits::Limits;
use crate::opening::opening;
use crate::outcome::{Outcome, Pause};
use crate::phase::{Last, Phase, fuel_after};
use crate::program::Program;
use crate::receiving::refuses_begin;
use crate::thrown::ThrownClasses;
use cls_link::{Linked, MethodId, Parameters};
use std::alloc::{AllocError, Global};
use std::marker::Model;
use std::mem;
use std::snapshot::Snapshot;
use vm_code::{Asked, Ending, Machine, Reply, arguments};
use vm_heap::{Heap, Row, Uuid, Value};
use vm_replies::fits;

/// A method that runs on a machine of its own.
#[derive(Drop)]
pub struct Task {
    program: Snapshot<Program>,
    own: Uuid,
    thrown: ThrownClasses,
    phase: Phase,
}

impl Model for Task {
    ghost use Rattle.vm_step.specs.Task.{Tasked, phase_state};
    ghost use Rattle.vm_step.specs.Program.{IsTask};

    ghost Value = { Tasked };

    ghost view = { λ task. record { program = task.program.value; own = task.own; state = phase_state task.phase } };

    ghost invariant = { λ task. IsTask task.program.value task.thrown (phase_state task.phase) };
}

impl Task {
    /// A task of the space `own` that runs a method on these arguments, or why it does not start: the
    /// first fault that fits is told, in the order of `StartFault`.
    pub fn start(
        alloc: Global,
        program: &Program,
        own: Uuid,
        method: MethodId,
        arguments: Vec<Value>,
        limits: Limits,
    ) -> Result<Task, StartFault>
        ensures started { IfOk result (λ task. started program.now own method arguments.items limits ≡ Ok task) }
        ensures refused { IfErr result (Refuses (started program.now own method arguments.items limits)) }
        // It has all its fuel, and however many instructions it makes, its machine is not stuck.
        ensures program { IfOk result (λ task. task.program ≡ program.now) }
        ensures fuel { IfOk result (λ task. fuel_left task.state ≡ limits.fuel) }
        ensures never_stuck { IfOk result (λ task. IsNeverStuck program.now task.state) }
        // All frames have max_locals local variables of their methods, and keep within max_stack.
        ensures within { IfOk result (λ task. (k : ℕ) → KeepsWithin program.now (run program.now k task.state)) }
        ensures within_replies { IfOk result (λ task. AlwaysKeepsWithin program.now task.state) }
    {
        match program.refusal(method, &arguments) {
            Some(fault) => Err(fault),
            None => Task::begin(alloc, program, own, method, arguments, limits),
        }
    }

    /// A task of the space `own` that begins at a method: with an argument for each parameter if it is
    /// static, and if not with a receiver before them. That is a reference to an object of the space, of a
    /// remote class that is the method's or a subtype of it. Or else why it does not begin: the first fault
    /// that fits is told, in the order of `StartFault`.
    pub fn begin(
        alloc: Global,
        program: &Program,
        own: Uuid,
        method: MethodId,
        values: Vec<Value>,
        limits: Limits,
    ) -> Result<Task, StartFault>
        ensures begun { IfOk result (λ task. begun program.now own method values.items limits ≡ Ok task) }
        ensures refused { IfErr result (Refuses (begun program.now own method values.items limits)) }
        ensures program { IfOk result (λ task. task.program ≡ program.now) }
        ensures fuel { IfOk result (λ task. fuel_left task.state ≡ limits.fuel) }
        ensures never_stuck { IfOk result (λ task. IsNeverStuck program.now task.state) }
        ensures within { IfOk result (λ task. (k : ℕ) → KeepsWithin program.now (run program.now k task.state)) }
        ensures within_replies { IfOk result (λ task. AlwaysKeepsWithin program.now task.state) }
    {
        let linked = program.linked();
        let Some(found) = find(linked, method) else {
            return Err(StartFault::AbsentMethod);
        };
        match refuses_begin(linked.set(), own, found, &values) {
            Some(fault) => return Err(fault),
            None => {}
        }
        let phase = opening(alloc, own, method, found.code, &values, limits)?;
        Ok(Task {
            program: Snapshot::of(program),
            own,
            thrown: program.thrown(),
            phase,
        })
    }

    /// Makes at most `k` instructions, fewer if the task ends, or asks its space for something. A task
    /// that waits for a reply makes none. It takes no memory.
    pub fn run(&mut self, program: &Program, k: u64) -> Pause
        requires { self.old.program ≡ program.now }
        ensures task { self.new ≡ record self.old { state = run program.now k self.old.state } }
        ensures pause { result ≡ pause_at self.new.state }
        // However many instructions more, they lead where all of them at once would have led.
        ensures further { (more : ℕ)
            → run program.now more self.new.state
            ≡ run program.now (k + more) self.old.state }
        // The fuel goes down by at most `k`, and by `k` if the task has not ended and does not wait.
        ensures fuel { fuel_left self.new.state ≤ fuel_left self.old.state }
        ensures most { fuel_left self.old.state ≤ fuel_left self.new.state + k }
        ensures turn { result ≡ Pause.Turn → fuel_left self.new.state + k ≡ fuel_left self.old.state }
        ensures never_stuck { IsNeverStuck program.now self.new.state }
        // With more instructions than it has fuel for it ends, or waits; without remote classes it ends.
        ensures stopped { fuel_left self.old.state < k → HasStopped self.new.state }
        ensures finished { fuel_left self.old.state < k → self.new.state ≡ final_state program.now self.old.state }
        ensures over { fuel_left self.old.state < k → HasNoRemote program.now.classes → IsOver self.new.state }
    {
        let phase = mem::replace(&mut self.phase, Phase::Over(Last::Spent, 0));
        self.phase = phase.run(program, k);
        match self.phase {
            Phase::Running(..) => Pause::Turn,
            Phase::Waiting(_, asked, _) => Pause::Ask(asked),
            Phase::Over(..) => Pause::Ended,
        }
    }

    /// What the task stands at: what `run` would answer that makes no instruction.
    pub fn pause(&self) -> Pause
        ensures { result ≡ pause_at self.now.state }
    {
        match &self.phase {
            Phase::Running(..) => Pause::Turn,
            Phase::Waiting(_, asked, _) => Pause::Ask(*asked),
            Phase::Over(..) => Pause::Ended,
        }
    }

    /// Returns whether the task waits for a reply that this one fits, so that `answer` may be given it.
    pub fn takes(&self, program: &Program, reply: &Reply) -> bool
        ensures { IsTrue result → IsDue program.now.classes reply.now self.now.state }
    {
        match &self.phase {
            Phase::Waiting(machine, asked, fuel) => {
                let fits = fits(program.linked(), machine.references.own(), asked, reply);
                fits && fuel_after(asked, reply, *fuel) <= *fuel
            }
            _ => false,
        }
    }

    /// Completes the instruction that waits for this reply. The reply is one that fits what was asked:
    /// an own object of the class; a value of the field's type; what a method of this result gives, with
    /// no more fuel than was lent, or that its fuel was spent; or an exception of a class of the set. It
    /// takes no memory.
    pub fn answer(&mut self, program: &Program, reply: Reply)
        requires program { self.old.program ≡ program.now }
        requires due { IsDue program.now.classes reply self.old.state }
        ensures task { self.new ≡ record self.old { state = answer reply self.old.state } }
        // An instruction that is completed has taken its unit of fuel, and a call has what came back.
        ensures fuel { fuel_left self.new.state ≡ left_after reply self.old.state }
        ensures spent { fuel_left self.new.state < fuel_left self.old.state }
        ensures never_stuck { IsNeverStuck program.now self.new.state }
    {
        let phase = mem::replace(&mut self.phase, Phase::Over(Last::Spent, 0));
        self.phase = phase.answer(program, reply);
    }

    /// Returns a copy of the arguments of the call that the task asks for: `None` if it asks for none.
    pub fn arguments(
        &self,
        alloc: Global,
        program: &Program,
    ) -> Result<Option<Vec<Value>>, AllocError>
        requires { self.now.program ≡ program.now }
        ensures value { IfOk result (λ given. option_map (λ values. values.items) given ≡ call_arguments program.now.classes self.now.state) }
        ensures calling { IfOk result (λ given. IsCalling self.now.state → IsSome given) }
    {
        match &self.phase {
            Phase::Waiting(machine, asked, _) => passed(alloc, program, machine, asked),
            _ => Ok(None),
        }
    }

    /// Returns how much fuel the task has left. While it waits, the unit of the instruction that asks is
    /// among it, and so is what a call lends.
    pub fn fuel(&self) -> u64
        ensures { result ≡ fuel_left self.now.state }
    {
        match &self.phase {
            Phase::Running(_, fuel) => *fuel,
            Phase::Waiting(_, _, fuel) => *fuel + 1,
            Phase::Over(_, fuel) => *fuel,
        }
    }

    /// How the task ended: `None` if it has not. An array is copied; else memory does not run out. One of
    /// more than 8,000 elements cannot cross: a MarshalException is thrown.
    pub fn outcome(&self, alloc: Global) -> Result<Option<Outcome>, AllocError>
        ensures value { IfOk result (λ told. told ≡ outcome_at self.now.program.classes self.now.state) }
        ensures over { IfOk result (λ told. IsOver self.now.state → IsSome told) }
        ensures ending { IfOk result (λ told. IfSome told (IsOutcome self.now.program.classes self.now.state)) }
        ensures of_set { IfOk result (λ told. IfSome told (IsOfSet self.now.program.classes)) }
        ensures memory { OnErr result (GivesInts (outcome_at self.now.program.classes self.now.state)) }
    {
        match &self.phase {
            Phase::Running(..) | Phase::Waiting(..) => Ok(None),
            Phase::Over(last, _) => Ok(Some(self.told_last(alloc, last)?)),
        }
    }

    // What the end of a task is to callers.
    fn told_last(&self, alloc: Global, last: &Last) -> Result<Outcome, AllocError>
        requires { IsSome (last_end last.now) }
        ensures told { IfOk result (λ told. option_and_then (outcome_of self.now.program.classes) (last_end last.now) ≡ Some told) }
        ensures memory { OnErr result (GivesInts (option_and_then (outcome_of self.now.program.classes) (last_end last.now))) }
    {
        match last {
            Last::Ended(ending) => Ok(self.told(*ending)),
            Last::Kept(heap, address) => self.crossing(alloc, heap, *address),
            Last::Spent => Ok(Outcome::Spent),
        }
    }

    // What an ending is to callers of which nothing lies in the heap.
    fn told(&self, ending: Ending) -> Outcome
        requires { IsSome (end_of [] ending) }
        ensures { option_and_then (outcome_of self.now.program.classes) (end_of [] ending) ≡ Some result }
    {
        match ending {
            Ending::ReturnedNothing => Outcome::Returned(None),
            Ending::ReturnedInt(n) => Outcome::Returned(Some(Value::Int(n))),
            Ending::ReturnedReference(address) => match address {
                None => Outcome::Returned(Some(Value::Null)),
                Some(_) => unreachable!(),
            },
            Ending::ReturnedRemote(reference) => { Outcome::Returned(Some(Value::Ref(reference))) }
            Ending::Threw(thrown) => Outcome::Threw(self.thrown.number(thrown)),
            Ending::ThrewObject(class) => Outcome::Threw(class),
            Ending::Spent => Outcome::Spent,
        }
    }

    // What is returned that lies in the heap: an array that can cross, or else a MarshalException.
    #[tactic(auto, using(crate::proofs::Outcomes::gives_ints))]
    fn crossing(&self, alloc: Global, heap: &Heap, address: usize) -> Result<Outcome, AllocError>
        requires { IsSome (cell_at heap.now.cells address) }
        ensures told { IfOk result (λ told. option_and_then (outcome_of self.now.program.classes) (returned_at heap.now.cells (Some address)) ≡ Some told) }
        ensures memory { OnErr result (GivesInts (option_and_then (outcome_of self.now.program.classes) (returned_at heap.now.cells (Some address)))) }
    {
        if heap.class_of(address).is_some() {
            return Ok(self.not_crossing());
        }
        if heap.length(address) > MOST_ELEMENTS {
            return Ok(self.not_crossing());
        }
        let elements = heap.elements(alloc, address)?;
        Ok(Outcome::Returned(Some(Value::Ints(Row::new(elements)))))
    }

    fn not_crossing(&self) -> Outcome
        ensures { threw_named self.now.program.classes unmarshalled ≡ Some result }
    {
        Outcome::Threw(self.thrown.marshal_exception)
    }
}

// How many elements an array may have that crosses.
const MOST_ELEMENTS: u32 = 8_000;

// A copy of the arguments of the call that a machine asks for, if it asks for one.
fn passed(
    alloc: Global,
    program: &Program,
    machine: &Machine,
    asked: &Asked,
) -> Result<Option<Vec<Value>>, AllocError>
    requires { IsCrossing program.now.classes asked.now machine.now }
    ensures value { IfOk result (λ given. option_map (λ values. values.items) given ≡ arguments_of program.now.classes asked.now machine.now) }
    ensures calling { IfOk result (λ given. IsCall asked.now → IsSome given) }
{
    match asked {
        Asked::Call {
            target: _,
            method,
            arguments: _,
        } => {
            match parameters(program.linked(), *method) {
                Some(types) => Ok(Some(arguments(alloc, machine, types)?)),
                None => Ok(Some(Vec::new(alloc))),
            }
        }
        _ => Ok(None),
    }
}

// The types of the parameters of a method, if there is one of this number.
fn parameters(linked: &Linked, method: u32) -> Option<&Parameters>
    ensures { option_map_or (λ types. map parameter_of types.now) result [] ≡ takes_at linked.now.classes method }
{
    if method as usize >= linked.len() {
        return None;
    }
    Some(&linked.declaration(MethodId(method)).types.parameters)
}
