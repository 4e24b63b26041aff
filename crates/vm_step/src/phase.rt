//! Whether a task runs or is over.
ghost use Rattle.std.specs.Prelude.{◌≡◌, ℕ, ◌+◌, ◌<◌, ◌≤◌, length};
ghost use Rattle.vm_act.specs.Next.{NotStuck};
ghost use Rattle.vm_act.specs.Remote.{answered};
ghost use Rattle.vm_step.specs.Ends.{end_of};
ghost use Rattle.vm_step.specs.Run.{after, answer, fuel_after, given_back, run, HasNoRemote, HasStopped, IsDue, IsNeverStuck, IsOver};
ghost use Rattle.vm_step.specs.Task.{last_end, phase_state, fuel_left, left_after, pause_at, final_state};

use crate::outcome::Pause;
use crate::program::Program;
use crate::run::{self, Stop, instructions};
use cls_link::LinkedInsn;
use vm_code::{Asked, Ending, Flow, Machine, Reply};
use vm_heap::Heap;

/// How a task ended.
#[derive(Drop)]
pub enum Last {
    /// An instruction ended it.
    Ended(Ending),
    /// It returned what lies at this address of its heap.
    Kept(Heap, usize),
    /// An instruction came next, and there was no fuel for it.
    Spent,
}

/// A task runs on its machine with an amount of fuel left, or its machine waits for the reply to what
/// it asked, with the amount that is left once that has come, or the task is over with an amount left.
#[derive(Drop)]
pub enum Phase {
    Running(Machine, u64),
    Waiting(Machine, Asked, u64),
    Over(Last, u64),
}

impl Phase {
    /// The phase after at most `k` instructions, fewer if the task ends or asks.
    pub fn run(self, program: &Program, k: u64) -> Phase
        requires { IsNeverStuck program.now (phase_state self) }
        ensures state { phase_state result ≡ run program.now k (phase_state self) }
        ensures further { (more : ℕ)
            → run program.now more (phase_state result)
            ≡ run program.now (k + more) (phase_state self) }
        ensures never_stuck { IsNeverStuck program.now (phase_state result) }
        ensures fuel { fuel_left (phase_state result) ≤ fuel_left (phase_state self) }
        ensures most { fuel_left (phase_state self) ≤ fuel_left (phase_state result) + k }
        ensures turn { pause_at (phase_state result) ≡ Pause.Turn
            → fuel_left (phase_state result) + k ≡ fuel_left (phase_state self) }
        ensures stopped { fuel_left (phase_state self) < k → HasStopped (phase_state result) }
        ensures finished { fuel_left (phase_state self) < k
            → phase_state result ≡ final_state program.now (phase_state self) }
        ensures over { fuel_left (phase_state self) < k → HasNoRemote program.now.classes → IsOver (phase_state result) }
    {
        self.after(program, k)
    }

    fn after(self, program: &Program, k: u64) -> Phase
        requires { IsNeverStuck program.now (phase_state self) }
        ensures { phase_state result ≡ run program.now k (phase_state self) }
    {
        match self {
            Phase::Running(machine, fuel) => {
                let most = if k < fuel { k } else { fuel };
                let reached = run::run(machine, program, most, fuel);
                let stop = reached.stop;
                match stop {
                    Stop::Ends(ending) => Phase::Over(keep(reached.machine, ending), reached.fuel),
                    Stop::Asks(asked) => Phase::Waiting(reached.machine, asked, reached.fuel),
                    Stop::Turn if fuel < k => Phase::Over(Last::Spent, 0),
                    Stop::Turn => Phase::Running(reached.machine, reached.fuel),
                }
            }
            Phase::Waiting(machine, asked, fuel) => Phase::Waiting(machine, asked, fuel),
            Phase::Over(last, fuel) => Phase::Over(last, fuel),
        }
    }

    /// The phase after this reply, which is owed to a machine that waits.
    pub fn answer(self, program: &Program, reply: Reply) -> Phase
        requires safe { IsNeverStuck program.now (phase_state self) }
        requires due { IsDue program.now.classes reply (phase_state self) }
        ensures state { phase_state result ≡ answer reply (phase_state self) }
        ensures never_stuck { IsNeverStuck program.now (phase_state result) }
        ensures fuel { fuel_left (phase_state result) ≡ left_after reply (phase_state self) }
        ensures spent { fuel_left (phase_state result) < fuel_left (phase_state self) }
    {
        self.answered(program, reply)
    }

    fn answered(self, program: &Program, reply: Reply) -> Phase
        requires safe { IsNeverStuck program.now (phase_state self) }
        requires due { IsDue program.now.classes reply (phase_state self) }
        ensures { phase_state result ≡ answer reply (phase_state self) }
    {
        match self {
            Phase::Waiting(machine, asked, fuel) => {
                let code = instructions(program.linked(), machine.stack.method());
                complete(machine, asked, code, reply, fuel)
            }
            other => other,
        }
    }
}

// The phase of a machine that waited for this reply to what it asked. Among the instructions of its
// method there is one after the one that asked.
fn complete(machine: Machine, asked: Asked, code: &[LinkedInsn], reply: Reply, fuel: u64) -> Phase
    requires next { machine.stack.frame.index + 1 < length code.now }
    requires fits { NotStuck (answered asked reply machine) }
    ensures { phase_state result ≡ after machine.heap.cells (answered asked reply machine) (fuel_after asked reply fuel) }
{
    let mut machine = machine;
    let _count = code.len();
    let left = fuel_after(&asked, &reply, fuel);
    match machine.answer_with(asked, reply) {
        Flow::Ends(ending) => Phase::Over(keep(machine, ending), left),
        Flow::Asks(asked) => Phase::Waiting(machine, asked, left),
        _ => Phase::Running(machine, left),
    }
}

// The fuel that is left after a reply: a call has what its callee left.
pub(crate) fn fuel_after(asked: &Asked, reply: &Reply, fuel: u64) -> u64
    ensures { result ≡ fuel_after asked.now reply.now fuel }
{
    match asked {
        Asked::Call { .. } => given_back(reply),
        _ => fuel,
    }
}

fn given_back(reply: &Reply) -> u64
    ensures { result ≡ given_back reply.now }
{
    match reply {
        Reply::Returned { value: _, fuel } => *fuel,
        _ => 0,
    }
}

// How a task ended whose last instruction led to this machine: of that only a heap is kept in which
// what is returned lies.
fn keep(machine: Machine, ending: Ending) -> Last
    ensures { last_end result ≡ end_of machine.heap.cells ending }
{
    match ending {
        Ending::ReturnedReference(Some(address)) => Last::Kept(machine.heap, address),
        other => Last::Ended(other),
    }
}
