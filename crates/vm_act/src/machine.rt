//! The machine: what a task runs on.
ghost use Rattle.std.specs.Prelude.{◌≡◌, ◌+◌, ◌<◌, ◌^◌, length};
ghost use Rattle.vm_heap.specs.Tagged.{Int, IsInt};
ghost use Rattle.vm_act.specs.Next.{NotStuck, Does};
ghost use Rattle.vm_act.specs.Steps.{go_on, branch};
ghost use Rattle.vm_act.specs.Shapes.{IsIntOnTop, pushed_on};

use crate::ending::Flow;
use vm_heap::{Heap, References, Word};
use vm_stack::Stack;

/// The frames and the heap of a task, and the references that it came by. The method of an instruction executes it (JVMS 6.5), and
/// returns what it did: that the task goes on in the same method, or in another, or how it ends.
#[derive(Drop)]
pub struct Machine {
    pub stack: Stack,
    pub heap: Heap,
    pub references: References,
}

impl Machine {
    /// Takes the int on top off, and returns it.
    #[inline(always)]
    pub fn pop_int(&mut self) -> i32
        requires { IsIntOnTop self.old.stack.frame.operands }
        ensures { self.old ≡ pushed_on (Int result) self.new }
    {
        self.stack.pop().as_int()
    }

    /// Pushes an operand.
    #[inline(always)]
    pub fn push(&mut self, word: Word)
        requires { length self.old.stack.frame.operands < self.old.stack.frame.room }
        ensures { self.new ≡ pushed_on word self.old }
    {
        self.stack.push(word);
    }

    /// Goes on at the next instruction.
    #[inline(always)]
    pub fn go_on(&mut self) -> Flow
        requires { self.old.stack.frame.index + 1 < 2 ^ 64 }
        ensures does { Does (go_on self.old) result self.new }
        ensures method { self.new.stack.frame.method ≡ self.old.stack.frame.method }
    {
        self.stack.go_to(self.stack.index() + 1);
        Flow::Goes
    }

    /// Goes on at the instruction of an index if it is taken, else at the next one.
    #[inline(always)]
    pub fn branch(&mut self, taken: bool, target: u16) -> Flow
        requires { self.old.stack.frame.index + 1 < 2 ^ 64 }
        ensures does { Does (branch taken target self.old) result self.new }
        ensures method { self.new.stack.frame.method ≡ self.old.stack.frame.method }
    {
        if taken {
            self.stack.go_to(target as usize);
            Flow::Goes
        } else {
            self.go_on()
        }
    }
}
