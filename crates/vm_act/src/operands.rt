//! Local variables, operands and branches (JVMS 6.5).
ghost use Rattle.std.specs.Prelude.{◌≡◌, ◌+◌, ◌<◌, ◌^◌};
ghost use Rattle.vm_act.specs.Next.{NotStuck, Does};
ghost use Rattle.vm_act.specs.Words.{constant, null, load, store_top, increment, pop_one, pop_two, dup, dup_x1, dup_x2, dup2, dup2_x1, dup2_x2, swap, are_same, if_same, if_null};

use crate::ending::Flow;
use crate::machine::Machine;
use vm_heap::{Pointer, Word, WordKind};

impl Machine {
    /// Executes the instructions that push a constant int: pushes it.
    #[inline(always)]
    pub fn constant(&mut self, n: i32) -> Flow
        requires index { self.old.stack.frame.index + 1 < 2 ^ 64 }
        requires fits { NotStuck (constant n self.old) }
        ensures does { Does (constant n self.old) result self.new }
        ensures method { self.new.stack.frame.method ≡ self.old.stack.frame.method }
    {
        self.push(Word::int(n));
        self.go_on()
    }

    /// Executes aconst_null.
    #[inline(always)]
    pub fn null(&mut self) -> Flow
        requires index { self.old.stack.frame.index + 1 < 2 ^ 64 }
        requires fits { NotStuck (null self.old) }
        ensures does { Does (null self.old) result self.new }
        ensures method { self.new.stack.frame.method ≡ self.old.stack.frame.method }
    {
        self.push(Word::null());
        self.go_on()
    }

    /// Executes iload and aload: pushes the value of a local variable, which is of this kind.
    #[inline(always)]
    pub fn load(&mut self, kind: WordKind, local: u16) -> Flow
        requires index { self.old.stack.frame.index + 1 < 2 ^ 64 }
        requires fits { NotStuck (load kind local self.old) }
        ensures does { Does (load kind local self.old) result self.new }
        ensures method { self.new.stack.frame.method ≡ self.old.stack.frame.method }
    {
        let _ = kind;
        let word = self.stack.local(local as usize);
        self.push(word);
        self.go_on()
    }

    /// Executes istore and astore: writes what is on top, which is of this kind, into a local
    /// variable.
    #[inline(always)]
    pub fn store(&mut self, kind: WordKind, local: u16) -> Flow
        requires index { self.old.stack.frame.index + 1 < 2 ^ 64 }
        requires fits { NotStuck (store_top kind local self.old) }
        ensures does { Does (store_top kind local self.old) result self.new }
        ensures method { self.new.stack.frame.method ≡ self.old.stack.frame.method }
    {
        let _ = kind;
        let word = self.stack.pop();
        self.stack.set_local(local as usize, word);
        self.go_on()
    }

    /// Executes iinc: adds to the int of a local variable.
    #[inline(always)]
    pub fn increment(&mut self, local: u16, by: i16) -> Flow
        requires index { self.old.stack.frame.index + 1 < 2 ^ 64 }
        requires fits { NotStuck (increment local by self.old) }
        ensures does { Does (increment local by self.old) result self.new }
        ensures method { self.new.stack.frame.method ≡ self.old.stack.frame.method }
    {
        let n = self.stack.local(local as usize).as_int();
        let sum = Word::int(n.wrapping_add(by as i32));
        self.stack.set_local(local as usize, sum);
        self.go_on()
    }

    /// Executes pop: takes one operand off.
    #[inline(always)]
    pub fn pop_one(&mut self) -> Flow
        requires index { self.old.stack.frame.index + 1 < 2 ^ 64 }
        requires fits { NotStuck (pop_one self.old) }
        ensures does { Does (pop_one self.old) result self.new }
        ensures method { self.new.stack.frame.method ≡ self.old.stack.frame.method }
    {
        let _ = self.stack.pop();
        self.go_on()
    }

    /// Executes pop2: takes two operands off.
    #[inline(always)]
    pub fn pop_two(&mut self) -> Flow
        requires index { self.old.stack.frame.index + 1 < 2 ^ 64 }
        requires fits { NotStuck (pop_two self.old) }
        ensures does { Does (pop_two self.old) result self.new }
        ensures method { self.new.stack.frame.method ≡ self.old.stack.frame.method }
    {
        let _ = (self.stack.pop(), self.stack.pop());
        self.go_on()
    }

    /// Executes dup.
    #[inline(always)]
    pub fn dup(&mut self) -> Flow
        requires index { self.old.stack.frame.index + 1 < 2 ^ 64 }
        requires fits { NotStuck (dup self.old) }
        ensures does { Does (dup self.old) result self.new }
        ensures method { self.new.stack.frame.method ≡ self.old.stack.frame.method }
    {
        let value = self.stack.pop();
        self.push(value.copy());
        self.push(value);
        self.go_on()
    }

    /// Executes dup_x1.
    #[inline(always)]
    pub fn dup_x1(&mut self) -> Flow
        requires index { self.old.stack.frame.index + 1 < 2 ^ 64 }
        requires fits { NotStuck (dup_x1 self.old) }
        ensures does { Does (dup_x1 self.old) result self.new }
        ensures method { self.new.stack.frame.method ≡ self.old.stack.frame.method }
    {
        let top = self.stack.pop();
        let next = self.stack.pop();
        self.push(top.copy());
        self.push(next);
        self.push(top);
        self.go_on()
    }

    /// Executes dup_x2.
    #[inline(always)]
    pub fn dup_x2(&mut self) -> Flow
        requires index { self.old.stack.frame.index + 1 < 2 ^ 64 }
        requires fits { NotStuck (dup_x2 self.old) }
        ensures does { Does (dup_x2 self.old) result self.new }
        ensures method { self.new.stack.frame.method ≡ self.old.stack.frame.method }
    {
        let high = self.stack.pop();
        let middle = self.stack.pop();
        let low = self.stack.pop();
        self.push(high.copy());
        self.push(low);
        self.push(middle);
        self.push(high);
        self.go_on()
    }

    /// Executes dup2.
    #[inline(always)]
    pub fn dup2(&mut self) -> Flow
        requires index { self.old.stack.frame.index + 1 < 2 ^ 64 }
        requires fits { NotStuck (dup2 self.old) }
        ensures does { Does (dup2 self.old) result self.new }
        ensures method { self.new.stack.frame.method ≡ self.old.stack.frame.method }
    {
        let upper = self.stack.pop();
        let lower = self.stack.pop();
        self.push(lower.copy());
        self.push(upper.copy());
        self.push(lower);
        self.push(upper);
        self.go_on()
    }

    /// Executes dup2_x1.
    #[inline(always)]
    pub fn dup2_x1(&mut self) -> Flow
        requires index { self.old.stack.frame.index + 1 < 2 ^ 64 }
        requires fits { NotStuck (dup2_x1 self.old) }
        ensures does { Does (dup2_x1 self.old) result self.new }
        ensures method { self.new.stack.frame.method ≡ self.old.stack.frame.method }
    {
        let one = self.stack.pop();
        let two = self.stack.pop();
        let three = self.stack.pop();
        self.push(two.copy());
        self.push(one.copy());
        self.push(three);
        self.push(two);
        self.push(one);
        self.go_on()
    }

    /// Executes dup2_x2.
    #[inline(always)]
    pub fn dup2_x2(&mut self) -> Flow
        requires index { self.old.stack.frame.index + 1 < 2 ^ 64 }
        requires fits { NotStuck (dup2_x2 self.old) }
        ensures does { Does (dup2_x2 self.old) result self.new }
        ensures method { self.new.stack.frame.method ≡ self.old.stack.frame.method }
    {
        let first = self.stack.pop();
        let second = self.stack.pop();
        let third = self.stack.pop();
        let fourth = self.stack.pop();
        self.push(second.copy());
        self.push(first.copy());
        self.push(fourth);
        self.push(third);
        self.push(second);
        self.push(first);
        self.go_on()
    }

    /// Executes swap.
    #[inline(always)]
    pub fn swap(&mut self) -> Flow
        requires index { self.old.stack.frame.index + 1 < 2 ^ 64 }
        requires fits { NotStuck (swap self.old) }
        ensures does { Does (swap self.old) result self.new }
        ensures method { self.new.stack.frame.method ≡ self.old.stack.frame.method }
    {
        let right = self.stack.pop();
        let left = self.stack.pop();
        self.push(right);
        self.push(left);
        self.go_on()
    }

    /// Executes if_acmpeq, or if not `equal` if_acmpne: whether two references are the same object.
    #[inline(always)]
    pub fn if_same(&mut self, equal: bool, target: u16) -> Flow
        requires index { self.old.stack.frame.index + 1 < 2 ^ 64 }
        requires fits { NotStuck (if_same equal target self.old) }
        ensures does { Does (if_same equal target self.old) result self.new }
        ensures method { self.new.stack.frame.method ≡ self.old.stack.frame.method }
    {
        let right = self.stack.pop().as_pointer();
        let left = self.stack.pop().as_pointer();
        self.branch(same(left, right) == equal, target)
    }

    /// Executes ifnull, or if not `null` ifnonnull.
    #[inline(always)]
    pub fn if_null(&mut self, null: bool, target: u16) -> Flow
        requires index { self.old.stack.frame.index + 1 < 2 ^ 64 }
        requires fits { NotStuck (if_null null target self.old) }
        ensures does { Does (if_null null target self.old) result self.new }
        ensures method { self.new.stack.frame.method ≡ self.old.stack.frame.method }
    {
        let pointer = self.stack.pop().as_pointer();
        self.branch(same(pointer, Pointer::Null) == null, target)
    }
}

// Whether two references are to one object, or both null.
#[inline(always)]
fn same(left: Pointer, right: Pointer) -> bool
    ensures { result ≡ are_same left right }
{
    match (left, right) {
        (Pointer::Null, Pointer::Null) => true,
        (Pointer::Address(one), Pointer::Address(other)) => one == other,
        (Pointer::Row(one), Pointer::Row(other)) => one == other,
        _ => false,
    }
}
