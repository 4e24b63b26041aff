//! The instructions that work on ints (JVMS 6.5).
ghost use Rattle.std.specs.Prelude.{◌≡◌, ◌+◌, ◌<◌, ◌^◌};
ghost use Rattle.vm_act.specs.Next.{NotStuck, Does};
ghost use Rattle.vm_code.specs.Ints.{unary, binary, if_zero, if_compare};

use crate::operators;
use cls_link::{BinaryOperator, Condition, UnaryOperator};
use vm_act::{Flow, Machine, Thrown, Word};

/// Executes ineg, i2b, i2c or i2s.
#[inline(always)]
pub fn unary(machine: &mut Machine, operator: UnaryOperator) -> Flow
    requires index { machine.old.stack.frame.index + 1 < 2 ^ 64 }
    requires fits { NotStuck (unary operator machine.old) }
    ensures does { Does (unary operator machine.old) result machine.new }
    ensures method { machine.new.stack.frame.method ≡ machine.old.stack.frame.method }
{
    let n = machine.pop_int();
    machine.push(Word::int(operators::unary(operator, n)));
    machine.go_on()
}

/// Executes an instruction from iadd to ixor.
#[inline(always)]
pub fn binary(machine: &mut Machine, operator: BinaryOperator) -> Flow
    requires index { machine.old.stack.frame.index + 1 < 2 ^ 64 }
    requires fits { NotStuck (binary operator machine.old) }
    ensures does { Does (binary operator machine.old) result machine.new }
    ensures method { machine.new.stack.frame.method ≡ machine.old.stack.frame.method }
{
    let right = machine.pop_int();
    let left = machine.pop_int();
    match operators::binary(operator, left, right) {
        Some(n) => {
            machine.push(Word::int(n));
            machine.go_on()
        }
        None => Flow::throws(Thrown::ArithmeticException),
    }
}

/// Executes an instruction from ifeq to ifle: goes on at the target if the condition holds between
/// the int on top and 0.
#[inline(always)]
pub fn if_zero(machine: &mut Machine, condition: Condition, target: u16) -> Flow
    requires index { machine.old.stack.frame.index + 1 < 2 ^ 64 }
    requires fits { NotStuck (if_zero condition target machine.old) }
    ensures does { Does (if_zero condition target machine.old) result machine.new }
    ensures method { machine.new.stack.frame.method ≡ machine.old.stack.frame.method }
{
    let n = machine.pop_int();
    machine.branch(operators::holds(condition, n, 0), target)
}

/// Executes an instruction from if_icmpeq to if_icmple: the same between two ints, the one on top on the
/// right.
#[inline(always)]
pub fn if_compare(machine: &mut Machine, condition: Condition, target: u16) -> Flow
    requires index { machine.old.stack.frame.index + 1 < 2 ^ 64 }
    requires fits { NotStuck (if_compare condition target machine.old) }
    ensures does { Does (if_compare condition target machine.old) result machine.new }
    ensures method { machine.new.stack.frame.method ≡ machine.old.stack.frame.method }
{
    let right = machine.pop_int();
    let left = machine.pop_int();
    machine.branch(operators::holds(condition, left, right), target)
}
