//! Operands that are moved about, arrays, returns and switches (JVMS 6.5): a function a group.
ghost use Rattle.std.specs.Prelude.{◌≡◌, ◌≢◌, ◌+◌, ◌<◌, ◌^◌, Some, IsSome};
ghost use Rattle.vm_act.specs.Next.{NotStuck, Does};
ghost use Rattle.vm_act.specs.Words.{if_same};
ghost use Rattle.vm_code.specs.Act.{word_kind, is_equal, rearrange, act_on_array, return_value, switch_by, switch_at, switch_of};

use cls_link::{
    ArrayOperation, Equality, Linked, LinkedSwitch, MethodId, StackOperation, ValueKind,
};
use vm_act::{Flow, Machine, WordKind};

/// Returns what a load or a store of a kind moves.
#[inline(always)]
pub fn word_kind(kind: ValueKind) -> WordKind
    ensures { result ≡ word_kind kind }
{
    match kind {
        ValueKind::Int => WordKind::Int,
        ValueKind::Reference => WordKind::Reference,
    }
}

/// Returns whether a comparison asks that both are the same.
#[inline(always)]
pub fn is_equal(equality: Equality) -> bool
    ensures { result ≡ is_equal equality }
{
    match equality {
        Equality::Equal => true,
        Equality::NotEqual => false,
    }
}

/// Executes if_acmpeq or if_acmpne.
#[inline(always)]
pub fn compare(machine: &mut Machine, equality: Equality, target: u16) -> Flow
    requires index { machine.old.stack.frame.index + 1 < 2 ^ 64 }
    requires fits { NotStuck (if_same (is_equal equality) target machine.old) }
    ensures does { Does (if_same (is_equal equality) target machine.old) result machine.new }
    ensures method { machine.new.stack.frame.method ≡ machine.old.stack.frame.method }
{
    match equality {
        Equality::Equal => machine.if_same(true, target),
        Equality::NotEqual => machine.if_same(false, target),
    }
}

/// Executes an instruction from pop to swap.
#[inline(always)]
pub fn rearrange(machine: &mut Machine, operation: StackOperation) -> Flow
    requires index { machine.old.stack.frame.index + 1 < 2 ^ 64 }
    requires fits { NotStuck (rearrange operation machine.old) }
    ensures does { Does (rearrange operation machine.old) result machine.new }
    ensures method { machine.new.stack.frame.method ≡ machine.old.stack.frame.method }
{
    match operation {
        StackOperation::Pop => machine.pop_one(),
        StackOperation::Pop2 => machine.pop_two(),
        StackOperation::Dup => machine.dup(),
        StackOperation::DupX1 => machine.dup_x1(),
        StackOperation::DupX2 => machine.dup_x2(),
        StackOperation::Dup2 => machine.dup2(),
        StackOperation::Dup2X1 => machine.dup2_x1(),
        StackOperation::Dup2X2 => machine.dup2_x2(),
        StackOperation::Swap => machine.swap(),
    }
}

/// Executes newarray of int, iaload, iastore or arraylength.
#[inline(always)]
pub fn act_on_array(machine: &mut Machine, operation: ArrayOperation) -> Flow
    requires index { machine.old.stack.frame.index + 1 < 2 ^ 64 }
    requires fits { NotStuck (act_on_array operation machine.old) }
    ensures does { Does (act_on_array operation machine.old) result machine.new }
    ensures method { machine.new.stack.frame.method ≡ machine.old.stack.frame.method }
{
    match operation {
        ArrayOperation::New => machine.new_array(),
        ArrayOperation::Load => machine.array_load(),
        ArrayOperation::Store => machine.array_store(),
        ArrayOperation::Length => machine.array_length(),
    }
}

/// Executes ireturn or areturn. The heap stays with areturn, where a task that ends leaves what it
/// returns.
#[inline(always)]
pub fn return_value(machine: &mut Machine, kind: ValueKind) -> Flow
    requires fits { NotStuck (return_value kind machine.old) }
    ensures does { Does (return_value kind machine.old) result machine.new }
    ensures heap { kind ≡ ValueKind.Reference → machine.new.heap ≡ machine.old.heap }
    ensures method { result ≢ Flow.Goes }
{
    match kind {
        ValueKind::Int => machine.return_int(),
        ValueKind::Reference => machine.return_reference(),
    }
}

/// Executes tableswitch or lookupswitch, by the switch of an index of the running method.
#[inline(always)]
pub fn switch(machine: &mut Machine, linked: &Linked, index: u16) -> Flow
    requires fits { NotStuck (switch_of linked.now index machine.old) }
    ensures does { Does (switch_of linked.now index machine.old) result machine.new }
    ensures method { machine.new.stack.frame.method ≡ machine.old.stack.frame.method }
{
    let switch = find(linked, machine.stack.method(), index);
    go_by(machine, switch)
}

// The switch of an index of a method.
#[inline(always)]
fn find(linked: &Linked, method: u32, index: u16) -> &LinkedSwitch
    requires { IsSome (switch_at linked.now method index) }
    ensures { switch_at linked.now method index ≡ Some result.now }
{
    match &linked.linked_method(MethodId(method)).code {
        Some(code) => &code.switches.as_slice()[index as usize],
        None => unreachable!(),
    }
}

#[inline(always)]
fn go_by(machine: &mut Machine, switch: &LinkedSwitch) -> Flow
    requires fits { NotStuck (switch_by switch.now machine.old) }
    ensures does { Does (switch_by switch.now machine.old) result machine.new }
    ensures method { machine.new.stack.frame.method ≡ machine.old.stack.frame.method }
{
    match switch {
        LinkedSwitch::Table {
            default,
            low,
            targets,
        } => machine.table_switch(*default, *low, targets.as_slice()),
        LinkedSwitch::Lookup {
            default,
            keys,
            targets,
        } => machine.lookup_switch(*default, keys.as_slice(), targets.as_slice()),
    }
}
