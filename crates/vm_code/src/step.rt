//! The instructions of linked code (JVMS 6.5), each by the function of its group.
ghost use Rattle.std.specs.Prelude.{◌≡◌, ◌+◌, ◌<◌, ◌^◌};
ghost use Rattle.vm_act.specs.Next.{NotStuck, Does};
ghost use Rattle.vm_code.specs.Act.{act};

use crate::calls::{call, call_interface};
use crate::casts::{check_cast, instance_of, throw_top};
use crate::fields::{get_field, new_object, put_field};
use crate::ints::{binary, if_compare, if_zero, unary};
use crate::operands::{
    act_on_array, compare, is_equal, rearrange, return_value, switch, word_kind,
};
use cls_link::{Linked, LinkedInsn, ValueKind};
use cls_tables::Tables;
use vm_act::{Flow, Machine};

/// Executes an instruction of the running method, and returns what it did. The heap stays with
/// areturn, where a task that ends leaves what it returns.
// By reference, so that each arm reads the fields that it needs and no other.
#[inline(always)]
pub fn act(machine: &mut Machine, linked: &Linked, tables: &Tables, insn: &LinkedInsn) -> Flow
    requires index { machine.old.stack.frame.index + 1 < 2 ^ 64 }
    requires tables { tables.now ≡ linked.now }
    requires fits { NotStuck (act linked.now insn.now machine.old) }
    ensures does { Does (act linked.now insn.now machine.old) result machine.new }
    ensures heap { insn.now ≡ LinkedInsn.ReturnValue ValueKind.Reference → machine.new.heap ≡ machine.old.heap }
    ensures method { result ≡ Flow.Goes → machine.new.stack.frame.method ≡ machine.old.stack.frame.method }
{
    let set = linked.set();
    match insn {
        LinkedInsn::Nop => machine.go_on(),
        LinkedInsn::Null => machine.null(),
        LinkedInsn::Constant(n) => machine.constant(*n),
        LinkedInsn::Load(kind, local) => machine.load(word_kind(*kind), *local),
        LinkedInsn::Store(kind, local) => machine.store(word_kind(*kind), *local),
        LinkedInsn::Increment { local, by } => machine.increment(*local, *by),
        LinkedInsn::Stack(operation) => rearrange(machine, *operation),
        LinkedInsn::Unary(operator) => unary(machine, *operator),
        LinkedInsn::Binary(operator) => binary(machine, *operator),
        LinkedInsn::Array(operation) => act_on_array(machine, *operation),
        LinkedInsn::If { condition, target } => if_zero(machine, *condition, *target),
        LinkedInsn::IfCompare { condition, target } => if_compare(machine, *condition, *target),
        LinkedInsn::IfSame { equality, target } => compare(machine, *equality, *target),
        LinkedInsn::IfNull { equality, target } => machine.if_null(is_equal(*equality), *target),
        LinkedInsn::Goto { target } => machine.branch(true, *target),
        LinkedInsn::Switch(index) => switch(machine, linked, *index),
        LinkedInsn::ReturnValue(kind) => return_value(machine, *kind),
        LinkedInsn::Return => machine.return_nothing(),
        LinkedInsn::Throw => throw_top(machine),
        LinkedInsn::GetField { field, .. } => get_field(machine, linked, tables, *field),
        LinkedInsn::PutField { field, .. } => put_field(machine, linked, tables, *field),
        LinkedInsn::Invoke {
            kind,
            class,
            method,
        } => call(machine, linked, tables, *kind, *class, *method),
        LinkedInsn::InvokeInterface { class, method, .. } => {
            call_interface(machine, linked, tables, *class, *method)
        }
        LinkedInsn::New(class) => new_object(machine, linked, tables, *class),
        LinkedInsn::CheckCast(asked) => check_cast(machine, set, *asked),
        LinkedInsn::InstanceOf(asked) => instance_of(machine, set, *asked),
    }
}
