//! The effect of each instruction on a frame (JVMS 4.10.1.9).

ghost use Rattle.std.specs.Prelude.{◌≡◌};
ghost use Rattle.cls_link.specs.declared.linked_code.LinkedInsn.TheVariants.{GetField, Increment, Invoke, InvokeInterface, PutField};
ghost use Rattle.ver_check.specs.Effects.{array_effect, cast_vtype, effect, reference_result, return_int, return_nothing, return_reference, throwable};
ghost use Rattle.ver_check.specs.Makes.{Makes};

use super::body::BodyView;
use super::members::{field_at, method_at};
use super::stop::Stop;
use super::{
    ArrayOperation, CastType, CheckRule, ClassId, InvokeKind, LinkedInsn, MemberIndex, TypeFrame,
    VType, ValueKind,
};
use ver_rules::{Want, is_reference};

// The type of a method's result, if that is a reference.
fn reference_result(kind: Option<VType>) -> Option<VType>
    ensures { result ≡ reference_result kind }
{
    match kind {
        Some(kind) if is_reference(kind) => Some(kind),
        _ => None,
    }
}

// The type that a cast names.
fn cast_vtype(kind: CastType) -> VType
    ensures { result ≡ cast_vtype kind }
{
    match kind {
        CastType::Class(class) => VType::Object(class),
        CastType::IntArray => VType::IntArray,
    }
}

impl BodyView<'_> {
    // The type of the method's result, if there is one.
    fn result_type(&self) -> Option<VType>
        ensures { result ≡ self.now.result }
    {
        let method = self.method;
        method.result_type()
    }

    // The type of what is thrown.
    fn throwable(&self) -> VType
        ensures { result ≡ throwable self.now.classes }
    {
        let method = self.method;
        match method.classes.number(b"java/lang/Throwable") {
            Some(class) => VType::Object(class),
            None => VType::Top,
        }
    }

    // newarray, iaload, iastore, arraylength.
    #[tactic(auto, unfolding(crate::specs::Effects::array_effect))]
    fn use_array(&self, frame: &mut TypeFrame, operation: ArrayOperation) -> Result<(), Stop>
        ensures { Makes (λ _. frame.new) result (array_effect self.now operation frame.old) }
    {
        match operation {
            ArrayOperation::New => {
                self.take(frame, Want::Int)?;
                self.give(frame, VType::IntArray)
            }
            ArrayOperation::Load => {
                self.take(frame, Want::Int)?;
                self.take(frame, Want::Fits(VType::IntArray))?;
                self.give(frame, VType::Int)
            }
            ArrayOperation::Store => {
                self.take(frame, Want::Int)?;
                self.take(frame, Want::Int)?;
                self.take(frame, Want::Fits(VType::IntArray))
            }
            ArrayOperation::Length => {
                self.take(frame, Want::Fits(VType::IntArray))?;
                self.give(frame, VType::Int)
            }
        }
    }

    // ireturn.
    #[tactic(auto, unfolding(crate::specs::Effects::return_int))]
    fn return_int(&self, frame: &mut TypeFrame) -> Result<(), Stop>
        ensures { Makes (λ _. frame.new) result (return_int self.now frame.old) }
    {
        self.take(frame, Want::Int)?;
        match self.result_type() {
            Some(VType::Int) => Ok(()),
            _ => Err(Stop::Broken(CheckRule::Return)),
        }
    }

    // areturn.
    #[tactic(auto, unfolding(crate::specs::Effects::return_reference))]
    fn return_reference(&self, frame: &mut TypeFrame) -> Result<(), Stop>
        ensures { Makes (λ _. frame.new) result (return_reference self.now frame.old) }
    {
        if let Some(kind) = reference_result(self.result_type()) {
            return self.take(frame, Want::Fits(kind));
        }
        self.take(frame, Want::Reference)?;
        Err(Stop::Broken(CheckRule::Return))
    }

    // return.
    #[tactic(auto, unfolding(crate::specs::Effects::return_nothing))]
    fn return_nothing(&self, frame: &TypeFrame) -> Result<(), Stop>
        ensures { Makes (λ _. frame.now) result (return_nothing self.now frame.now) }
    {
        if frame.flag_this_uninit() {
            return Err(Stop::Broken(CheckRule::Uninitialized));
        }
        if self.result_type().is_some() {
            return Err(Stop::Broken(CheckRule::Return));
        }
        Ok(())
    }

    // getfield.
    #[tactic(auto, unfolding(crate::specs::Effects::effect))]
    fn read_field(
        &self,
        frame: &mut TypeFrame,
        at: u16,
        class: ClassId,
        field: MemberIndex,
    ) -> Result<(), Stop>
        ensures { Makes (λ _. frame.new) result (effect self.now at (GetField class field) frame.old) }
    {
        let method = self.method;
        match field_at(method.classes, field) {
            Some(field) => self.get_field(frame, class, field),
            None => Err(Stop::Broken(CheckRule::Mismatch)),
        }
    }

    // putfield.
    #[tactic(auto, unfolding(crate::specs::Effects::effect))]
    fn write_field(
        &self,
        frame: &mut TypeFrame,
        at: u16,
        class: ClassId,
        member: MemberIndex,
    ) -> Result<(), Stop>
        ensures { Makes (λ _. frame.new) result (effect self.now at (PutField class member) frame.old) }
    {
        let method = self.method;
        match field_at(method.classes, member) {
            Some(field) => self.put_field(frame, class, member, field),
            None => Err(Stop::Broken(CheckRule::Mismatch)),
        }
    }

    // invokevirtual, invokespecial, invokestatic.
    #[tactic(auto, unfolding(crate::specs::Effects::effect))]
    fn invoke(
        &self,
        frame: &mut TypeFrame,
        at: u16,
        kind: InvokeKind,
        class: ClassId,
        method: MemberIndex,
    ) -> Result<(), Stop>
        ensures { Makes (λ _. frame.new) result (effect self.now at (Invoke kind class method) frame.old) }
    {
        let current = self.method;
        match method_at(current.classes, method) {
            Some(callee) => self.call(frame, kind, class, callee),
            None => Err(Stop::Broken(CheckRule::Mismatch)),
        }
    }

    // invokeinterface.
    #[tactic(auto, unfolding(crate::specs::Effects::effect))]
    fn invoke_interface(
        &self,
        frame: &mut TypeFrame,
        at: u16,
        count: u8,
        class: ClassId,
        method: MemberIndex,
    ) -> Result<(), Stop>
        ensures { Makes (λ _. frame.new) result (effect self.now at (InvokeInterface count class method) frame.old) }
    {
        let current = self.method;
        match method_at(current.classes, method) {
            Some(callee) => self.call_interface(frame, count, class, callee),
            None => Err(Stop::Broken(CheckRule::Mismatch)),
        }
    }

    // Makes the effect of the instruction at an offset.
    #[tactic(auto, unfolding(crate::specs::Effects::effect))]
    pub(crate) fn apply(&self, frame: &mut TypeFrame, at: u16, insn: LinkedInsn) -> Result<(), Stop>
        ensures { Makes (λ _. frame.new) result (effect self.now at insn frame.old) }
    {
        match insn {
            LinkedInsn::Nop | LinkedInsn::Goto { .. } => Ok(()),
            LinkedInsn::Null => self.give(frame, VType::Null),
            LinkedInsn::Constant(_) => self.give(frame, VType::Int),
            LinkedInsn::Load(kind, local) => self.load(frame, kind, local),
            LinkedInsn::Store(kind, local) => self.store(frame, kind, local),
            LinkedInsn::Increment { local, .. } => self.increment(frame, local),
            LinkedInsn::Stack(operation) => self.rearrange(frame, operation),
            LinkedInsn::Unary(_) => self.replace(frame, Want::Int, VType::Int),
            LinkedInsn::Binary(_) => self.combine(frame),
            LinkedInsn::Array(operation) => self.use_array(frame, operation),
            LinkedInsn::If { .. } | LinkedInsn::Switch(_) => self.take(frame, Want::Int),
            LinkedInsn::IfCompare { .. } => self.take_two(frame, Want::Int),
            LinkedInsn::IfSame { .. } => self.take_two(frame, Want::Reference),
            LinkedInsn::IfNull { .. } => self.take(frame, Want::Reference),
            LinkedInsn::ReturnValue(ValueKind::Int) => self.return_int(frame),
            LinkedInsn::ReturnValue(ValueKind::Reference) => self.return_reference(frame),
            LinkedInsn::Return => self.return_nothing(frame),
            LinkedInsn::Throw => self.take(frame, Want::Fits(self.throwable())),
            LinkedInsn::GetField { class, field } => self.read_field(frame, at, class, field),
            LinkedInsn::PutField { class, field } => self.write_field(frame, at, class, field),
            LinkedInsn::Invoke {
                kind,
                class,
                method,
            } => self.invoke(frame, at, kind, class, method),
            LinkedInsn::InvokeInterface {
                count,
                class,
                method,
            } => self.invoke_interface(frame, at, count, class, method),
            LinkedInsn::New(_) => self.make_new(frame, at),
            LinkedInsn::CheckCast(kind) => self.replace(frame, Want::Initialized, cast_vtype(kind)),
            LinkedInsn::InstanceOf(_) => self.replace(frame, Want::Initialized, VType::Int),
        }
    }
}
