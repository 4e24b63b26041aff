//! The effect of the instructions on fields and methods, and of `new` (JVMS 4.10.1.9).

ghost use Rattle.std.specs.Prelude.{◌≡◌, ◌==◌, MatchOption, None, Some, suc};
ghost use Rattle.ver_check.specs.Members.{field_at, is_init, method_at};

use super::body::BodyView;
use super::stop::Stop;
use super::{
    CheckRule, ClassId, ClassSet, Field, FieldType, InvokeKind, MemberIndex, Method, Shared,
    TypeChange, TypeFrame, VType,
};
use ver_frames::{assignable, field_vtype};
use ver_rules::Want;

// The field that a class declares, by its index.
pub(crate) fn field_at(classes: &ClassSet, member: MemberIndex) -> Option<&Field>
    ensures { MatchOption result (field_at classes.now member ≡ None) (λ field. field_at classes.now member ≡ Some field.now) }
{
    if usize::from(member.class.0) >= classes.len() {
        return None;
    }
    let class = classes.class(member.class);
    class.file.fields.as_slice().get(usize::from(member.index))
}

// The method that a class declares, by its index.
pub(crate) fn method_at(classes: &ClassSet, member: MemberIndex) -> Option<&Method>
    ensures { MatchOption result (method_at classes.now member ≡ None) (λ method. method_at classes.now member ≡ Some method.now) }
{
    if usize::from(member.class.0) >= classes.len() {
        return None;
    }
    let class = classes.class(member.class);
    class.file.methods.as_slice().get(usize::from(member.index))
}

// Whether a method is an `<init>`.
fn is_init(method: &Method) -> bool
    ensures { result ≡ is_init method.now }
{
    method.name.is(b"<init>")
}

// Whether a count is that of a receiver and of these arguments.
fn counts_receiver(count: u8, arguments: usize) -> bool
    ensures { result ≡ (count == suc arguments) }
{
    count > 0 && usize::from(count) - 1 == arguments
}

impl BodyView<'_> {
    ghost use Rattle.std.specs.Prelude.{◌≡◌};
    ghost use Rattle.cf_text.specs.declared.types.FieldType.{FieldType};
    ghost use Rattle.ver_check.specs.Makes.{Makes};
    ghost use Rattle.ver_check.specs.Members.{call, call_interface, call_special, call_static, call_super, call_virtual, construct, get_field, give_result, is_made_of, is_own_field, is_own_init, is_own_superclass, make_new, put_field, take_arguments, this_initialized, written_object};
    ghost use Rattle.ver_check.specs.Steps.{give, take};
    ghost use Rattle.ver_frames.specs.AssignableTest.{is_assignable};
    ghost use Rattle.ver_frames.specs.Types.{field_vtype};
    ghost use Rattle.ver_frames.specs.declared.vtype.VType.TheVariants.{Object};

    // The verification type of a field type.
    fn vtype(&self, kind: &FieldType) -> VType
        ensures { result ≡ field_vtype self.now.classes kind.now }
    {
        let method = self.method;
        field_vtype(method.classes, kind)
    }

    // Takes a value of a field type off the top.
    fn take_value(&self, frame: &mut TypeFrame, kind: &FieldType) -> Result<(), Stop>
        ensures { Makes (λ _. frame.new) result (take self.now (Want.Fits (field_vtype self.now.classes kind.now)) frame.old) }
    {
        self.take(frame, Want::Fits(self.vtype(kind)))
    }

    // getfield.
    #[tactic(auto, unfolding(crate::specs::Members::get_field))]
    pub(crate) fn get_field(
        &self,
        frame: &mut TypeFrame,
        class: ClassId,
        field: &Field,
    ) -> Result<(), Stop>
        ensures { Makes (λ _. frame.new) result (get_field self.now class field.now frame.old) }
    {
        let object = Want::Fits(VType::Object(class));
        self.take(frame, object)?;
        self.give(frame, self.vtype(&field.kind))
    }

    // Whether this is an `<init>`.
    fn is_in_init(&self) -> bool
        ensures { result ≡ self.now.is_init }
    {
        let method = self.method;
        is_init(method.method)
    }

    // The number of the class whose method is checked.
    fn class_id(&self) -> ClassId
        ensures { result ≡ self.now.class_id }
    {
        let method = self.method;
        method.class_id
    }

    // Whether a field is written that the class of this `<init>` declares.
    fn is_own_field(&self, member: MemberIndex) -> bool
        ensures { result ≡ is_own_field self.now member }
    {
        self.is_in_init() && member.class == self.class_id()
    }

    // What is asked of the object whose field is written.
    fn written_object(&self, class: ClassId, member: MemberIndex) -> Want
        ensures { result ≡ written_object self.now class member }
    {
        if self.is_own_field(member) {
            return Want::FitsOrThis(class);
        }
        Want::Fits(VType::Object(class))
    }

    // putfield.
    #[tactic(auto, unfolding(crate::specs::Members::put_field))]
    pub(crate) fn put_field(
        &self,
        frame: &mut TypeFrame,
        class: ClassId,
        member: MemberIndex,
        field: &Field,
    ) -> Result<(), Stop>
        ensures { Makes (λ _. frame.new) result (put_field self.now class member field.now frame.old) }
    {
        self.take_value(frame, &field.kind)?;
        self.take(frame, self.written_object(class, member))
    }

    // new, at an offset.
    #[tactic(auto, unfolding(crate::specs::Members::make_new))]
    pub(crate) fn make_new(&self, frame: &mut TypeFrame, at: u16) -> Result<(), Stop>
        ensures { Makes (λ _. frame.new) result (make_new self.now at frame.old) }
    {
        if frame.has_made_at(at) {
            return Err(Stop::Broken(CheckRule::Uninitialized));
        }
        frame.change_locals(TypeChange::MadeAgain(at));
        self.give(frame, VType::Uninitialized(at))
    }

    // Takes the arguments of a method off the top, the last first.
    #[tactic(auto, unfolding(crate::specs::Members::arguments_of))]
    fn take_arguments(&self, frame: &mut TypeFrame, callee: &Method) -> Result<(), Stop>
        ensures { Makes (λ _. frame.new) result (take_arguments self.now callee.now frame.old) }
    {
        let parameters = &callee.types.parameters;
        let mut count = parameters.len();
        while count > 0 {
            count -= 1;
            self.take_value(frame, &parameters[count])?;
        }
        Ok(())
    }

    // Puts the result of a method on top.
    #[tactic(auto, unfolding(crate::specs::Members::give_result))]
    fn give_result(&self, frame: &mut TypeFrame, callee: &Method) -> Result<(), Stop>
        ensures { Makes (λ _. frame.new) result (give_result self.now callee.now frame.old) }
    {
        match &callee.types.result {
            Some(kind) => self.give(frame, self.vtype(kind)),
            None => Ok(()),
        }
    }

    // invokestatic.
    #[tactic(auto, unfolding(crate::specs::Members::call_static))]
    fn call_static(&self, frame: &mut TypeFrame, callee: &Method) -> Result<(), Stop>
        ensures { Makes (λ _. frame.new) result (call_static self.now callee.now frame.old) }
    {
        self.take_arguments(frame, callee)?;
        self.give_result(frame, callee)
    }

    // invokevirtual.
    #[tactic(auto, unfolding(crate::specs::Members::call_virtual))]
    fn call_virtual(
        &self,
        frame: &mut TypeFrame,
        class: ClassId,
        callee: &Method,
    ) -> Result<(), Stop>
        ensures { Makes (λ _. frame.new) result (call_virtual self.now class callee.now frame.old) }
    {
        self.take_arguments(frame, callee)?;
        self.take(frame, Want::Fits(VType::Object(class)))?;
        self.give_result(frame, callee)
    }

    // invokeinterface.
    #[tactic(auto, unfolding(crate::specs::Members::call_interface))]
    pub(crate) fn call_interface(
        &self,
        frame: &mut TypeFrame,
        count: u8,
        class: ClassId,
        callee: &Method,
    ) -> Result<(), Stop>
        ensures { Makes (λ _. frame.new) result (call_interface self.now count class callee.now frame.old) }
    {
        self.take_arguments(frame, callee)?;
        self.take(frame, Want::Fits(VType::Object(class)))?;
        let parameters = &callee.types.parameters;
        if !counts_receiver(count, parameters.len()) {
            return Err(Stop::Broken(CheckRule::Mismatch));
        }
        self.give_result(frame, callee)
    }

    // Whether the current class may stand for the named class.
    fn may_stand_for(&self, class: ClassId) -> bool
        ensures { result ≡ is_assignable self.now.classes (Object self.now.class_id) (Object class) }
    {
        let method = self.method;
        assignable(
            method.classes,
            VType::Object(method.class_id),
            VType::Object(class),
        )
    }

    // invokespecial of another method than `<init>`.
    #[tactic(auto, unfolding(crate::specs::Members::call_super))]
    fn call_super(&self, frame: &mut TypeFrame, class: ClassId, callee: &Method) -> Result<(), Stop>
        ensures { Makes (λ _. frame.new) result (call_super self.now class callee.now frame.old) }
    {
        self.take_arguments(frame, callee)?;
        self.take(frame, Want::Fits(VType::Object(self.class_id())))?;
        if !self.may_stand_for(class) {
            return Err(Stop::Broken(CheckRule::Mismatch));
        }
        self.give_result(frame, callee)
    }

    // Whether the `new` at an offset names the class.
    fn is_made_of(&self, offset: u16, class: ClassId) -> bool
        ensures { result ≡ is_made_of self.now offset class }
    {
        let method = self.method;
        match method.made_at(offset) {
            Some(made) => made == class,
            None => false,
        }
    }

    // Whether the class is the direct superclass of the current class.
    fn is_superclass(&self, class: ClassId) -> bool
        ensures { result ≡ is_own_superclass self.now class }
    {
        let method = self.method;
        let classes = method.classes;
        if usize::from(method.class_id.0) >= classes.len() {
            return false;
        }
        match classes.class(method.class_id).superclass {
            Some(up) => up == class,
            None => false,
        }
    }

    // Whether the class is the current class or its direct superclass.
    fn is_own_init(&self, class: ClassId) -> bool
        ensures { result ≡ is_own_init self.now class }
    {
        class == self.class_id() || self.is_superclass(class)
    }

    // The receiver is initialized, in every copy.
    fn initialize_this(&self, frame: &mut TypeFrame)
        ensures { frame.new ≡ this_initialized self.now frame.old }
    {
        frame.change(TypeChange::ThisInitialized(self.class_id()));
        frame.clear_flag();
    }

    // invokespecial of an `<init>`, whose arguments are off the stack.
    #[tactic(auto, unfolding(crate::specs::Members::construct))]
    fn construct(&self, frame: &mut TypeFrame, class: ClassId) -> Result<(), Stop>
        ensures { Makes (λ _. frame.new) result (construct self.now class frame.old) }
    {
        match frame.pop() {
            None => Err(Stop::Broken(CheckRule::Underflow)),
            Some(VType::Uninitialized(offset)) if self.is_made_of(offset, class) => {
                frame.change(TypeChange::Initialized(offset, class));
                Ok(())
            }
            Some(VType::UninitializedThis) if self.is_own_init(class) => {
                self.initialize_this(frame);
                Ok(())
            }
            Some(_) => Err(Stop::Broken(CheckRule::Mismatch)),
        }
    }

    // invokespecial.
    #[tactic(auto, unfolding(crate::specs::Members::call_special))]
    fn call_special(
        &self,
        frame: &mut TypeFrame,
        class: ClassId,
        callee: &Method,
    ) -> Result<(), Stop>
        ensures { Makes (λ _. frame.new) result (call_special self.now class callee.now frame.old) }
    {
        if !is_init(callee) {
            return self.call_super(frame, class, callee);
        }
        self.take_arguments(frame, callee)?;
        self.construct(frame, class)
    }

    // invokevirtual, invokespecial, invokestatic.
    #[tactic(auto, unfolding(crate::specs::Members::call))]
    pub(crate) fn call(
        &self,
        frame: &mut TypeFrame,
        kind: InvokeKind,
        class: ClassId,
        callee: &Method,
    ) -> Result<(), Stop>
        ensures { Makes (λ _. frame.new) result (call self.now kind class callee.now frame.old) }
    {
        match kind {
            InvokeKind::Virtual => self.call_virtual(frame, class, callee),
            InvokeKind::Special => self.call_special(frame, class, callee),
            InvokeKind::Static => self.call_static(frame, callee),
        }
    }
}
