//! A method with code, and the frame in which it begins (JVMS 4.10.1.6).

ghost use Rattle.std.specs.Prelude.{◌≡◌, IfOk};
ghost use Rattle.std.specs.List.Sorted.{IsStrictlyIncreasing};
ghost use Rattle.cls_link.specs.Targets.{index_from};
ghost use Rattle.ver_frames.specs.Made.{new_class};
ghost use Rattle.ver_frames.specs.Types.{field_vtype, element_type};

use super::{TypeFrame, VType};
use cls_link::{LinkedCode, LinkedInsn};
use cls_set::{Class, ClassId, ClassSet, Code, ElementType, FieldType, Flags, Method, Shared};
use std::alloc::{AllocError, Global};
use std::marker::Model;

/// A method with code, as checking sees it. A contract sees it as the record of what it refers to.
#[derive(Drop)]
pub struct MethodView<'a> {
    /// The set that its class stands in, under this number.
    pub classes: &'a ClassSet,
    pub class_id: ClassId,
    pub class: &'a Class,
    pub method: &'a Method,
    pub code: &'a Code,
    pub linked: &'a LinkedCode,
}

impl<'a> Model for MethodView<'a> {
    ghost use Rattle.ver_frames.specs.Method.{Subject};

    ghost Value = { Subject };

    ghost view = { λ m. record {
      classes = m.classes.now;
      class_id = m.class_id;
      class = m.class.now;
      method = m.method.now;
      code = m.code.now;
      linked = m.linked.now;
    } };
}

impl MethodView<'_> {
    ghost use Rattle.std.specs.Prelude.{◌≡◌, IfOk};
    ghost use Rattle.std.specs.List.Sorted.{IsStrictlyIncreasing};
    ghost use Rattle.ver_frames.specs.Made.{made_at};
    ghost use Rattle.ver_frames.specs.Method.{begins_uninit, argument_types, opening, result_type};

    /// Returns whether its receiver is not initialized as it begins.
    #[tactic(auto, unfolding(crate::specs::Method::begins_uninit))]
    pub fn begins_uninit(&self) -> bool
        ensures { result ≡ begins_uninit self.now }
    {
        !self.method.flags.has(Flags::STATIC)
            && !self.class.is_built_in
            && self.method.name.is(b"<init>")
    }

    /// Returns the types of the receiver and the parameters, which are the first local variables.
    #[tactic(auto, unfolding(crate::specs::Method::receiver_types, crate::specs::Method::argument_types))]
    pub fn argument_types(&self, alloc: Global) -> Result<Vec<VType>, AllocError>
        ensures { IfOk result (λ types. types.items ≡ argument_types self.now) }
    {
        let mut types = Vec::new(alloc);
        if !self.method.flags.has(Flags::STATIC) {
            types.push(if self.begins_uninit() {
                VType::UninitializedThis
            } else {
                VType::Object(self.class_id)
            })?;
        }
        let parameters = &self.method.types.parameters;
        for index in 0..parameters.len() {
            types.push(field_vtype(self.classes, &parameters[index]))?;
        }
        Ok(types)
    }

    /// Returns the frame in which it begins.
    #[tactic(auto, unfolding(crate::specs::Method::opening))]
    pub fn opening(&self, alloc: Global) -> Result<TypeFrame, AllocError>
        ensures { IfOk result (λ frame. frame ≡ opening self.now) }
    {
        let locals = self.argument_types(alloc)?;
        Ok(TypeFrame::new(
            self.code.max_locals,
            locals,
            Vec::new(alloc),
            self.begins_uninit(),
        ))
    }

    /// Returns the class of which the `new` at an offset makes an object: `None` if no `new` stands
    /// there. Its time grows with the logarithm of the number of instructions.
    #[tactic(auto, unfolding(crate::specs::Made::made_at))]
    pub fn made_at(&self, offset: u16) -> Option<ClassId>
        // The offsets of the method's instructions rise.
        requires { IsStrictlyIncreasing self.now.linked.offsets }
        ensures { result ≡ made_at self.now.linked.insns self.now.linked.offsets offset }
    {
        let index = index_of(self.linked.offsets.as_slice(), offset)?;
        let insn = self.linked.insns.as_slice().get(index)?;
        new_class(*insn)
    }

    /// Returns the type of its result, if there is one.
    #[tactic(auto, unfolding(crate::specs::Method::result_type))]
    pub fn result_type(&self) -> Option<VType>
        ensures { result ≡ result_type self.now }
    {
        match &self.method.types.result {
            Some(kind) => Some(field_vtype(self.classes, kind)),
            None => None,
        }
    }
}

// The index of the instruction at an offset.
fn index_of(offsets: &[u16], offset: u16) -> Option<usize>
    requires { IsStrictlyIncreasing offsets.now }
    ensures { result ≡ index_from 0 offsets.now offset }
{
    match offsets.binary_search(&offset) {
        Ok(index) => Some(index),
        Err(_) => None,
    }
}

// The class that an instruction makes an object of.
fn new_class(insn: LinkedInsn) -> Option<ClassId>
    ensures { result ≡ new_class insn }
{
    match insn {
        LinkedInsn::New(class) => Some(class),
        _ => None,
    }
}

/// Returns the verification type of a field type (JVMS 4.10.1.2); one out of this project's profile
/// is top.
#[tactic(auto, unfolding(crate::specs::Types::field_vtype))]
pub fn field_vtype(classes: &ClassSet, kind: &FieldType) -> VType
    ensures { result ≡ field_vtype classes.now kind.now }
{
    match (kind.dimensions, &kind.element) {
        (0, element) => element_type(classes, element),
        (1, ElementType::Int) => VType::IntArray,
        _ => VType::Top,
    }
}

// The verification type of an element that is no array.
#[tactic(auto, unfolding(crate::specs::Types::element_type))]
fn element_type(classes: &ClassSet, element: &ElementType) -> VType
    ensures { result ≡ element_type classes.now element.now }
{
    match element {
        ElementType::Int | ElementType::Boolean => VType::Int,
        ElementType::Class(name) => match classes.number(name.as_bytes()) {
            Some(class) => VType::Object(class),
            None => VType::Top,
        },
        _ => VType::Top,
    }
}
