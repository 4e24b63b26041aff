//! The classes that the members of a class mention: those that their descriptors name.

ghost use Rattle.std.specs.Prelude.{◌↔◌, IsTrue};
ghost use Rattle.std.specs.List.{Any};
ghost use Rattle.cf_reader.specs.declared.class_file.Field.{Field};
ghost use Rattle.cf_reader.specs.declared.class_file.Method.{Method};
ghost use Rattle.cls_order.specs.Building.{DescriptorNamesAbsent, MembersNameAbsent, NamesAbsent};
ghost use Rattle.cls_order.specs.Classes.{names};
ghost use Rattle.cls_order.specs.Entries.{classes_of, AreOrdered};

use super::entries::{Entry, find};
use cf_reader::{
    ClassFile, ElementType, Field, FieldType, Method, MethodDescriptor, Parameters, Shared,
};

// Whether a type names a class that is not in the set.
fn is_absent(entries: &[Entry], kind: &FieldType) -> bool
    requires { AreOrdered entries.now }
    ensures { IsTrue result ↔ NamesAbsent (names (classes_of entries.now)) kind.now }
{
    match &kind.element {
        ElementType::Class(name) => find(entries, name.as_bytes()).is_none(),
        _ => false,
    }
}

fn is_type_absent(entries: &[Entry], kind: &Shared<FieldType>) -> bool
    requires { AreOrdered entries.now }
    ensures { IsTrue result ↔ NamesAbsent (names (classes_of entries.now)) kind.now }
{
    is_absent(entries, kind)
}

fn is_one_absent(entries: &[Entry], kinds: &Parameters) -> bool
    requires { AreOrdered entries.now }
    ensures { IsTrue result ↔ Any (NamesAbsent (names (classes_of entries.now))) kinds.now }
{
    kinds.iter().any(|kind| is_absent(entries, kind))
}

fn descriptor_names_absent(entries: &[Entry], types: &MethodDescriptor) -> bool
    requires { AreOrdered entries.now }
    ensures { IsTrue result ↔ DescriptorNamesAbsent (names (classes_of entries.now)) types.now }
{
    match &types.result {
        Some(kind) if is_type_absent(entries, kind) => true,
        _ => is_one_absent(entries, &types.parameters),
    }
}

fn fields_name_absent(entries: &[Entry], fields: &[Field]) -> bool
    requires { AreOrdered entries.now }
    ensures { IsTrue result ↔ Any (λ (field : Field). NamesAbsent (names (classes_of entries.now)) field.kind) fields.now }
{
    fields.iter().any(|field| is_absent(entries, &field.kind))
}

fn methods_name_absent(entries: &[Entry], methods: &[Method]) -> bool
    requires { AreOrdered entries.now }
    ensures { IsTrue result ↔ Any (λ (method : Method). DescriptorNamesAbsent (names (classes_of entries.now)) method.types) methods.now }
{
    methods
        .iter()
        .any(|method| descriptor_names_absent(entries, &method.types))
}

// Whether the descriptor of a member names a class that is not in the set.
pub(crate) fn members_name_absent(entries: &[Entry], file: &ClassFile) -> bool
    requires { AreOrdered entries.now }
    ensures { IsTrue result ↔ MembersNameAbsent (names (classes_of entries.now)) file.now }
{
    fields_name_absent(entries, file.fields.as_slice())
        || methods_name_absent(entries, file.methods.as_slice())
}
