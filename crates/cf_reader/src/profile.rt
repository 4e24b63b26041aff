//! This project's profile: what it leaves out of the standard.

ghost use Rattle.std.specs.Prelude.{◌≡◌};
ghost use Rattle.std.specs.List.{list_all};
ghost use Rattle.cf_reader.specs.Profile.{class_flags_in_profile, field_flags_in_profile, handlers_in_profile, is_int_type, is_profile_type, method_flags_in_profile, method_name_in_profile, method_type_in_profile};

use super::Flags;
use cf_pool::{CLASS_INITIALIZER, ElementType, FieldType, Text};
use cf_text::{ReadDescriptor, Shared};

#[tactic(auto, unfolding(crate::specs::Profile::class_flags_in_profile))]
pub(crate) fn class_flags_in_profile(flags: Flags) -> bool
    ensures { result ≡ class_flags_in_profile flags.bits }
{
    !flags.has(Flags::ANNOTATION) && !flags.has(Flags::ENUM)
}

#[tactic(auto, unfolding(crate::specs::Profile::is_int_type))]
pub(crate) fn is_int_type(kind: &FieldType) -> bool
    ensures { result ≡ is_int_type kind.now }
{
    kind.dimensions == 0 && matches!(kind.element, ElementType::Int | ElementType::Boolean)
}

#[tactic(auto, unfolding(crate::specs::Profile::field_flags_in_profile))]
pub(crate) fn field_flags_in_profile(is_int: bool, has_constant: bool, flags: Flags) -> bool
    ensures { result ≡ field_flags_in_profile is_int has_constant flags.bits }
{
    !flags.has(Flags::PROTECTED)
        && !flags.has(Flags::ENUM)
        && (!flags.has(Flags::STATIC) || (flags.has(Flags::FINAL) && is_int && has_constant))
}

// Of fields, parameters and results: int, boolean, a class, an array of ints.
#[tactic(auto, unfolding(crate::specs::Profile::is_profile_type))]
pub(crate) fn is_profile_type(kind: &FieldType) -> bool
    ensures { result ≡ is_profile_type kind.now }
{
    match kind.dimensions {
        0 => matches!(
            kind.element,
            ElementType::Int | ElementType::Boolean | ElementType::Class(_)
        ),
        1 => matches!(kind.element, ElementType::Int),
        _ => false,
    }
}

#[tactic(auto, unfolding(crate::specs::Profile::method_flags_in_profile))]
pub(crate) fn method_flags_in_profile(class: Flags, flags: Flags) -> bool
    ensures { result ≡ method_flags_in_profile class.bits flags.bits }
{
    !flags.has(Flags::PROTECTED)
        && !flags.has(Flags::SYNCHRONIZED)
        && !flags.has(Flags::NATIVE)
        && (!class.has(Flags::INTERFACE)
            || (flags.has(Flags::PUBLIC) && flags.has(Flags::ABSTRACT)))
}

#[tactic(auto, unfolding(crate::specs::Profile::method_name_in_profile))]
pub(crate) fn method_name_in_profile(name: &Text) -> bool
    ensures { result ≡ method_name_in_profile name.now }
{
    name.as_bytes() != CLASS_INITIALIZER
}

fn are_profile_types(kinds: &[Shared<FieldType>]) -> bool
    ensures { result ≡ list_all is_profile_type kinds.now }
{
    for kind in kinds {
        if !is_profile_type(kind) {
            return false;
        }
    }
    true
}

#[tactic(auto, unfolding(crate::specs::Profile::method_type_in_profile))]
pub(crate) fn method_type_in_profile(kind: &ReadDescriptor) -> bool
    ensures { result ≡ method_type_in_profile kind.now }
{
    let result_fits = match &kind.result {
        None => true,
        Some(result) => is_profile_type(result),
    };
    are_profile_types(kind.parameters.as_slice()) && result_fits
}

#[tactic(auto, unfolding(crate::specs::Profile::handlers_in_profile))]
pub(crate) fn handlers_in_profile(count: u16) -> bool
    ensures { result ≡ handlers_in_profile count }
{
    count == 0
}
