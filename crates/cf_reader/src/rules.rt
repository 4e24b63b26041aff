//! Which access flags go together (JVMS 4.1, 4.5, 4.6).

ghost use Rattle.std.specs.Prelude.{◌≡◌};
ghost use Rattle.cf_reader.specs.Rules.{class_flags_fit, field_flags_fit, has_fitting_body, has_one_access, is_fitting_initializer, method_flags_fit};

use super::Flags;

#[tactic(auto, unfolding(crate::specs::Rules::has_one_access))]
fn has_one_access(flags: Flags) -> bool
    ensures { result ≡ has_one_access flags.bits }
{
    let public = flags.has(Flags::PUBLIC);
    let private = flags.has(Flags::PRIVATE);
    let protected = flags.has(Flags::PROTECTED);
    !(public && private) && !(public && protected) && !(private && protected)
}

#[tactic(auto, unfolding(crate::specs::Rules::class_flags_fit))]
pub(crate) fn class_flags_fit(flags: Flags) -> bool
    ensures { result ≡ class_flags_fit flags.bits }
{
    if flags.has(Flags::INTERFACE) {
        flags.has(Flags::ABSTRACT) && !flags.has(Flags::FINAL) && !flags.has(Flags::SUPER)
    } else {
        !(flags.has(Flags::FINAL) && flags.has(Flags::ABSTRACT))
    }
}

#[tactic(auto, unfolding(crate::specs::Rules::field_flags_fit))]
pub(crate) fn field_flags_fit(is_in_interface: bool, flags: Flags) -> bool
    ensures { result ≡ field_flags_fit is_in_interface flags.bits }
{
    has_one_access(flags)
        && !(flags.has(Flags::FINAL) && flags.has(Flags::VOLATILE))
        && (!is_in_interface
            || (flags.has(Flags::PUBLIC)
                && flags.has(Flags::STATIC)
                && flags.has(Flags::FINAL)
                && !flags.has(Flags::TRANSIENT)))
}

#[tactic(auto, unfolding(crate::specs::Rules::has_fitting_body))]
fn has_fitting_body(class: Flags, has_code: bool, flags: Flags) -> bool
    ensures { result ≡ has_fitting_body class.bits has_code flags.bits }
{
    if !flags.has(Flags::ABSTRACT) {
        return has_code;
    }
    !has_code
        && (class.has(Flags::ABSTRACT) || class.has(Flags::INTERFACE))
        && !flags.has(Flags::PRIVATE)
        && !flags.has(Flags::STATIC)
        && !flags.has(Flags::FINAL)
        && !flags.has(Flags::SYNCHRONIZED)
        && !flags.has(Flags::NATIVE)
        && !flags.has(Flags::STRICT)
}

#[tactic(auto, unfolding(crate::specs::Rules::is_fitting_initializer))]
fn is_fitting_initializer(class: Flags, flags: Flags) -> bool
    ensures { result ≡ is_fitting_initializer class.bits flags.bits }
{
    !class.has(Flags::INTERFACE)
        && !flags.has(Flags::STATIC)
        && !flags.has(Flags::FINAL)
        && !flags.has(Flags::SYNCHRONIZED)
        && !flags.has(Flags::BRIDGE)
        && !flags.has(Flags::NATIVE)
        && !flags.has(Flags::ABSTRACT)
}

#[tactic(auto, unfolding(crate::specs::Rules::method_flags_fit))]
pub(crate) fn method_flags_fit(
    class: Flags,
    has_code: bool,
    is_initializer: bool,
    flags: Flags,
) -> bool
    ensures { result ≡ method_flags_fit class.bits has_code is_initializer flags.bits }
{
    has_one_access(flags)
        && has_fitting_body(class, has_code, flags)
        && (!is_initializer || is_fitting_initializer(class, flags))
}
