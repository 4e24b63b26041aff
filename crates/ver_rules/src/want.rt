//! What an instruction asks of an operand or of a local variable (JVMS 4.10.1.9).

ghost use Rattle.std.specs.Prelude.{◌≡◌};
ghost use Rattle.ver_rules.specs.Wants.{is_int, is_object, is_reference, is_uninitialized, is_wanted, is_word, kind_wanted, operand_fault, wants_object};

use super::{CheckRule, ClassId, ClassSet, VType, ValueKind};
use ver_frames::assignable;

/// What an instruction asks of an operand or of a local variable.
#[derive(Clone, Copy, Debug, PartialEq, Eq)]
pub enum Want {
    Int,
    /// Any single word.
    Word,
    /// A reference, also to an object that is not initialized.
    Reference,
    /// What may stand for java/lang/Object: null, a class or an array.
    Initialized,
    /// What may stand for the type.
    Fits(VType),
    /// What may stand for the class, or the receiver of an `<init>` that is not initialized.
    FitsOrThis(ClassId),
}

// Whether a type is int.
fn is_int(kind: VType) -> bool
    ensures { result ≡ is_int kind }
{
    matches!(kind, VType::Int)
}

// Whether a type is that of a single word.
fn is_word(kind: VType) -> bool
    ensures { result ≡ is_word kind }
{
    !matches!(kind, VType::Top)
}

/// Returns whether a type is that of a reference: null, a class, an array, or an object that is not
/// initialized.
pub fn is_reference(kind: VType) -> bool
    ensures { result ≡ is_reference kind }
{
    !matches!(kind, VType::Top | VType::Int)
}

// Whether a type may stand for java/lang/Object.
fn is_object(kind: VType) -> bool
    ensures { result ≡ is_object kind }
{
    matches!(kind, VType::Null | VType::Object(_) | VType::IntArray)
}

// Whether a type is that of an object that is not initialized.
fn is_uninitialized(kind: VType) -> bool
    ensures { result ≡ is_uninitialized kind }
{
    matches!(kind, VType::Uninitialized(_) | VType::UninitializedThis)
}

// Whether a type is the one asked, or the receiver that is not initialized.
#[tactic(auto, unfolding(crate::specs::Wants::is_wanted))]
fn fits_or_this(classes: &ClassSet, class: ClassId, kind: VType) -> bool
    ensures { result ≡ is_wanted classes.now (Want.FitsOrThis class) kind }
{
    match kind {
        VType::UninitializedThis => true,
        _ => assignable(classes, kind, VType::Object(class)),
    }
}

/// Returns whether a type is what is asked.
#[tactic(auto, unfolding(crate::specs::Wants::is_wanted))]
pub fn is_wanted(classes: &ClassSet, want: Want, kind: VType) -> bool
    ensures { result ≡ is_wanted classes.now want kind }
{
    match want {
        Want::Int => is_int(kind),
        Want::Word => is_word(kind),
        Want::Reference => is_reference(kind),
        Want::Initialized => is_object(kind),
        Want::Fits(asked) => assignable(classes, kind, asked),
        Want::FitsOrThis(class) => fits_or_this(classes, class, kind),
    }
}

/// Returns what a load, a store or a return of a kind asks.
pub fn kind_wanted(kind: ValueKind) -> Want
    ensures { result ≡ kind_wanted kind }
{
    match kind {
        ValueKind::Int => Want::Int,
        ValueKind::Reference => Want::Reference,
    }
}

// Whether an initialized reference is asked.
fn wants_object(want: Want) -> bool
    ensures { result ≡ wants_object want }
{
    match want {
        Want::Int | Want::Word | Want::Reference => false,
        Want::Initialized | Want::FitsOrThis(_) => true,
        Want::Fits(asked) => is_object(asked),
    }
}

/// Returns the broken rule if the operand is not what is asked: `Uninitialized` if an initialized
/// reference is asked and the operand is an object that is not, else `Mismatch`.
pub fn operand_fault(want: Want, kind: VType) -> CheckRule
    ensures { result ≡ operand_fault want kind }
{
    if wants_object(want) && is_uninitialized(kind) {
        return CheckRule::Uninitialized;
    }
    CheckRule::Mismatch
}
