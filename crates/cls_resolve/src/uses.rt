//! What instructions on constants and classes use, and the rules that they break.

ghost use Rattle.std.specs.Prelude.{◌≡◌, ◌≢◌, ◌↔◌, ◌<◌, ◌⊎◌, IfOk, IsSome, IsTrue, Some, length};
ghost use Rattle.cf_pool.specs.Pools.{integer_at};
ghost use Rattle.cf_reader.specs.declared.class_file.Field.{Field};
ghost use Rattle.cf_reader.specs.declared.class_file.Method as methods;
ghost use Rattle.cls_set.specs.Rules.{Has};
ghost use Rattle.cls_search.specs.FieldSearches.{field_at};
ghost use Rattle.cls_resolve.specs.Access as access;
ghost use Rattle.cls_resolve.specs.Checks.{broken_of};
ghost use Rattle.cls_resolve.specs.Entries.{AreKnown};
ghost use Rattle.cls_resolve.specs.LinkRules as spec;
ghost use Rattle.cls_resolve.specs.LinkRules.{order, IsFirstBroken};
ghost use Rattle.cls_resolve.specs.Meanings.{field_of, static_value, IsTypeAt};

use super::access::flags_of;
use super::known::KnownEntries;
use super::meanings::{ClassMeaning, field, known_class};
use super::references::Asked;
use super::{CastType, LinkRule, MemberIndex};
use cf_insns::ClassOperation;
use cls_search::FieldIndex;
use cls_set::{ClassId, ClassSet, Flags, Method, Pool};

// The constant pool of a class.
pub(crate) fn pool_of(set: &ClassSet, class: ClassId) -> &Pool
    requires { class.0 < length set.now }
    ensures { result.now ≡ spec.pool_of set.now class }
{
    &set.class(class).file.pool
}

/// Returns the int that ldc or ldc_w pushes in code of the class `user`, or the rule that it
/// breaks: `WrongRefKind`.
pub fn constant_use(set: &ClassSet, user: ClassId, index: u16) -> Result<i32, LinkRule>
    requires { user.0 < length set.now }
    ensures broken { (method : methods.Method) → IsFirstBroken set.now (record { class = user; method = method; asked = Asked.Constant; index = index }) order (broken_of result) }
    ensures value { IfOk result (λ value. integer_at (spec.pool_of set.now user) index ≡ Some value) }
{
    match pool_of(set, user).integer(index) {
        Some(value) => Ok(value),
        None => Err(LinkRule::WrongRefKind),
    }
}

// Whether an instruction makes an object of a class that can have none of its own.
fn makes_abstract(set: &ClassSet, operation: ClassOperation, class: ClassId) -> bool
    requires { class.0 < length set.now }
    ensures { IsTrue result ↔ ((operation ≡ ClassOperation.New) × (Has (access.flags_of set.now class) Flags.ABSTRACT ⊎ Has (access.flags_of set.now class) Flags.INTERFACE)) }
{
    let flags = flags_of(set, class);
    operation == ClassOperation::New && (flags.has(Flags::ABSTRACT) || flags.has(Flags::INTERFACE))
}

// Whether an instruction takes an array type, which may be `[I`.
fn takes_array(operation: ClassOperation, is_of_ints: bool) -> bool
    ensures { IsTrue result ↔ ((operation ≢ ClassOperation.New) × IsTrue is_of_ints) }
{
    operation != ClassOperation::New && is_of_ints
}

/// Returns the type that an instruction on a class or an array type names in code of the class
/// `user`, or the first rule that it breaks: `AbsentClass`, `WrongRefKind`, `Access`, `Abstract`. A
/// class that is known is not looked for again, and one that is looked for is known if there is room.
pub fn class_use(
    set: &ClassSet,
    user: ClassId,
    operation: ClassOperation,
    index: u16,
    known: &mut KnownEntries,
) -> Result<CastType, LinkRule>
    requires user { user.0 < length set.now }
    requires known { AreKnown set.now known.old }
    ensures broken { (method : methods.Method) → IsFirstBroken set.now (record { class = user; method = method; asked = Asked.Class operation; index = index }) order (broken_of result) }
    ensures named { IfOk result (IsTypeAt set.now user index) }
    ensures made { operation ≡ ClassOperation.New → IfOk result (λ type. type ≢ CastType.IntArray) }
    ensures known { AreKnown set.now known.new }
{
    match known_class(set, user, index, known) {
        ClassMeaning::NoEntry => Err(LinkRule::WrongRefKind),
        ClassMeaning::Array { is_of_ints } => {
            if takes_array(operation, is_of_ints) {
                return Ok(CastType::IntArray);
            }
            Err(LinkRule::WrongRefKind)
        }
        ClassMeaning::Absent => Err(LinkRule::AbsentClass),
        ClassMeaning::Class {
            class,
            is_accessible,
        } => {
            if !is_accessible {
                return Err(LinkRule::Access);
            }
            if makes_abstract(set, operation, class) {
                return Err(LinkRule::Abstract);
            }
            Ok(CastType::Class(class))
        }
    }
}

/// Returns the value of a static field: that of its ConstantValue attribute, or else 0 (JVMS 2.3,
/// 4.7.2).
pub fn value_of(set: &ClassSet, member: MemberIndex) -> i32
    requires { IsSome (field_at set.now (field_of member)) }
    ensures { (f : Field) → field_at set.now (field_of member) ≡ Some f → result ≡ static_value f }
{
    let id = FieldIndex {
        class: member.class,
        index: usize::from(member.index),
    };
    field(set, id).constant.unwrap_or(0)
}
