//! The rules on code.

ghost use Rattle.std.specs.Prelude.{Some};
ghost use Rattle.cls_resolve.specs.RuleNames.{link_rule_number, link_rule_name};

use cf_insns::CodeRule;
use cls_set::Numbered;
use std::fmt;
use thiserror::Error;

/// A rule on the code of the methods of a class set (JVMS 4.9.1, 5.4.3, 5.4.4, 6.5) or of this project's profile.
#[derive(Clone, Copy, Debug, PartialEq, Eq, Error)]
pub enum LinkRule {
    /// The bytes of the code are no instructions.
    Code(CodeRule),
    /// No class that is looked at declares the field.
    AbsentField,
    /// No class that is looked at declares the method.
    AbsentMethod,
    /// The class or the member is not accessible.
    Access,
    /// A static member where the instruction asks for one of an instance, or the other way round.
    StaticMismatch,
    /// A final field is written outside an `<init>` of its class.
    FinalField,
    /// `new` of an abstract class or of an interface.
    Abstract,
    /// The entry of the constant pool is of a kind that the instruction does not take.
    WrongRefKind,
    /// The named class is not in the set.
    AbsentClass,
    /// invokevirtual of a private method.
    PrivateVirtual,
}

impl fmt::Display for LinkRule {
    ghost output = { λ rule. Some (link_rule_name rule) };

    fn fmt<W: fmt::Write>(&self, f: &mut fmt::Formatter<W>) -> fmt::Result {
        match self {
            LinkRule::Code(rule) => rule.fmt(f),
            LinkRule::AbsentField => f.write_str("AbsentField"),
            LinkRule::AbsentMethod => f.write_str("AbsentMethod"),
            LinkRule::Access => f.write_str("Access"),
            LinkRule::StaticMismatch => f.write_str("StaticMismatch"),
            LinkRule::FinalField => f.write_str("FinalField"),
            LinkRule::Abstract => f.write_str("Abstract"),
            LinkRule::WrongRefKind => f.write_str("WrongRefKind"),
            LinkRule::AbsentClass => f.write_str("AbsentClass"),
            LinkRule::PrivateVirtual => f.write_str("PrivateVirtual"),
        }
    }
}

impl Numbered for LinkRule {
    ghost number = { link_rule_number };

    fn number(&self) -> u8 {
        match self {
            LinkRule::Code(rule) => rule.number(),
            LinkRule::AbsentField => 40,
            LinkRule::AbsentMethod => 41,
            LinkRule::Access => 42,
            LinkRule::StaticMismatch => 43,
            LinkRule::FinalField => 44,
            LinkRule::Abstract => 45,
            LinkRule::WrongRefKind => 46,
            LinkRule::AbsentClass => 47,
            LinkRule::PrivateVirtual => 48,
        }
    }
}
