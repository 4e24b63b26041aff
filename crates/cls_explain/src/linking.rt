//! Why a method's code does not link.

use crate::code::{KnownCode, known_code};
use crate::known::{ClassSource, KnownClasses};
use crate::members::{write_field, write_methods_named};
use crate::nearest::NearestNames;
use cf_disassembly::Shown;
use cf_explain::advice_on;
use cf_insns::{ClassOperation, CodeRule, Insn};
use cf_pool::{MemberKind, MemberRef, Pool};
use cf_reader::ClassFile;
use cls_link::{LinkFault, LinkRule};
use std::alloc::{AllocError, Global};

/// Returns what a fault of linking these class files means, and what to change, in lines. `AllocError` if memory runs
/// out.
pub fn explain_link(
    alloc: Global,
    sources: &[ClassSource<'_>],
    fault: &LinkFault,
) -> Result<String, AllocError> {
    let LinkFault::Broken {
        rule,
        class,
        method,
        descriptor,
        at,
    } = fault
    else {
        return Err(AllocError);
    };
    let mut page = String::new(alloc);
    let known = KnownClasses::new(alloc, sources)?;
    let Some(holder) = known.read_class(class.as_bytes()) else {
        return Ok(page);
    };
    if let Some(code) = known_code(alloc, holder, method.as_bytes(), descriptor.as_bytes())? {
        code.write_place(&mut page, *at)?;
        write_rule(alloc, &mut page, &known, &code, *rule, *at)?;
    }
    Ok(page)
}

fn write_rule(
    alloc: Global,
    page: &mut String,
    known: &KnownClasses<'_>,
    code: &KnownCode<'_>,
    rule: LinkRule,
    at: u16,
) -> Result<(), AllocError> {
    match rule {
        LinkRule::Code(rule) => write_code_rule(page, code, rule, at),
        LinkRule::AbsentClass => write_absent_class(alloc, page, known, code, at),
        LinkRule::AbsentField => write_absent_field(alloc, page, known, code, at),
        LinkRule::AbsentMethod => write_absent_method(alloc, page, known, code, at),
        LinkRule::WrongRefKind => write_wrong_kind(page, code, at),
        _ => page.push_str(asked_by(rule)),
    }
}

fn asked_by(rule: LinkRule) -> &'static str {
    match rule {
        LinkRule::Access =>
            "  The class or the member is private, or of another package and not public.\n  Change: make it public, or call it from its own class. Classes of different compilations do not fit if it was public when this one was compiled.\n",
        LinkRule::StaticMismatch =>
            "  The member is static and the instruction takes one of an instance, or the other way round: the classes are of different compilations.\n  Change: compile all sources together.\n",
        LinkRule::FinalField =>
            "  The field is final, and is written outside a constructor of its class.\n  Change: compile all sources together, or leave `final` out.\n",
        LinkRule::Abstract =>
            "  No object can be made of an abstract class or of an interface.\n  Change: compile all sources together, and make an object of a class below it.\n",
        LinkRule::PrivateVirtual =>
            "  invokevirtual calls a private method. javac does so from Java 11 on.\n  Change: compile with `javac --release 8`, or leave `private` out.\n",
        _ => "",
    }
}

// Code that cannot be decoded.
fn write_code_rule(
    page: &mut String,
    code: &KnownCode<'_>,
    rule: CodeRule,
    at: u16,
) -> Result<(), AllocError> {
    match rule {
        CodeRule::OutOfProfile => match code.opcode(at) {
            Some(opcode) => page.push_str(left_out(opcode)),
            None => Ok(()),
        },
        CodeRule::Opcode => page.push_str("  The standard has no such opcode.\n"),
        CodeRule::Cut => page.push_str("  The code ends inside this instruction.\n"),
        CodeRule::Padding => page.push_str(
            "  The fourth operand of invokeinterface has to be 0.\n",
        ),
        CodeRule::Keys => page.push_str("  The keys of the switch do not rise.\n"),
        CodeRule::Target => page.push_str(
            "  It branches to an offset at which no instruction begins.\n",
        ),
    }
}

// What the profile leaves out, by opcodes (JVMS 6.5).
fn left_out(opcode: u8) -> &'static str {
    match opcode {
        186 =>
            "  invokedynamic: a lambda, a method reference, or, in classes of Java 9 and later, texts that are joined by `+`.\n  Change: write a class that implements your own interface in place of a lambda; leave texts out.\n",
        188 | 189 | 197 =>
            "  It makes an array that is no int[]. Of arrays there is int[] alone.\n  Change: use an int[] in its place, row by row for a table; link objects by fields, as a list does.\n",
        50 | 83 =>
            "  It uses an array of references. Of arrays there is int[] alone.\n  Change: link objects by fields, as a list does.\n",
        51..=53 | 84..=86 =>
            "  It uses an array of boolean, byte, char or short. Of arrays there is int[] alone.\n  Change: use an int[] in its place.\n",
        179 =>
            "  It writes a static field: the profile has constants alone.\n  Change: hold the value in a field of an object that methods are passed.\n",
        194 | 195 =>
            "  A synchronized block.\n  Change: leave it out. There are no locks: between two instructions of a call others may run, on the same object too.\n",
        168 | 169 | 201 =>
            "  A subroutine, as compilers before Java 6 wrote for `finally`.\n  Change: compile with `javac --release 8`.\n",
        196 => "  `wide` stands before an opcode that it does not take.\n",
        _ =>
            "  It computes with long, float or double: the profile has int and boolean.\n  Change: use int; split a long into two ints.\n",
    }
}

// What an instruction names: a class, or a member and its class.
fn named_class<'a>(pool: &'a Pool, insn: &Insn) -> Option<&'a [u8]> {
    match insn {
        Insn::Class(_, index) => Some(pool.class(*index)?.as_bytes()),
        _ => Some(named_member(pool, insn)?.class.as_bytes()),
    }
}

fn named_member<'a>(pool: &'a Pool, insn: &Insn) -> Option<MemberRef<'a>> {
    match insn {
        Insn::Field(_, index) | Insn::Invoke(_, index) | Insn::InvokeInterface { index, .. } => {
            pool.member(*index)
        }
        _ => None,
    }
}

fn write_absent_class(
    alloc: Global,
    page: &mut String,
    known: &KnownClasses<'_>,
    code: &KnownCode<'_>,
    at: u16,
) -> Result<(), AllocError> {
    let Some(insn) = code.insn(at) else {
        return Ok(());
    };
    match named_class(&code.class.pool, insn) {
        Some(name) => {
            writeln!(page, "  The set has no class {}.", Shown(name))?;
            write_near_classes(alloc, page, known, name)?;
            writeln!(page, "  Change: {}", advice_on(name))
        }
        None => Ok(()),
    }
}

/// Writes which classes have names near to one that is absent.
pub fn write_near_classes(
    alloc: Global,
    page: &mut String,
    known: &KnownClasses<'_>,
    name: &[u8],
) -> Result<(), AllocError> {
    let mut nearest = NearestNames::new(alloc, name);
    for other in &known.classes {
        nearest.add(other.class.file().name.as_bytes())?;
    }
    nearest.write(page)
}

fn write_absent_field(
    alloc: Global,
    page: &mut String,
    known: &KnownClasses<'_>,
    code: &KnownCode<'_>,
    at: u16,
) -> Result<(), AllocError> {
    let Some(member) = member_at(code, at) else {
        return Ok(());
    };
    write_missing(page, "field", " ", member)?;
    let mut nearest = NearestNames::new(alloc, member.name.as_bytes());
    for class in known.supertypes(alloc, member.class.as_bytes())? {
        for field in class.fields.as_slice() {
            nearest.add(field.name.as_bytes())?;
            if field.name.is(member.name.as_bytes()) {
                page.push_str("  It has, of another type: ")?;
                write_field(page, field)?;
                page.push_str("\n")?;
            }
        }
    }
    nearest.write(page)?;
    page.push_str(COMPILE_TOGETHER)
}

const COMPILE_TOGETHER: &str = "  Change: compile all sources together, into one empty folder.\n";

fn member_at<'a>(code: &'a KnownCode<'_>, at: u16) -> Option<MemberRef<'a>> {
    named_member(&code.class.pool, code.insn(at)?)
}

fn write_missing(
    page: &mut String,
    kind: &str,
    gap: &str,
    member: MemberRef<'_>,
) -> Result<(), AllocError> {
    writeln!(
        page,
        "  {} and what it inherits from have no {kind} {}{gap}{}.",
        Shown(member.class.as_bytes()),
        Shown(member.name.as_bytes()),
        Shown(member.descriptor.as_bytes())
    )
}

fn write_absent_method(
    alloc: Global,
    page: &mut String,
    known: &KnownClasses<'_>,
    code: &KnownCode<'_>,
    at: u16,
) -> Result<(), AllocError> {
    let Some(member) = member_at(code, at) else {
        return Ok(());
    };
    write_missing(page, "method", "", member)?;
    let name = member.name.as_bytes();
    let mut nearest = NearestNames::new(alloc, name);
    for class in known.supertypes(alloc, member.class.as_bytes())? {
        add_methods(&mut nearest, class)?;
        if is_named_there(class, name) {
            writeln!(page, "  {} has of this name:", Shown(class.name.as_bytes()))?;
            write_methods_named(page, class, name)?;
        }
    }
    nearest.write(page)?;
    if known.read_class(member.class.as_bytes()).is_some() && !is_of_object(name) {
        return page.push_str(COMPILE_TOGETHER);
    }
    page.push_str(
        "  Change: built-in classes have no method but a constructor without parameters: leave the call out, or write the method in a class of your own.\n",
    )
}

fn add_methods<'a>(nearest: &mut NearestNames<'a>, class: &'a ClassFile) -> Result<(), AllocError> {
    for method in class.methods.as_slice() {
        nearest.add(method.name.as_bytes())?;
    }
    Ok(())
}

fn is_named_there(class: &ClassFile, name: &[u8]) -> bool {
    for method in class.methods.as_slice() {
        if method.name.is(name) {
            return true;
        }
    }
    false
}

// Methods that Object has in the Java library.
fn is_of_object(name: &[u8]) -> bool {
    let names: [&[u8]; 8] = [
        b"hashCode",
        b"equals",
        b"toString",
        b"getClass",
        b"clone",
        b"notify",
        b"wait",
        b"finalize",
    ];
    for other in &names {
        if *other == name {
            return true;
        }
    }
    false
}

// What stands in the entry of the pool that an instruction does not take.
fn write_wrong_kind(page: &mut String, code: &KnownCode<'_>, at: u16) -> Result<(), AllocError> {
    let Some(insn) = code.insn(at) else {
        return Ok(());
    };
    match insn {
        Insn::LoadConstant(_) => page.push_str(
            "  The constant is a text, a class, or a float: the profile has int constants.\n  Change: leave the text out. Exceptions take none: write `new ArithmeticException()`.\n",
        ),
        Insn::Class(ClassOperation::New, _) => page.push_str("  `new` takes a class.\n"),
        Insn::Class(..) => page.push_str(
            "  It names an array that is no int[]. Of arrays there is int[] alone.\n  Change: use an int[], or an object that links others by fields.\n",
        ),
        _ => match member_at(code, at) {
            Some(member) => write_wrong_member(page, member),
            None => page.push_str(
                "  The index names no member of the kind that the instruction takes.\n",
            ),
        },
    }
}

fn write_wrong_member(page: &mut String, member: MemberRef<'_>) -> Result<(), AllocError> {
    let class = member.class.as_bytes();
    if class.starts_with(b"[") {
        return page.push_str(
            "  It calls a method of an array, as `clone()`.\n  Change: copy the array by a loop.\n",
        );
    }
    match member.kind {
        MemberKind::InterfaceMethod => page.push_str(
            "  It calls a static, default or private method of an interface, or names a class as an interface.\n  Change: move the method into a class, or compile all sources together.\n",
        ),
        _ => page.push_str(
            "  It names an interface as a class, or an `<init>` where none may stand.\n  Change: compile all sources together.\n",
        ),
    }
}
