//! Instructions as `javap -c` prints them.

use crate::{Shown, mnemonic};
use cf_insns::{ArrayOperation, Insn, SwitchCase, opcode};
use cf_pool::{MemberKind, MemberRef, Pool, Row};
use cf_reader::ClassFile;
use std::alloc::AllocError;

/// Writes an instruction of a class: its mnemonic and its operands as `javap` prints them, with what an index names
/// after `//`. `code` are the bytes of the method's code, and the instruction stands there at the offset.
pub fn write_instruction(
    page: &mut String,
    class: &ClassFile,
    code: &[u8],
    at: u16,
    insn: &Insn,
) -> Result<(), AllocError> {
    let spelled = spelled_at(code, at);
    let name = mnemonic(spelled.opcode).unwrap_or("?");
    write!(page, "{at}: {name}")?;
    if spelled.is_wide {
        page.push_str("_w")?;
    }
    write_operands(page, class, spelled, at, insn)
}

// How an instruction is spelled: its opcode, which may stand after `wide`.
#[derive(Clone, Copy)]
struct SpelledOpcode {
    opcode: u8,
    is_wide: bool,
}

fn spelled_at(code: &[u8], at: u16) -> SpelledOpcode {
    let index = at as usize;
    let opcode = code.get(index).copied().unwrap_or(opcode::NOP);
    if opcode != opcode::WIDE {
        return SpelledOpcode {
            opcode,
            is_wide: false,
        };
    }
    SpelledOpcode {
        opcode: code.get(index + 1).copied().unwrap_or(opcode::NOP),
        is_wide: true,
    }
}

fn write_operands(
    page: &mut String,
    class: &ClassFile,
    spelled: SpelledOpcode,
    at: u16,
    insn: &Insn,
) -> Result<(), AllocError> {
    let pool = &class.pool;
    match insn {
        Insn::Constant(value) => write_constant(page, spelled.opcode, *value),
        Insn::LoadConstant(index) => write_loaded(page, pool, *index),
        Insn::Load(_, local) | Insn::Store(_, local) => write_local(page, spelled, *local),
        Insn::Increment { local, by } => write!(page, " {local}, {by}"),
        Insn::Array(ArrayOperation::New) => page.push_str(" int"),
        Insn::If { branch, .. } | Insn::IfCompare { branch, .. } => {
            write_target(page, at, *branch)
        }
        Insn::IfSame { branch, .. } | Insn::IfNull { branch, .. } => {
            write_target(page, at, *branch)
        }
        Insn::Goto { branch } => write_target(page, at, *branch),
        Insn::TableSwitch {
            default,
            low,
            branches,
        } => { write_table(page, at, *low, branches, *default) }
        Insn::LookupSwitch { default, cases } => write_cases(page, at, cases, *default),
        Insn::Field(_, index) | Insn::Invoke(_, index) => {
            write!(page, " #{index}")?;
            write_member(page, class, *index)
        }
        Insn::InvokeInterface { index, count } => {
            write!(page, " #{index},  {count}")?;
            write_member(page, class, *index)
        }
        Insn::Class(_, index) => write_class(page, pool, *index),
        _ => Ok(()),
    }
}

// bipush and sipush tell their int; the other opcodes have it in their names.
fn write_constant(page: &mut String, opcode: u8, value: i32) -> Result<(), AllocError> {
    if opcode == opcode::BIPUSH || opcode == opcode::SIPUSH {
        write!(page, " {value}")
    } else {
        Ok(())
    }
}

fn write_loaded(page: &mut String, pool: &Pool, index: u16) -> Result<(), AllocError> {
    write!(page, " #{index}")?;
    match pool.integer(index) {
        Some(value) => write!(page, " // int {value}"),
        None => Ok(()),
    }
}

// The short forms have the number of the local variable in their names.
fn write_local(page: &mut String, spelled: SpelledOpcode, local: u16) -> Result<(), AllocError> {
    let is_short = (opcode::ILOAD_0..=opcode::ALOAD_3).contains(&spelled.opcode)
        || (opcode::ISTORE_0..=opcode::ASTORE_3).contains(&spelled.opcode);
    if is_short {
        Ok(())
    } else {
        write!(page, " {local}")
    }
}

fn write_target(page: &mut String, at: u16, branch: i32) -> Result<(), AllocError> {
    let target = at as i64 + branch as i64;
    write!(page, " {target}")
}

fn write_table(
    page: &mut String,
    at: u16,
    low: i32,
    branches: &Row<i32>,
    default: i32,
) -> Result<(), AllocError> {
    page.push_str(" {")?;
    for (index, branch) in branches.as_slice().iter().enumerate() {
        write_case(page, at, (low as i64).saturating_add(index as i64), *branch)?;
    }
    write_default(page, at, default)
}

fn write_cases(
    page: &mut String,
    at: u16,
    cases: &Row<SwitchCase>,
    default: i32,
) -> Result<(), AllocError> {
    page.push_str(" {")?;
    for case in cases.as_slice() {
        write_case(page, at, case.key as i64, case.branch)?;
    }
    write_default(page, at, default)
}

fn write_case(page: &mut String, at: u16, key: i64, branch: i32) -> Result<(), AllocError> {
    write!(page, " {key}:")?;
    write_target(page, at, branch)?;
    page.push_str(",")
}

fn write_default(page: &mut String, at: u16, branch: i32) -> Result<(), AllocError> {
    page.push_str(" default:")?;
    write_target(page, at, branch)?;
    page.push_str(" }")
}

fn write_class(page: &mut String, pool: &Pool, index: u16) -> Result<(), AllocError> {
    write!(page, " #{index}")?;
    match pool.class(index) {
        Some(name) => write!(page, " // class {}", Shown(name.as_bytes())),
        None => Ok(()),
    }
}

fn write_member(page: &mut String, class: &ClassFile, index: u16) -> Result<(), AllocError> {
    match class.pool.member(index) {
        Some(member) => write_named(page, class, member),
        None => Ok(()),
    }
}

// As `javap`: the class is left out if it is the one in which the code stands.
fn write_named(
    page: &mut String,
    class: &ClassFile,
    member: MemberRef<'_>,
) -> Result<(), AllocError> {
    page.push_str(match member.kind {
        MemberKind::Field => " // Field ",
        MemberKind::Method => " // Method ",
        MemberKind::InterfaceMethod => " // InterfaceMethod ",
    })?;
    if !member.class.is(class.name.as_bytes()) {
        write!(page, "{}.", Shown(member.class.as_bytes()))?;
    }
    if member.name.is(b"<init>") {
        page.push_str("\"<init>\"")?;
    } else {
        write!(page, "{}", Shown(member.name.as_bytes()))?;
    }
    write!(page, ":{}", Shown(member.descriptor.as_bytes()))
}
