//! Why a method is not type safe: what the instruction finds, and what it asks.

use cf_disassembly::{
    CodeFrame, CodeWalk, HeldType, Shown, Wanted, falls_through, targets, wanted_by,
};
use cf_insns::Insn;
use cls_explain::{ClassSource, KnownClasses, KnownCode, known_code};
use std::alloc::{AllocError, Global};
use ver_rules::{CheckFault, CheckRule, StackMapRule};

/// Returns what a fault of checking these class files means, in lines. `AllocError` if memory runs out.
pub fn explain_check(
    alloc: Global,
    sources: &[ClassSource<'_>],
    fault: &CheckFault,
) -> Result<String, AllocError> {
    let CheckFault::Broken {
        rule,
        class,
        method,
        descriptor,
        at,
    } = fault
    else {
        return Err(AllocError);
    };
    let mut page = String::new(alloc);
    let known = KnownClasses::new(alloc, sources)?;
    let Some(holder) = known.read_class(class.as_bytes()) else {
        return Ok(page);
    };
    let Some(code) = known_code(alloc, holder, method.as_bytes(), descriptor.as_bytes())? else {
        return Ok(page);
    };
    if let Ok(offset) = u16::try_from(*at) {
        code.write_place(&mut page, offset)?;
        write_rule(alloc, &mut page, &known, &code, *rule, offset)?;
    }
    page.push_str(
        "  javac writes no such code: the class file was made or changed by another tool, or the classes are of different compilations.\n",
    )?;
    Ok(page)
}

fn write_rule(
    alloc: Global,
    page: &mut String,
    known: &KnownClasses<'_>,
    code: &KnownCode<'_>,
    rule: CheckRule,
    at: u16,
) -> Result<(), AllocError> {
    match rule {
        CheckRule::StackMap(rule) => page.push_str(frame_rule(rule)),
        CheckRule::NoFrame => page.push_str(
            "  No frame is declared at this offset, and one has to be: it is the target of a branch, or follows an instruction that does not go on to the next.\n",
        ),
        CheckRule::NotAssignable => write_not_assignable(alloc, page, known, code, at),
        CheckRule::FallsOff => page.push_str(
            "  The code ends after this instruction, which goes on to the next.\n",
        ),
        _ => write_operands(alloc, page, known, code, rule, at),
    }
}

fn frame_rule(rule: StackMapRule) -> &'static str {
    match rule {
        StackMapRule::Reserved => "  The StackMapTable has a frame with a reserved tag there.\n",
        StackMapRule::Chop =>
            "  A frame of the StackMapTable takes away more local variables there than there are.\n",
        StackMapRule::Locals =>
            "  A frame of the StackMapTable has more local variables or operands there than the method.\n",
        StackMapRule::Offset =>
            "  A frame of the StackMapTable stands at an offset at which no instruction begins.\n",
        StackMapRule::Kind =>
            "  A frame of the StackMapTable has an item there that is a float, double or long, that names no class of the set, or that names no `new`.\n",
    }
}

// The frame before an instruction, if one comes to it.
fn frame_before(
    alloc: Global,
    code: &KnownCode<'_>,
    at: u16,
) -> Result<Option<CodeFrame>, AllocError> {
    let mut walk = CodeWalk::new(alloc, code.class, code.method, code.code)?;
    walk_to(&mut walk, code, at)?;
    Ok(walk.frame.take())
}

fn walk_to(walk: &mut CodeWalk<'_>, code: &KnownCode<'_>, at: u16) -> Result<(), AllocError> {
    let from = walk.seek(at)?.unwrap_or(0);
    for (offset, insn) in &code.listing {
        if *offset >= at {
            break;
        }
        if *offset as u32 >= from {
            walk.leave(*offset, insn)?;
        }
    }
    Ok(())
}

// The frame that is declared at an offset.
fn declared_at(
    alloc: Global,
    code: &KnownCode<'_>,
    at: u16,
) -> Result<Option<CodeFrame>, AllocError> {
    let mut walk = CodeWalk::new(alloc, code.class, code.method, code.code)?;
    if walk.seek(at)? == Some(at as u32) {
        Ok(walk.frame.take())
    } else {
        Ok(None)
    }
}

// What an instruction finds, what it asks, and the first operand that does not fit.
fn write_operands(
    alloc: Global,
    page: &mut String,
    known: &KnownClasses<'_>,
    code: &KnownCode<'_>,
    rule: CheckRule,
    at: u16,
) -> Result<(), AllocError> {
    let (Some(frame), Some(insn)) = (frame_before(alloc, code, at)?, code.insn(at)) else {
        return Ok(());
    };
    writeln!(page, "  Before it: {frame}.")?;
    match rule {
        CheckRule::Overflow => write_room(page, code),
        CheckRule::Local => write_local(page, code, &frame, insn),
        CheckRule::Return => write_result(page, code),
        _ => {
            let wanted = wanted_by(alloc, &code.class.pool, code.method, insn)?;
            write_wanted(page, wanted.as_slice())?;
            write_first_misfit(alloc, page, known, wanted.as_slice(), &frame)
        }
    }
}

fn write_room(page: &mut String, code: &KnownCode<'_>) -> Result<(), AllocError> {
    let most = code.code.max_stack;
    writeln!(
        page,
        "  The method's stack has room for {most} operands (max_stack)."
    )
}

fn write_local(
    page: &mut String,
    code: &KnownCode<'_>,
    frame: &CodeFrame,
    insn: &Insn,
) -> Result<(), AllocError> {
    let number = match insn {
        Insn::Load(_, local) | Insn::Store(_, local) | Insn::Increment { local, .. } => *local,
        _ => 0,
    };
    let held = frame.local(number)?;
    let most = code.code.max_locals;
    writeln!(
        page,
        "  Local variable {number} holds: {held}. The method has {most} local variables (max_locals)."
    )
}

fn write_result(page: &mut String, code: &KnownCode<'_>) -> Result<(), AllocError> {
    let descriptor = Shown(code.method.descriptor.as_bytes());
    writeln!(
        page,
        "  The method's descriptor is {descriptor}: the instruction returns a result of another type, or none."
    )
}

fn write_wanted(page: &mut String, wanted: &[Wanted]) -> Result<(), AllocError> {
    page.push_str("  It takes, from the top of the stack:")?;
    for (index, asked) in wanted.iter().enumerate() {
        if index > 0 {
            page.push_str(",")?;
        }
        write!(page, " {asked}")?;
    }
    if wanted.is_empty() {
        page.push_str(" nothing")?;
    }
    page.push_str(".\n")
}

// Tells the first operand, from the top, that is not what is asked.
fn write_first_misfit(
    alloc: Global,
    page: &mut String,
    known: &KnownClasses<'_>,
    wanted: &[Wanted],
    frame: &CodeFrame,
) -> Result<(), AllocError> {
    let mut operands = frame.stack.as_slice().iter().rev();
    for (index, asked) in wanted.iter().enumerate() {
        let Some(held) = operands.next() else {
            return writeln!(page, "  The stack has {} operands.", frame.stack.len());
        };
        if !is_wanted(alloc, known, asked, held)? {
            return writeln!(
                page,
                "  Operand {} from the top is {held}, and {asked} is asked.",
                index.saturating_add(1)
            );
        }
    }
    Ok(())
}

fn is_wanted(
    alloc: Global,
    known: &KnownClasses<'_>,
    asked: &Wanted,
    held: &HeldType,
) -> Result<bool, AllocError> {
    match asked {
        Wanted::Int => Ok(matches!(held, HeldType::Int)),
        Wanted::Word => Ok(!matches!(held, HeldType::Top)),
        Wanted::Reference => Ok(!matches!(held, HeldType::Top | HeldType::Int)),
        Wanted::Initialized => Ok(matches!(held, HeldType::Null | HeldType::Object(_))),
        Wanted::Uninitialized => {
            Ok(matches!(
                held,
                HeldType::UninitializedThis | HeldType::Uninitialized(_)
            ))
        }
        Wanted::Held(kind) => known.fits(alloc, held, kind),
    }
}

// The frame that comes out of an instruction, and those declared where it goes that it does not fit.
fn write_not_assignable(
    alloc: Global,
    page: &mut String,
    known: &KnownClasses<'_>,
    code: &KnownCode<'_>,
    at: u16,
) -> Result<(), AllocError> {
    let Some(insn) = code.insn(at) else {
        return Ok(());
    };
    if at == 0 && write_opening_misfit(alloc, page, known, code)? {
        return Ok(());
    }
    let mut walk = CodeWalk::new(alloc, code.class, code.method, code.code)?;
    walk_to(&mut walk, code, at)?;
    walk.change(at, insn)?;
    let Some(frame) = &walk.frame else {
        return Ok(());
    };
    writeln!(page, "  After it: {frame}.")?;
    for target in targets(alloc, at, insn)? {
        if let Ok(offset) = u16::try_from(target) {
            write_if_misfit(alloc, page, known, code, frame, offset)?;
        }
    }
    match next_offset(code, at) {
        Some(next) if falls_through(insn) => write_if_misfit(alloc, page, known, code, frame, next),
        _ => Ok(()),
    }
}

// Tells whether the frame with which the method begins does not fit one that is declared at 0, and how.
fn write_opening_misfit(
    alloc: Global,
    page: &mut String,
    known: &KnownClasses<'_>,
    code: &KnownCode<'_>,
) -> Result<bool, AllocError> {
    let opening = CodeFrame::opening(alloc, code.class, code.method)?;
    let mut misfit = String::new(alloc);
    write_if_misfit(alloc, &mut misfit, known, code, &opening, 0)?;
    if misfit.is_empty() {
        return Ok(false);
    }
    writeln!(page, "  The method begins with: {opening}.")?;
    page.push_str(misfit.as_str())?;
    Ok(true)
}

fn next_offset(code: &KnownCode<'_>, at: u16) -> Option<u16> {
    for (offset, _) in &code.listing {
        if *offset > at {
            return Some(*offset);
        }
    }
    None
}

fn write_if_misfit(
    alloc: Global,
    page: &mut String,
    known: &KnownClasses<'_>,
    code: &KnownCode<'_>,
    frame: &CodeFrame,
    target: u16,
) -> Result<(), AllocError> {
    let Some(declared) = declared_at(alloc, code, target)? else {
        return Ok(());
    };
    let locals = first_misfit(alloc, known, &frame.locals, &declared.locals)?;
    let operands = first_misfit(alloc, known, &frame.stack, &declared.stack)?;
    if locals.is_none() && operands.is_none() && frame.stack.len() == declared.stack.len() {
        return Ok(());
    }
    writeln!(page, "  Declared at {target}: {declared}.")?;
    if let Some(number) = locals {
        writeln!(page, "  Local variable {number} does not fit.")?;
    }
    if let Some(number) = operands {
        writeln!(
            page,
            "  Operand {number} from the bottom, which is 0, does not fit."
        )?;
    }
    if frame.stack.len() != declared.stack.len() {
        page.push_str("  The stacks are not of one height.\n")?;
    }
    Ok(())
}

// The first item that may not stand where another is declared.
fn first_misfit(
    alloc: Global,
    known: &KnownClasses<'_>,
    held: &[HeldType],
    declared: &[HeldType],
) -> Result<Option<usize>, AllocError> {
    for (index, asked) in declared.iter().enumerate() {
        let fits = match held.get(index) {
            Some(kind) => known.fits(alloc, kind, asked)?,
            None => matches!(asked, HeldType::Top),
        };
        if !fits {
            return Ok(Some(index));
        }
    }
    Ok(None)
}
