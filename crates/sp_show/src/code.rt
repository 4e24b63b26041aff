//! The code of a method, with the frame before each instruction.

use cf_disassembly::{CodeWalk, Shown, write_instruction};
use cf_explain::{SourceLines, source_lines};
use cf_insns::{CodeFault, Insn, decode};
use cf_reader::{ClassFile, Code, Method};
use cls_explain::KnownClass;
use std::alloc::{AllocError, Global};

/// Writes the limits of a method, which is that of this index, and its code, if it has one.
pub(crate) fn write_code(
    alloc: Global,
    page: &mut String,
    found: &KnownClass<'_>,
    method: &Method,
    index: usize,
) -> Result<(), AllocError> {
    let Some(code) = &*method.code else {
        return page.push_str(": no code\n");
    };
    writeln!(
        page,
        ": max_stack {}, max_locals {}",
        code.max_stack, code.max_locals
    )?;
    let bytes = code.bytes.as_slice();
    if bytes.len() > 65_535 {
        return Ok(());
    }
    let lines = source_lines(alloc, found.source.bytes, index)?;
    match decode(alloc, bytes) {
        Ok(listing) => {
            write_listing(
                alloc,
                page,
                found.class.file(),
                method,
                code,
                &listing,
                &lines,
            )
        }
        Err(CodeFault::Broken { rule, at }) => writeln!(page, "  refused at {at}: {rule}"),
        Err(CodeFault::Memory) => Err(AllocError),
    }
}

fn write_listing(
    alloc: Global,
    page: &mut String,
    class: &ClassFile,
    method: &Method,
    code: &Code,
    listing: &[(u16, Insn)],
    lines: &SourceLines,
) -> Result<(), AllocError> {
    let mut walk = CodeWalk::new(alloc, class, method, code)?;
    let mut last = None;
    for (at, insn) in listing {
        let line = lines.line(*at);
        if line != last {
            write_line(page, lines, line)?;
            last = line;
        }
        walk.enter(*at)?;
        match &walk.frame {
            Some(frame) => writeln!(page, "      {frame}")?,
            None => page.push_str("      no frame\n")?,
        }
        page.push_str("    ")?;
        write_instruction(page, class, code.bytes.as_slice(), *at, insn)?;
        page.push_str("\n")?;
        walk.leave(*at, insn)?;
    }
    Ok(())
}

fn write_line(page: &mut String, lines: &SourceLines, line: Option<u16>) -> Result<(), AllocError> {
    match (line, &lines.file) {
        (Some(line), Some(file)) => writeln!(page, "  {}, line {line}:", Shown(file.as_bytes())),
        (Some(line), None) => writeln!(page, "  line {line}:"),
        (None, _) => Ok(()),
    }
}
