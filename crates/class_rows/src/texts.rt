//! Code, texts, names and descriptors.

use cf_insns::{CodeFault, Insn, decode};
use cf_text::{
    Descriptor, Numbered, Text, descriptor, is_class_name, is_method_name, is_modified_utf8,
    is_name,
};
use std::alloc::Global;
use std::io::Write;
use test_rows::RowFault;

type Listing = Vec<(u16, Insn)>;

/// Prints what a text is, as a name or as a descriptor.
pub fn play(alloc: Global, said: &mut Vec<u8>, kind: &str, text: &str) -> Result<(), RowFault> {
    match kind {
        "name" => put_name(said, text.as_bytes()),
        "descriptor" => put_described(alloc, said, text.as_bytes().to_vec(alloc)?),
        _ => put_dimensions(alloc, said, text),
    }
}

/// Prints each instruction of the code after its offset, or the rule that is broken and where.
pub fn put_code(alloc: Global, said: &mut Vec<u8>, bytes: &[u8]) -> Result<(), RowFault> {
    match decoded(alloc, bytes)? {
        Ok(listing) => put_listing(said, &listing),
        Err(CodeFault::Broken { rule, at }) => {
            writeln!(said, "{} {rule} at {at}", rule.number())?;
            Ok(())
        }
        Err(CodeFault::Memory) => Err(RowFault::Memory),
    }
}

// What the call answers. This function promises nothing, so that a row is proved at once.
fn decoded(alloc: Global, bytes: &[u8]) -> Result<Result<Listing, CodeFault>, RowFault> {
    if bytes.len() > 65_535 {
        return Err(RowFault::Bad);
    }
    Ok(decode(alloc, bytes))
}

fn put_listing(said: &mut Vec<u8>, listing: &[(u16, Insn)]) -> Result<(), RowFault> {
    for (offset, insn) in listing {
        writeln!(said, "{offset} {insn:?}")?;
    }
    Ok(())
}

/// Prints whether bytes are modified UTF-8.
pub fn put_utf8(said: &mut Vec<u8>, bytes: &[u8]) -> Result<(), RowFault> {
    writeln!(said, "{}", is_modified_utf8(bytes))?;
    Ok(())
}

fn put_name(said: &mut Vec<u8>, text: &[u8]) -> Result<(), RowFault> {
    let (plain, of_method) = (is_name(text), is_method_name(text));
    writeln!(said, "{plain} {of_method} {}", is_class_name(text))?;
    Ok(())
}

fn put_described(alloc: Global, said: &mut Vec<u8>, text: Vec<u8>) -> Result<(), RowFault> {
    match descriptor(alloc, &Text::new(alloc, text)?)? {
        Some(Descriptor::Method(_)) => writeln!(said, "a method")?,
        Some(Descriptor::Field(_)) => writeln!(said, "a field")?,
        None => writeln!(said, "none")?,
    }
    Ok(())
}

fn put_dimensions(alloc: Global, said: &mut Vec<u8>, word: &str) -> Result<(), RowFault> {
    let count = word.parse::<usize>().map_err(|_| RowFault::Bad)?;
    let mut text = vec![in alloc; b'['; count]?;
    text.push(b'I')?;
    put_described(alloc, said, text)
}
