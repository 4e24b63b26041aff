//! Entering a Code attribute (JVMS 4.7.3), and looking through a StackMapTable inside it (JVMS 4.7.4).

ghost use Rattle.std.specs.Prelude.{◌≤◌, IfErr, IfOk};
ghost use Rattle.cf_text.specs.Reading.{Gives};
ghost use Rattle.cf_layout.specs.CodeFormat.{MissesBy, code_look, reaches, table_look};
ghost use Rattle.cf_layout.specs.CodeLengths.{EndsAfter, IsShort};
ghost use Rattle.cf_layout.specs.Codes.{code_filling, code_head_at, code_of, code_rest_at, skim_frame, skim_item, skim_list, skim_lists, skim_many, skim_table, skim_tagged, table_of};

use super::inside::{blame, up_to};
use super::items::{Attribute, CodeHead, CodeLayout};
use super::layout::{read_attributes, read_item};
use cf_pool::{ReadFault, Rule, demand, read_u8, read_u16, read_u32, skip};
use std::alloc::Global;

#[tactic(auto, unfolding(crate::specs::Codes::code_head_at))]
fn read_code_head(bytes: &[u8], at: usize) -> Result<CodeHead, ReadFault>
    ensures { Gives (code_head_at bytes.now at) result }
{
    let (max_stack, after) = read_u16(bytes, at)?;
    let (max_locals, length_at) = read_u16(bytes, after)?;
    let (length, code) = read_u32(bytes, length_at)?;
    Ok(CodeHead {
        max_stack,
        max_locals,
        length_at,
        length,
        code,
    })
}

#[tactic(auto, unfolding(crate::specs::Codes::code_rest_at))]
fn read_code_rest(
    alloc: Global,
    bytes: &[u8],
    head: CodeHead,
) -> Result<(CodeLayout, usize), ReadFault>
    ensures exact { Gives (code_rest_at bytes.now head) result }
    ensures ends { IfOk result (λ rest. EndsAfter head rest.0) }
{
    let code_end = skip(bytes, head.code, head.length as usize)?;
    let (handler_count, after) = read_item(bytes, code_end)?;
    let after = skip(bytes, after, 8 * handler_count.value as usize)?;
    let (attributes, to) = read_attributes(alloc, bytes, after)?;
    let code = CodeLayout {
        head,
        code_end,
        handler_count,
        attributes,
    };
    Ok((code, to))
}

#[tactic(auto, unfolding(crate::specs::Codes::code_filling, cf_text::specs::Demands::verdict))]
fn read_code_filling(
    alloc: Global,
    bytes: &[u8],
    head: CodeHead,
    end: usize,
) -> Result<CodeLayout, ReadFault>
    ensures exact { Gives (code_filling bytes.now head end) result }
    ensures ends { IfOk result (EndsAfter head) }
{
    let (code, to) = read_code_rest(alloc, bytes, head)?;
    demand(to == end, Rule::AttributeLength, to)?;
    Ok(code)
}

// The reading after `read_code`, with the first fault.
#[tactic(auto, unfolding(crate::specs::Codes::code_of, cf_text::specs::Demands::verdict), using(crate::proofs::Blamed::blames))]
fn code_of(alloc: Global, bytes: &[u8], attribute: Attribute) -> Result<CodeLayout, ReadFault>
    ensures exact { Gives (code_of bytes.now attribute) result }
    ensures short { IfOk result IsShort }
{
    let inside = up_to(bytes, attribute.end as usize);
    let head = blame(
        read_code_head(inside, attribute.body as usize),
        attribute.name.at as usize,
    )?;
    demand(
        1 <= head.length && head.length <= 65_535,
        Rule::CodeLength,
        head.length_at,
    )?;
    blame(
        read_code_filling(alloc, inside, head, attribute.end as usize),
        attribute.name.at as usize,
    )
}

/// Returns the layout of a Code attribute. A code that is empty or longer than 65,535 bytes is
/// CodeLength at its length, and nothing after it is looked at; a Code that does not fill its
/// length exactly is AttributeLength at its name index.
pub fn read_code(alloc: Global, bytes: &[u8], attribute: Attribute) -> Result<CodeLayout, ReadFault>
    // What is read stands there, what stands there is read, and a fault is one of what stands there.
    ensures found { IfOk result (code_look bytes.now attribute).Is }
    ensures only { (code : CodeLayout) → (code_look bytes.now attribute).Is code
        → Gives (Ok code) result }
    ensures fault { IfErr result (MissesBy (code_look bytes.now attribute)) }
    // Its code has 65,535 bytes at most.
    ensures short { IfOk result IsShort }
    // Which fault it is.
    ensures exact { Gives (code_of bytes.now attribute) result }
{
    code_of(alloc, bytes, attribute)
}

// How far an item reaches. `None`: its tag is above 8.
#[tactic(auto, unfolding(crate::specs::Codes::skim_item))]
fn skim_item(bytes: &[u8], at: usize) -> Result<Option<usize>, ReadFault>
    ensures { Gives (skim_item bytes.now at) result }
{
    let (tag, after) = read_u8(bytes, at)?;
    match tag {
        0..=6 => Ok(Some(after)),
        7 | 8 => {
            let to = skip(bytes, after, 2)?;
            Ok(Some(to))
        }
        _ => Ok(None),
    }
}

fn skim_items(count: u16, bytes: &[u8], at: usize) -> Result<Option<usize>, ReadFault>
    ensures { Gives (skim_many (skim_item bytes.now) count at) result }
{
    let mut position = at;
    for _ in 0..count {
        match skim_item(bytes, position)? {
            Some(after) => position = after,
            None => return Ok(None),
        }
    }
    Ok(Some(position))
}

#[tactic(auto, unfolding(crate::specs::Codes::skim_list))]
fn skim_list(bytes: &[u8], at: usize) -> Result<Option<usize>, ReadFault>
    ensures { Gives (skim_list bytes.now at) result }
{
    let (count, first) = read_u16(bytes, at)?;
    skim_items(count, bytes, first)
}

// A frame after its tag and its offset, as `skim_tagged`.
#[tactic(auto, unfolding(crate::specs::Codes::skim_lists))]
fn skim_lists(tag: u8, bytes: &[u8], at: usize) -> Result<Option<usize>, ReadFault>
    requires { 247 ≤ tag }
    ensures { Gives (skim_lists tag bytes.now at) result }
{
    match tag {
        247 => skim_items(1, bytes, at),
        248..=251 => Ok(Some(at)),
        252..=254 => skim_items((tag - 251) as u16, bytes, at),
        _ => match skim_list(bytes, at)? {
            Some(after) => skim_list(bytes, after),
            None => Ok(None),
        },
    }
}

// A frame after its tag. `None`: a tag is reserved, or an item's tag is above 8.
#[tactic(auto, unfolding(crate::specs::Codes::skim_tagged))]
fn skim_tagged(tag: u8, bytes: &[u8], at: usize) -> Result<Option<usize>, ReadFault>
    ensures { Gives (skim_tagged tag bytes.now at) result }
{
    if tag <= 63 {
        return Ok(Some(at));
    }
    if tag <= 127 {
        return skim_items(1, bytes, at);
    }
    if tag <= 246 {
        return Ok(None);
    }
    let after = skip(bytes, at, 2)?;
    skim_lists(tag, bytes, after)
}

#[tactic(auto, unfolding(crate::specs::Codes::skim_frame))]
fn skim_frame(bytes: &[u8], at: usize) -> Result<Option<usize>, ReadFault>
    ensures { Gives (skim_frame bytes.now at) result }
{
    let (tag, after) = read_u8(bytes, at)?;
    skim_tagged(tag, bytes, after)
}

fn skim_frames(count: u16, bytes: &[u8], at: usize) -> Result<Option<usize>, ReadFault>
    ensures { Gives (skim_many (skim_frame bytes.now) count at) result }
{
    let mut position = at;
    for _ in 0..count {
        match skim_frame(bytes, position)? {
            Some(after) => position = after,
            None => return Ok(None),
        }
    }
    Ok(Some(position))
}

#[tactic(auto, unfolding(crate::specs::Codes::skim_table, cf_text::specs::Demands::verdict))]
fn skim_table(bytes: &[u8], at: usize, end: usize) -> Result<(), ReadFault>
    ensures { Gives (skim_table bytes.now at end) result }
{
    let (count, first) = read_u16(bytes, at)?;
    match skim_frames(count, bytes, first)? {
        None => Ok(()),
        Some(to) => demand(to == end, Rule::AttributeLength, at),
    }
}

// The look after `check_table`.
#[tactic(auto, unfolding(crate::specs::Codes::table_of), using(crate::proofs::Blamed::blames))]
fn table_of(bytes: &[u8], attribute: Attribute) -> Result<(), ReadFault>
    ensures { Gives (table_of bytes.now attribute) result }
{
    let inside = up_to(bytes, attribute.end as usize);
    blame(
        skim_table(inside, attribute.body as usize, attribute.end as usize),
        attribute.name.at as usize,
    )
}

/// Returns Ok if a StackMapTable fills its length exactly, else AttributeLength at its name index.
/// It looks through the table up to its first reserved tag, or its first item of a tag above 8.
pub fn check_table(bytes: &[u8], attribute: Attribute) -> Result<(), ReadFault>
    // It is Ok exactly if the table fills its length; a fault is one of what stands there.
    ensures found { IfOk result (table_look bytes.now attribute).Is }
    ensures only { (table_look bytes.now attribute).Is tt → Gives (Ok tt) result }
    ensures fault { IfErr result (MissesBy (table_look bytes.now attribute)) }
    // Which fault it is.
    ensures exact { Gives (table_of bytes.now attribute) result }
{
    table_of(bytes, attribute)
}
