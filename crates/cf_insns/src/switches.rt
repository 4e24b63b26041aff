//! The two switches: their operands begin at a multiple of four, counted from the start of the code.

ghost use Rattle.std.specs.Prelude.{◌≡◌, ◌+◌, ◌*◌, ◌≤◌, ◌-ℤ◌, drop, length, IfOk, IfErr, MatchResult};
ghost use Rattle.cf_insns.specs.Reading as spec;
ghost use Rattle.cf_insns.specs.Layout.{padding_length, counted};
ghost use Rattle.cf_insns.specs.Stops.{Stops};
ghost use Rattle.cf_insns.specs.declared.reading.Stop.TheVariants.{Memory};

use super::operands::{int_at, signed_int};
use super::reading::{Spelled, Stop};
use super::{CodeRule, Insn, Row, SwitchCase};
use std::alloc::{AllocError, Global};

// How many bytes stand between the opcode at an offset and the next multiple of four.
fn padding(offset: u16) -> usize
    ensures exact { result ≡ padding_length offset }
    ensures few { result ≤ 3 }
{
    3 - usize::from(offset % 4)
}

// How many ints there are from low to high.
fn count_between(low: i32, high: i32) -> usize
    ensures exact { result ≡ counted (high -ℤ low) }
    ensures few { result ≤ 4294967296 }
{
    match usize::try_from(i64::from(high) - i64::from(low)) {
        Ok(steps) => steps + 1,
        Err(_) => 0,
    }
}

// The next `count` branches.
fn read_branches(
    alloc: Global,
    operands: &[u8],
    from: usize,
    count: usize,
) -> Result<Vec<i32>, AllocError>
    requires { from + 4 * count ≤ length operands.now }
    ensures { IfOk result (λ branches. branches.items
        ≡ spec.ints_of count (drop from operands.now)) }
{
    let mut branches = Vec::with_capacity(alloc, count)?;
    for index in 0..count {
        branches.push(int_at(operands, from + 4 * index))?;
    }
    Ok(branches)
}

// The next `count` cases.
fn read_cases(
    alloc: Global,
    operands: &[u8],
    from: usize,
    count: usize,
) -> Result<Vec<SwitchCase>, AllocError>
    requires { from + 8 * count ≤ length operands.now }
    ensures { IfOk result (λ cases. cases.items ≡ spec.cases_of count (drop from operands.now)) }
{
    let mut cases = Vec::with_capacity(alloc, count)?;
    for index in 0..count {
        let at = from + 8 * index;
        let (key, branch) = (int_at(operands, at), int_at(operands, at + 4));
        cases.push(SwitchCase { key, branch })?;
    }
    Ok(cases)
}

// Whether each key is above the one before it.
fn do_keys_rise(cases: &[SwitchCase]) -> bool
    ensures { result ≡ spec.keys_rise cases.now }
{
    for index in 1..cases.len() {
        if cases[index].key <= cases[index - 1].key {
            return false;
        }
    }
    true
}

// The end of the rows of a switch, which the code has to reach.
fn rows_end(operands: &[u8], from: usize, count: usize, size: usize) -> Result<usize, CodeRule>
    requires from { from ≤ 65536 }
    requires count { count ≤ 4294967296 }
    requires size { size ≤ 8 }
    ensures exact { result ≡ spec.rows_end (from + size * count) operands.now }
    ensures end { IfOk result (λ end. end ≡ from + size * count) }
    ensures within { IfOk result (λ end. end ≤ length operands.now) }
{
    let end = from + size * count;
    if operands.len() < end {
        return Err(CodeRule::Cut);
    }
    Ok(end)
}

// tableswitch at an offset.
#[tactic(auto, unfolding(crate::specs::Reading::table_switch))]
pub(crate) fn table_switch(alloc: Global, offset: u16, operands: &[u8]) -> Result<Spelled, Stop>
    ensures exact { MatchResult result (λ spelled. spec.table_switch offset operands.now
        ≡ Ok spelled) (λ stop. Stops stop (spec.table_switch offset operands.now)) }
    ensures within { IfOk result (λ spelled. spelled.operands ≤ length operands.now) }
{
    let start = padding(offset);
    let default = signed_int(operands, start)?;
    let low = signed_int(operands, start + 4)?;
    let high = signed_int(operands, start + 8)?;
    let count = count_between(low, high);
    let end = rows_end(operands, start + 12, count, 4)?;
    if count == 0 {
        return Err(Stop::Broken(CodeRule::Keys));
    }
    let branches = Row::new(read_branches(alloc, operands, start + 12, count)?);
    let insn = Insn::TableSwitch {
        default,
        low,
        branches,
    };
    Ok(Spelled::new(insn, end))
}

// lookupswitch at an offset.
#[tactic(auto, unfolding(crate::specs::Reading::lookup_switch))]
pub(crate) fn lookup_switch(alloc: Global, offset: u16, operands: &[u8]) -> Result<Spelled, Stop>
    ensures exact { MatchResult result (λ spelled. spec.lookup_switch offset operands.now
        ≡ Ok spelled) (λ stop. Stops stop (spec.lookup_switch offset operands.now)) }
    ensures within { IfOk result (λ spelled. spelled.operands ≤ length operands.now) }
{
    let start = padding(offset);
    let default = signed_int(operands, start)?;
    let count = signed_int(operands, start + 4)?;
    let Ok(count) = usize::try_from(count) else {
        return Err(Stop::Broken(CodeRule::Keys));
    };
    let end = rows_end(operands, start + 8, count, 8)?;
    let cases = read_cases(alloc, operands, start + 8, count)?;
    if !do_keys_rise(&cases) {
        return Err(Stop::Broken(CodeRule::Keys));
    }
    let cases = Row::new(cases);
    Ok(Spelled::new(Insn::LookupSwitch { default, cases }, end))
}
