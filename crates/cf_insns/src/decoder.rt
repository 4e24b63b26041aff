//! The listing of a method's code.

ghost use Rattle.std.specs.Prelude.{◌≡◌, ◌≤◌, ◌+ℤ◌, pos, length, map, slice_index, IfOk, IfErr, MatchResult};
ghost use Rattle.cf_insns.specs.Faults.{Explains};
ghost use Rattle.cf_insns.specs.Listing.{IsListing, Listing, branches_of, offsets, Rises};
ghost use Rattle.cf_insns.specs.Listing.{all_land};
ghost use Rattle.cf_insns.specs.Listing as spec;
ghost use Rattle.cf_insns.specs.declared.insn.SwitchCase.{SwitchCase};
ghost use Rattle.cf_insns.specs.Stops as stops;
ghost use Rattle.cf_insns.specs.ReadListing.{reading, listing_from, Fails};

use super::reading::{Stop, instruction};
use super::{CodeFault, CodeRule, Insn, SwitchCase};
use std::alloc::Global;

// The fault of code of which reading stops at an offset.
fn fault_at(offset: u16, stop: Stop) -> CodeFault
    ensures { result ≡ stops.fault_at offset stop }
{
    match stop {
        Stop::Broken(rule) => CodeFault::Broken { rule, at: offset },
        Stop::Memory => CodeFault::Memory,
    }
}

// The instructions from the first byte to the last, or the first broken rule.
fn listing_of(alloc: Global, code: &[u8]) -> Result<Vec<(u16, Insn)>, CodeFault>
    requires { length code.now ≤ 65535 }
    ensures exact { MatchResult result (λ listing. listing_from 0 0 code.now ≡ Ok listing.items)
        (λ fault. Fails fault (listing_from 0 0 code.now)) }
    ensures rises { IfOk result (λ listing. Rises (offsets listing.items)) }
{
    let mut listing = Vec::with_capacity(alloc, code.len())?;
    let mut at = 0;
    while at < code.len() {
        let offset = at as u16;
        let (_, operands) = code.split_at(at + 1);
        match instruction(alloc, offset, code[at], operands) {
            Ok(spelled) => {
                listing.push((offset, spelled.insn))?;
                at += 1 + spelled.operands;
            }
            Err(stop) => return Err(fault_at(offset, stop)),
        }
    }
    Ok(listing)
}

// Whether an instruction begins at an offset.
fn begins_at(listing: &[(u16, Insn)], target: i64) -> bool
    requires { Rises (offsets listing.now) }
    ensures { result ≡ spec.begins_at (offsets listing.now) target }
{
    match u64::try_from(target) {
        Ok(target) => listing
            .binary_search_by_key(&target, |entry| u64::from(entry.0))
            .is_ok(),
        Err(_) => false,
    }
}

// Whether a branch from an offset goes to an instruction.
fn lands(listing: &[(u16, Insn)], offset: u16, branch: i32) -> bool
    requires { Rises (offsets listing.now) }
    ensures { result ≡ spec.begins_at (offsets listing.now) (pos offset +ℤ branch) }
{
    begins_at(listing, i64::from(offset) + i64::from(branch))
}

// Whether each of the branches does.
fn do_branches_land(listing: &[(u16, Insn)], offset: u16, branches: &[i32]) -> bool
    requires { Rises (offsets listing.now) }
    ensures { result ≡ all_land (offsets listing.now) offset branches.now }
{
    for branch in branches {
        if !lands(listing, offset, *branch) {
            return false;
        }
    }
    true
}

// Whether that of each case does.
fn do_cases_land(listing: &[(u16, Insn)], offset: u16, cases: &[SwitchCase]) -> bool
    requires { Rises (offsets listing.now) }
    ensures { result ≡ all_land (offsets listing.now) offset
        (map (λ (c : SwitchCase). c.branch) cases.now) }
{
    for case in cases {
        if !lands(listing, offset, case.branch) {
            return false;
        }
    }
    true
}

// Whether each branch of the instruction at an offset does.
fn does_land(listing: &[(u16, Insn)], offset: u16, insn: &Insn) -> bool
    requires { Rises (offsets listing.now) }
    ensures { result ≡ all_land (offsets listing.now) offset (branches_of insn.now) }
{
    match insn {
        Insn::If { branch, .. }
        | Insn::IfCompare { branch, .. }
        | Insn::IfSame { branch, .. }
        | Insn::IfNull { branch, .. }
        | Insn::Goto { branch } => lands(listing, offset, *branch),
        Insn::TableSwitch {
            default,
            branches,
            ..
        } => {
            lands(listing, offset, *default)
                && do_branches_land(listing, offset, branches.as_slice())
        }
        Insn::LookupSwitch { default, cases } => {
            lands(listing, offset, *default) && do_cases_land(listing, offset, cases.as_slice())
        }
        _ => true,
    }
}

// The offset of the first instruction of which a branch goes to no instruction.
fn first_astray(listing: &[(u16, Insn)]) -> Option<u16>
    requires { Rises (offsets listing.now) }
    ensures { result ≡ spec.first_astray (offsets listing.now) listing.now }
{
    for (offset, insn) in listing {
        if !does_land(listing, *offset, insn) {
            return Some(*offset);
        }
    }
    None
}

// The listing, or the first broken rule: all bytes are read before a target is looked at.
#[tactic(auto, unfolding(crate::specs::ReadListing::reading))]
fn listing_with_targets(alloc: Global, code: &[u8]) -> Result<Vec<(u16, Insn)>, CodeFault>
    requires { length code.now ≤ 65535 }
    ensures exact { MatchResult result (λ listing. reading code.now ≡ Ok listing.items)
        (λ fault. Fails fault (reading code.now)) }
    ensures rises { IfOk result (λ listing. Rises (offsets listing.items)) }
{
    let listing = listing_of(alloc, code)?;
    match first_astray(&listing) {
        Some(at) => Err(CodeFault::Broken {
            rule: CodeRule::Target,
            at,
        }),
        None => Ok(listing),
    }
}

/// Returns the instructions of a method's code with their offsets, in order.
///
/// The fault is that of the first instruction at fault. Its opcode decides first (`Opcode`,
/// `OutOfProfile`), then the end of the code inside it (`Cut`), then its operands (`Padding`,
/// `Keys`). The targets of branches (`Target`) are looked at after all instructions are read.
pub fn decode(alloc: Global, code: &[u8]) -> Result<Vec<(u16, Insn)>, CodeFault>
    requires { length code.now ≤ 65535 }

    // What is Ok is the listing of the code. If there is one, the only fault is out of memory.
    ensures found { IfOk result (λ listing. IsListing code.now listing.items) }
    ensures only { (listing : Listing) → IsListing code.now listing
        → MatchResult result (λ found. found.items ≡ listing) (λ fault. fault ≡ CodeFault.Memory) }

    // A fault says what is wrong at the offset that it names.
    ensures fault { IfErr result (Explains code.now) }

    // Indices of the listing and offsets are one to one.
    ensures begins { IfOk result (λ listing. slice_index (offsets listing.items) 0 ≡ 0) }
    ensures rises { IfOk result (λ listing. Rises (offsets listing.items)) }
{
    listing_with_targets(alloc, code)
}
