//! The numbers after an opcode: signed ones in two's complement, the high byte first.
//!
//! Each function reads the operand that begins at an index of the bytes after the opcode, or says
//! that the code ends inside it.

ghost use Rattle.std.specs.Prelude.{◌≡◌, ◌+◌, ◌≤◌, length, drop, IfOk};
ghost use Rattle.cf_insns.specs.Operands.{byte_of, short_of, signed_byte_of, signed_short_of, signed_int_of};

use super::CodeRule;
use byteorder::{BigEndian, ByteOrder};

pub(crate) fn byte(operands: &[u8], at: usize) -> Result<u8, CodeRule>
    ensures value { result ≡ byte_of (drop at operands.now) }
    ensures within { IfOk result (λ _. at + 1 ≤ length operands.now) }
{
    operands.get(at).copied().ok_or(CodeRule::Cut)
}

pub(crate) fn signed_byte(operands: &[u8], at: usize) -> Result<i8, CodeRule>
    ensures value { result ≡ signed_byte_of (drop at operands.now) }
    ensures within { IfOk result (λ _. at + 1 ≤ length operands.now) }
{
    Ok(byte(operands, at)?.cast_signed())
}

pub(crate) fn short(operands: &[u8], at: usize) -> Result<u16, CodeRule>
    ensures value { result ≡ short_of (drop at operands.now) }
    ensures within { IfOk result (λ _. at + 2 ≤ length operands.now) }
{
    if operands.len().saturating_sub(at) < 2 {
        return Err(CodeRule::Cut);
    }
    Ok(BigEndian::read_u16(&operands[at..]))
}

pub(crate) fn signed_short(operands: &[u8], at: usize) -> Result<i16, CodeRule>
    ensures value { result ≡ signed_short_of (drop at operands.now) }
    ensures within { IfOk result (λ _. at + 2 ≤ length operands.now) }
{
    Ok(short(operands, at)?.cast_signed())
}

pub(crate) fn signed_int(operands: &[u8], at: usize) -> Result<i32, CodeRule>
    ensures value { result ≡ signed_int_of (drop at operands.now) }
    ensures within { IfOk result (λ _. at + 4 ≤ length operands.now) }
{
    if operands.len().saturating_sub(at) < 4 {
        return Err(CodeRule::Cut);
    }
    Ok(int_at(operands, at))
}

// The signed number of four bytes at an index. The caller owes that the code has four bytes there.
pub(crate) fn int_at(operands: &[u8], at: usize) -> i32
    requires { at + 4 ≤ length operands.now }
    ensures { signed_int_of (drop at operands.now) ≡ Ok result }
{
    BigEndian::read_i32(&operands[at..])
}
