//! Hashes of numbers.

ghost use Rattle.std.specs.Prelude.{◌≡◌};
ghost use Rattle.std.specs.List.{slice_index};
ghost use Rattle.std.specs.Int.{from_le_bytes};
ghost use Rattle.table_copies.specs.Hashes.{initial, finish, folded_product, with_number, write};
ghost use mir.Syntax.{w64};

use std::hash::{BuildHasherDefault, Hasher};

const MULTIPLIER: u64 = 0x9e37_79b9_7f4a_7c15;

/// How maps hash the numbers that are their keys.
pub type NumberHashes = BuildHasherDefault<NumberHasher>;

/// Hashes a number by one multiplication to 128 bits, of which it joins the halves. Of the bytes of another key the first
/// eight count. It is for keys that the program gives out itself: who picks keys can make them collide.
#[derive(Clone, Copy)]
pub struct NumberHasher {
    state: u64,
}

impl Default for NumberHasher {
    ghost is_default = { λ hasher. hasher ≡ initial };

    fn default() -> NumberHasher {
        NumberHasher { state: 0 }
    }
}

impl NumberHasher {
    fn take(&mut self, number: u64)
        ensures { self.new ≡ with_number self.old number }
    {
        self.state = folded_product(self.state ^ number, MULTIPLIER);
    }
}

fn folded_product(a: u64, b: u64) -> u64
    ensures { result ≡ folded_product a b }
{
    let product = a as u128 * b as u128;
    (product & 0xFFFF_FFFF_FFFF_FFFF) as u64 ^ (product >> 64) as u64
}

// The number whose bytes these are, the lowest first: the first eight of them.
fn number_of(bytes: &[u8]) -> u64
    ensures { result ≡ from_le_bytes w64 bytes.now }
{
    u64::from_le_bytes([
        byte_at(bytes, 0),
        byte_at(bytes, 1),
        byte_at(bytes, 2),
        byte_at(bytes, 3),
        byte_at(bytes, 4),
        byte_at(bytes, 5),
        byte_at(bytes, 6),
        byte_at(bytes, 7),
    ])
}

fn byte_at(bytes: &[u8], at: usize) -> u8
    ensures { result ≡ slice_index bytes.now at }
{
    match bytes.get(at) {
        Some(byte) => *byte,
        None => 0,
    }
}

impl Hasher for NumberHasher {
    ghost write = { write };

    ghost finish = { finish };

    fn finish(&self) -> u64 {
        self.state
    }

    fn write(&mut self, bytes: &[u8]) {
        self.take(number_of(bytes));
    }

    fn write_u64(&mut self, number: u64) {
        self.take(number);
    }
}
