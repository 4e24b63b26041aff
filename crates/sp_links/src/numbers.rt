//! The numbers of connections.

ghost use Rattle.std.specs.Prelude.{◌≡◌, ◌<◌, ◌%◌, IfSome, IfNone};

use std::marker::Model;

// How many keys a number has room for.
const KEYS: u64 = 65_536;

/// The numbers of connections. Each is above all before it, so that none comes again, and has the key of the
/// connection's row in its low 16 bits.
#[derive(Drop)]
pub(crate) struct Numbers {
    last: u64,
}

impl Model for Numbers {
    ghost use Rattle.std.specs.Prelude.{ℕ};

    ghost Value = { ℕ };

    ghost view = { λ numbers. numbers.last };
}

impl Numbers {
    /// None was given yet.
    pub fn new() -> Numbers
        ensures { result ≡ 0 }
    {
        Numbers { last: 0 }
    }

    /// Gives the next number, for the row of a key. None if the key is no number of 16 bits, or after some 2^48 numbers.
    pub fn give(&mut self, key: usize) -> Option<u64>
        ensures rises { IfSome result (λ number. self.old < number) }
        ensures last { IfSome result (λ number. self.new ≡ number) }
        ensures key { IfSome result (λ number. number % 65536 ≡ key) }
        ensures none { IfNone result (self.new ≡ self.old) }
    {
        let key = key as u64;
        if key >= KEYS {
            return None;
        }
        let number = (self.last - self.last % KEYS).checked_add(KEYS + key)?;
        self.last = number;
        Some(number)
    }
}

/// The key in a number.
pub(crate) fn key_of(number: u64) -> usize
    ensures { result ≡ number % 65536 }
{
    (number % KEYS) as usize
}
