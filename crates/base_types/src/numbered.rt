//! Faults with numbers.

ghost use Rattle.std.specs.Prelude.{◌≡◌, ℕ};

use std::fmt;

/// A fault with a number and a name. It is printed as the number, a space and the name.
pub trait Numbered: fmt::Display {
    // The number that `number` answers.
    ghost number: { Self → ℕ };

    /// The number by which the fault is known everywhere; the name is what `Display` writes.
    fn number(&self) -> u8
        ensures { result ≡ number self.now };
}
