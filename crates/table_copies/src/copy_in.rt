//! Values that can be copied.

ghost use Rattle.std.specs.Prelude.{◌≡◌, IfOk};

use std::alloc::{AllocError, Global};

/// A value that can be copied, if there is memory for it.
pub trait CopyIn: Drop {
    // Holds of a value and each copy of it.
    ghost is_copy: { Self → Self → Type 0 };

    /// Returns a copy of the value.
    fn copy_in(&self, alloc: Global) -> Result<Self, AllocError>
        ensures { IfOk result (is_copy self.now) };
}

impl CopyIn for () {
    ghost is_copy = { λ value copy. copy ≡ value };

    fn copy_in(&self, _alloc: Global) -> Result<(), AllocError> {
        Ok(())
    }
}
