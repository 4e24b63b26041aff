//! Names of the registry.

ghost use Rattle.std.specs.Prelude.{◌≡◌, IsTrue};
ghost use Rattle.std.specs.Str.{bytes_eq};
ghost use Rattle.registry_names.specs.Names.{is_name};

use std::marker::Model;

/// A name of the registry: 1 to 255 bytes of ASCII letters, digits, `_` and `.` (a rule of our own).
/// The bytes are the registry's, which lends them. A contract sees the list of its bytes.
#[derive(Drop)]
pub struct Name<'a> {
    bytes: &'a [u8],
}

impl<'a> Model for Name<'a> {
    ghost use Rattle.std.specs.Prelude.{List, ℕ, IsTrue};
    ghost use Rattle.registry_names.specs.Names.{is_name};

    ghost Value = { List ℕ };

    ghost view = { λ name. name.bytes.now };

    ghost invariant = { λ name. IsTrue (is_name name.bytes.now) };
}

impl<'a> Name<'a> {
    // The name of these bytes, which are allowed.
    pub(crate) fn new(bytes: &'a [u8]) -> Name<'a>
        requires { IsTrue (is_name bytes.now) }
        ensures { result ≡ bytes.now }
    {
        Name { bytes }
    }

    /// Returns the name's bytes.
    pub fn as_bytes(&self) -> &[u8]
        ensures bytes { result.now ≡ self.now }
        ensures allowed { IsTrue (is_name result.now) }
    {
        self.bytes
    }

    /// Returns whether the name is these bytes.
    pub fn is(&self, bytes: &[u8]) -> bool
        ensures { result ≡ bytes_eq self.now bytes.now }
    {
        self.as_bytes() == bytes
    }
}
