//! Access flags of classes, fields and methods (JVMS 4.1, 4.5, 4.6).

ghost use Rattle.std.specs.Prelude.{◌≡◌, ◌≢◌, ◌↔◌, IsTrue, bit_and};

/// Access and property flags, as the bits of the file.
#[derive(Clone, Copy, Debug, PartialEq, Eq)]
pub struct Flags {
    pub bits: u16,
}

impl Flags {
    ghost use Rattle.cf_reader.specs.Rules.{has};

    pub const PUBLIC: u16 = 0x0001;

    pub const PRIVATE: u16 = 0x0002;

    pub const PROTECTED: u16 = 0x0004;

    pub const STATIC: u16 = 0x0008;

    pub const FINAL: u16 = 0x0010;
    /// Of a class: always taken as set.
    pub const SUPER: u16 = 0x0020;
    /// Of a method.
    pub const SYNCHRONIZED: u16 = 0x0020;
    /// Of a field.
    pub const VOLATILE: u16 = 0x0040;
    /// Of a method.
    pub const BRIDGE: u16 = 0x0040;
    /// Of a field.
    pub const TRANSIENT: u16 = 0x0080;

    pub const NATIVE: u16 = 0x0100;

    pub const INTERFACE: u16 = 0x0200;

    pub const ABSTRACT: u16 = 0x0400;

    pub const STRICT: u16 = 0x0800;

    pub const ANNOTATION: u16 = 0x2000;

    pub const ENUM: u16 = 0x4000;

    /// Returns whether one of the mask's flags is set.
    pub fn has(self, mask: u16) -> bool
        ensures set { IsTrue result ↔ (bit_and self.bits mask ≢ 0) }
        ensures value { result ≡ has self.bits mask }
    {
        self.bits & mask != 0
    }
}
