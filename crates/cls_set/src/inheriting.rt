//! What the methods that a class inherits under one name and descriptor forbid of its own one.

ghost use Rattle.std.specs.Prelude.{◌≡◌, ◌≢◌, ◌↔◌, ◌⊎◌, ℕ, List, IsTrue, codes};
ghost use Rattle.cf_reader.specs.declared.class_file.Method as methods;
ghost use Rattle.cls_set.specs.Inheriting.{Forbids, HasOther, IsBarred};
ghost use Rattle.cls_set.specs.Rules.{package_name, HasPackageAccess};

use cf_reader::{Flags, Method};

// What stands before the last / of a class's name.
pub(crate) fn package_name(name: &[u8]) -> &[u8]
    ensures { result.now ≡ package_name name.now }
{
    let mut end = 0;
    for (index, byte) in name.iter().enumerate() {
        if *byte == b'/' {
            end = index;
        }
    }
    &name[..end]
}

fn has_package_access(method: &Method) -> bool
    ensures { IsTrue result ↔ HasPackageAccess method.now }
{
    !method.flags.has(Flags::PUBLIC)
        && !method.flags.has(Flags::PROTECTED)
        && !method.flags.has(Flags::PRIVATE)
}

// The packages of the inherited methods with package access.
#[derive(Clone, Copy)]
pub(crate) enum Packages<'a> {
    Nowhere,
    In(&'a [u8]),
    Several,
}

impl<'a> Packages<'a> {
    // One more.
    fn with(self, home: &'a [u8]) -> Packages<'a>
        ensures { (other : List ℕ) → HasOther result other ↔ (HasOther self.entry other ⊎ (home.now ≢ other)) }
    {
        match self {
            Packages::Nowhere => Packages::In(home),
            Packages::In(known) => {
                if known == home {
                    Packages::In(known)
                } else {
                    Packages::Several
                }
            }
            Packages::Several => Packages::Several,
        }
    }

    // One more, if a method of a class of it has package access.
    fn with_that_of(self, high: &Method, home: &'a [u8]) -> Packages<'a>
        ensures { (other : List ℕ) → HasOther result other ↔ (HasOther self.entry other ⊎ (HasPackageAccess high.now × (home.now ≢ other))) }
    {
        if has_package_access(high) {
            self.with(home)
        } else {
            self
        }
    }

    // Whether one of them is not this one.
    fn has_other(self, home: &[u8]) -> bool
        ensures { IsTrue result ↔ HasOther self.entry home.now }
    {
        match self {
            Packages::Nowhere => false,
            Packages::In(known) => known != home,
            Packages::Several => true,
        }
    }
}

// The methods that a class inherits under one name and descriptor, as far as they forbid something:
// private ones do not count.
#[derive(Clone, Copy)]
pub(crate) struct Inherited<'a> {
    pub(crate) has_instance: bool,
    // One that is static or final.
    pub(crate) has_fixed: bool,
    pub(crate) packages: Packages<'a>,
}

impl<'a> Inherited<'a> {
    // Nothing is inherited.
    pub(crate) fn nothing() -> Inherited<'a>
        ensures { (low : methods.Method) (home : List ℕ) → Forbids result low home ↔ ⊥ }
    {
        Inherited {
            has_instance: false,
            has_fixed: false,
            packages: Packages::Nowhere,
        }
    }

    // One more is inherited, of a class of this package.
    pub(crate) fn with(self, high: &Method, home: &'a [u8]) -> Inherited<'a>
        ensures { (low : methods.Method) (other : List ℕ) → Forbids result low other ↔ (Forbids self.entry low other ⊎ IsBarred low other high.now home.now) }
    {
        if high.flags.has(Flags::PRIVATE) {
            return self;
        }
        let is_static = high.flags.has(Flags::STATIC);
        let is_final = high.flags.has(Flags::FINAL);
        Inherited {
            has_instance: self.has_instance | !is_static,
            has_fixed: self.has_fixed | is_static | is_final,
            packages: self.packages.with_that_of(high, home),
        }
    }

    // Whether a method of a class of this package may not stand below one of them.
    pub(crate) fn forbids(self, low: &Method, home: &[u8]) -> bool
        ensures { IsTrue result ↔ ((low.now.name ≢ codes "<init>") × Forbids self.entry low.now home.now) }
    {
        if low.name.is(b"<init>") {
            return false;
        }
        if low.flags.has(Flags::STATIC) {
            return self.has_instance;
        }
        self.has_fixed
            || (self.has_instance && low.flags.has(Flags::PRIVATE))
            || self.packages.has_other(home)
    }
}
