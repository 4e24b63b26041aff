//! What is remembered of one client and one object.

ghost use Rattle.std.specs.Prelude.{◌≡◌, ◌+◌, ◌^◌, ◌<◌, ◌↔◌, IsTrue};
ghost use Rattle.dgc_list.specs.Remembered.{blank, is_late, after_dirty, after_clean, after_moment, is_blank};

use std::alloc::{AllocError, Global};
use table_copies::CopyIn;

/// What an owner remembers of a client and an object. Nothing is remembered if each part is `None`.
#[derive(Clone, Copy, PartialEq, Eq)]
pub struct Remembered {
    /// The number of the call that counted last, if it is kept: calls up to it are late.
    pub number: Option<u64>,
    /// Whether a strong clean call was ever kept.
    pub strong: bool,
    /// The moment from which the client's entry is gone, if one stands.
    pub expires: Option<u64>,
}

impl CopyIn for Remembered {
    ghost use Rattle.std.specs.Prelude.{◌≡◌};

    ghost is_copy = { λ remembered copy. copy ≡ remembered };

    fn copy_in(&self, _alloc: Global) -> Result<Remembered, AllocError> {
        Ok(*self)
    }
}

impl Remembered {
    /// Nothing is remembered.
    pub(crate) const BLANK: Remembered = Remembered {
        number: None,
        strong: false,
        expires: None,
    };

    // Whether nothing is remembered.
    pub(crate) fn is_blank(self) -> bool
        ensures { result ≡ is_blank self }
    {
        self.number.is_none() && !self.strong && self.expires.is_none()
    }

    // Whether a call of this number is late.
    pub(crate) fn is_late(self, number: u64) -> bool
        ensures { result ≡ is_late self number }
    {
        match self.number {
            Some(last) => number <= last,
            None => false,
        }
    }

    // Whether there is an entry, which is gone from this moment on.
    pub(crate) fn stands_until(self, moment: u64) -> bool
        ensures { IsTrue result ↔ (self.expires ≡ Some moment) }
    {
        matches!(self.expires, Some(expires) if expires == moment)
    }

    // What a dirty call leaves whose entry is gone at `expires`.
    pub(crate) fn after_dirty(self, number: u64, expires: u64) -> Remembered
        ensures { result ≡ after_dirty number expires self }
    {
        if self.is_late(number) {
            return self;
        }
        Remembered {
            number: Some(number),
            strong: self.strong,
            expires: Some(expires),
        }
    }

    // What a clean call leaves.
    pub(crate) fn after_clean(self, number: u64, strong: bool) -> Remembered
        ensures { result ≡ after_clean number strong self }
    {
        if self.is_late(number) {
            return self;
        }
        let strong = strong || self.strong;
        Remembered {
            number: if strong { Some(number) } else { None },
            strong,
            expires: None,
        }
    }

    // What a moment leaves.
    pub(crate) fn after_moment(self, moment: u64) -> Remembered
        ensures { result ≡ after_moment moment self }
    {
        match self.expires {
            Some(expires) if expires <= moment => Remembered {
                number: if self.strong { self.number } else { None },
                strong: self.strong,
                expires: None,
            },
            _ => self,
        }
    }
}
