//! Data that exists in proofs alone: a token of no bytes whose value only clauses read.
//!
//! A word of the interpreter carries its tagged value in such a token: the machine has bare words,
//! and contracts see what each word stands for.
#![tactic(auto)]

ghost use Rattle.std.specs.Prelude.{◌≡◌};
ghost use base.Fml.{ftrue};

use std::marker::{Model, PhantomData};

/// How data of the type `T` is read off a value of the type `X`.
pub trait Says<X, T> {
    ghost says: { X → T };
}

/// A `T` as clauses see it. It has no bytes and owns nothing, so its value is free until an
/// invariant ties it: a struct that holds a token says what the value has to do with its other
/// fields.
pub struct Ghost<T> {
    marker: PhantomData<T>,
    pub ghost value: { T },
}

impl<T> Model for Ghost<T> {
    ghost also_owns = { λ _. ftrue };
}

impl<T> Ghost<T> {
    /// Returns the token whose value `M` reads off `x`. It does nothing when it runs.
    #[inline(always)]
    pub fn of<X, M: Says<X, T>>(x: &X) -> Ghost<T>
        ensures { result.value ≡ M.says x.now }
    {
        let _ = x;
        Ghost {
            marker: PhantomData,
        }
    }

    /// Returns a second token of the same value.
    #[inline(always)]
    pub fn copy(&self) -> Ghost<T>
        ensures { result.value ≡ self.now.value }
    {
        Ghost::of::<Ghost<T>, Same>(self)
    }
}

// Reads a token's own value off it.
struct Same;

impl<T> Says<Ghost<T>, T> for Same {
    ghost says = { λ token. token.value };
}

impl<T> Drop for Ghost<T> {
    #[inline(always)]
    fn drop(self) {
        let Self { marker: _ } = self;
    }
}

unsafe impl<T> Send for Ghost<T> {}

unsafe impl<T> Sync for Ghost<T> {}
