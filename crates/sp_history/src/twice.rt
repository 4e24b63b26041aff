//! Values with two owners.

ghost use Rattle.std.specs.Arc.{arc_value};
ghost use Rattle.std.specs.Prelude.{◌≡◌, IfOk};
ghost use Rattle.sp_history.specs.Lefts.{whole_of};

use std::alloc::Global;
use std::marker::Model;
use std::sync::Arc;

/// A value with two owners: one is for the history, the other for the list of who calls.
///
/// A contract sees the value.
#[derive(Drop)]
pub struct Twice<T: Drop> {
    first: Arc<T, Global>,
    second: Arc<T, Global>,
}

/// A value that was handed in and not entered, to be let go by the caller.
#[derive(Drop)]
pub enum Left<T: Drop> {
    Whole(T),
    Shared(Arc<T, Global>),
}

impl<T: Drop> Model for Twice<T> {
    ghost use Rattle.std.specs.Arc.{arc_value};
    ghost use Rattle.std.specs.Prelude.{◌≡◌};

    ghost Value = { T };

    ghost view = { λ twice. arc_value twice.first };

    ghost invariant = { λ twice. arc_value twice.second ≡ arc_value twice.first };
}

impl<T: Drop> Twice<T> {
    /// The value, for two owners. If memory runs out, it is left.
    pub fn new(alloc: Global, value: T) -> Result<Twice<T>, Left<T>>
        ensures { IfOk result (λ twice. twice ≡ value) }
    {
        let first = match Arc::new(alloc, value) {
            Ok(first) => first,
            Err(failed) => return Err(Left::Whole(failed.value)),
        };
        match Arc::try_clone(&first) {
            Ok(second) => Ok(Twice { first, second }),
            Err(_) => Err(Left::Shared(first)),
        }
    }

    /// The value.
    pub fn get(&self) -> &T
        ensures { result.now ≡ self.now }
    {
        &self.first
    }

    /// Both owners.
    pub fn into_both(self) -> (Arc<T, Global>, Arc<T, Global>)
        ensures first { arc_value result.0 ≡ self }
        ensures second { arc_value result.1 ≡ self }
    {
        let Twice { first, second } = self;
        (first, second)
    }

    /// What is left of a value that is not entered.
    pub fn into_left(self) -> Left<T> {
        let Twice { first, second: _ } = self;
        Left::Shared(first)
    }
}

impl<T: Drop> Left<T> {
    /// The value, if it has no owner yet.
    pub fn into_whole(self) -> Option<T>
        ensures { result ≡ whole_of self }
    {
        match self {
            Left::Whole(value) => Some(value),
            Left::Shared(_) => None,
        }
    }
}
