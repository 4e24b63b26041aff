//! What a script asks of the spaces that it plays.

ghost use Rattle.std.specs.Prelude.{◌≡◌, ⊤, ℕ, IfOk, List, slice_get};
ghost use Rattle.space_ids.specs.declared.ids.ClassId.{ClassId};
ghost use Rattle.sp_promises.specs.WorldRuns.{IsNew};
ghost use Rattle.sp_rules.specs.Classes.{Setting};
ghost use Rattle.sp_rules.specs.State.{State};

use sp_world::{CoreFault, WorldSpace};
use space_ids::{ClassId, ObjId, Uuid, Value};
use std::alloc::AllocError;

/// A root: a static method, by the name of its class and by its own name and descriptor, as `f(I)I`, with
/// arguments and fuel.
#[derive(Drop)]
pub struct Start<'a> {
    pub class: &'a str,
    pub method: &'a str,
    pub arguments: Vec<Value>,
    pub fuel: u64,
}

/// A standing object as scripts show it: how many names are bound to it, and how many clients have an
/// entry for it.
#[derive(Clone, Copy, PartialEq, Eq)]
pub struct Shown {
    pub id: ObjId,
    pub class: ClassId,
    pub names: usize,
    pub entries: usize,
}

/// What a space knows by name, of its program and of its objects.
pub trait Named {
    // A class of its set has this name.
    ghost is_named: { Self → ClassId → List ℕ → Type 0 } = { λ _ _ _. ⊤ };

    /// The number of a method, by the name of a class that has or inherits it, and by its own name and
    /// descriptor: a fault of starts if there is none.
    fn method(&self, class: &str, method: &str) -> Result<u32, CoreFault>;

    /// The standing object at an index, in the order of ids.
    fn object(&self, index: usize) -> Option<Shown>;

    /// The name of a class of its set.
    fn class_name(&self, class: ClassId) -> &[u8]
        ensures { is_named self.now class result.now };
}

/// A space of a world, with its class set.
pub trait ScriptSpace: WorldSpace + Named {
    ghost use Rattle.sim_shows.specs.Lines.{sights};

    /// The lowest task that may go on.
    fn ready(&self) -> Option<u64>;

    /// The standing object at an index, in the order of ids.
    fn standing_object(&self, index: usize) -> Option<Shown>
        ensures { (g : Setting) (s : State) → Self.is_space g s self.now
            → result ≡ slice_get (sights s) index };

    /// The most fuel of a root.
    fn most_fuel(&self) -> u64;
}

/// Makes the spaces of a script.
pub trait Origin<S: WorldSpace> {
    /// Returns a space of this id, to which nothing has happened, and which speaks this version of the protocol at
    /// most.
    fn space(&self, id: Uuid, version: u8) -> Result<S, AllocError>
        ensures new { IfOk result (IsNew S.is_space) };
}
