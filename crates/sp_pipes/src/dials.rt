//! The dials that wait to be opened or refused.

ghost use Rattle.std.specs.Prelude.{◌≡◌, [], ◌∷◌, ◌++◌, OnOk, OnErr, map, position};
ghost use Rattle.std.specs.List.{list_any};
ghost use Rattle.sp_rules.specs.Worlds.{is_pair, without_pair};

use std::alloc::{AllocError, Global};

/// A dial that waits: which space dialled which, by their numbers in the world.
#[derive(Clone, Copy, PartialEq, Eq)]
pub struct Dial {
    pub dialler: usize,
    pub dialled: usize,
}

/// The dials that wait, oldest first.
///
/// A contract names the list of pairs.
#[derive(Drop)]
pub struct Dials {
    rows: Vec<Dial>,
}

impl Dials {
    ghost use Rattle.sp_pipes.specs.Asked.{asked, pair_of};

    /// No dial.
    pub fn new(alloc: Global) -> Dials
        ensures { asked result ≡ [] }
    {
        Dials {
            rows: Vec::new(alloc),
        }
    }

    /// All dials, oldest first.
    pub fn as_slice(&self) -> &[Dial]
        ensures { map pair_of result.now ≡ asked self.now }
    {
        self.rows.as_slice()
    }

    /// Whether a space dialled another and the dial waits. It looks at each dial that waits.
    pub fn contains(&self, dialler: usize, dialled: usize) -> bool
        ensures { result ≡ list_any (is_pair dialler dialled) (asked self.now) }
    {
        self.find(dialler, dialled).is_some()
    }

    /// Adds a dial. Nothing changes at out of memory.
    pub fn push(&mut self, dialler: usize, dialled: usize) -> Result<(), AllocError>
        ensures pushed { OnOk result (asked self.new ≡ asked self.old ++ (dialler, dialled) ∷ []) }
        ensures same { OnErr result (asked self.new ≡ asked self.old) }
    {
        self.rows.push(Dial { dialler, dialled })?;
        Ok(())
    }

    /// Takes the first dial of a space to another away, if there is one. It takes no memory.
    pub fn remove(&mut self, dialler: usize, dialled: usize)
        ensures { asked self.new ≡ without_pair dialler dialled (asked self.old) }
    {
        let Some(index) = self.find(dialler, dialled) else {
            return;
        };
        let _ = self.rows.remove(index);
    }

    // The index of the first dial of a space to another.
    fn find(&self, dialler: usize, dialled: usize) -> Option<usize>
        ensures { result ≡ position (λ dial. is_pair dialler dialled (pair_of dial)) self.now.rows.items }
    {
        self.rows
            .iter()
            .position(|dial| dial.dialler == dialler && dial.dialled == dialled)
    }
}
