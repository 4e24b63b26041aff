//! Laws of runs of worlds, each the contract of a function that does nothing.

ghost use Rattle.std.specs.Prelude.{◌≡◌, ◌++◌, List};
ghost use Rattle.sp_rules.specs.Worlds.{World, WorldEvent, run};

/// A run may be made in pieces: some events and then others leave the world that all of them leave.
pub fn pieces_make_a_run()
    ensures { (w : World) (some others : List WorldEvent) → run (run w some) others ≡ run w (some ++ others) }
{}
