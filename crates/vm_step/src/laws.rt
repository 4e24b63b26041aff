//! Laws of runs, each the contract of a function that does nothing.
ghost use Rattle.std.specs.Prelude.{◌≡◌, ℕ, ◌+◌};
ghost use Rattle.cls_link.specs.Links.{Links};
ghost use Rattle.vm_step.specs.Run.{State, run, IsOver};
ghost use Rattle.vm_step.specs.Task.{pause_at};

/// A run may be made in pieces: some steps and then others lead where all of them at once lead, to
/// the same answer. If the first ones end the task, the others change nothing.
pub fn pieces_make_a_run()
    ensures state { (links : Links) (some others : ℕ) (state : State)
        → run links others (run links some state) ≡ run links (some + others) state }
    ensures answer { (links : Links) (some others : ℕ) (state : State)
        → pause_at (run links others (run links some state)) ≡ pause_at (run links (some + others) state) }
    ensures over { (links : Links) (some others : ℕ) (state : State)
        → IsOver (run links some state)
        → run links (some + others) state ≡ run links some state }
{}
