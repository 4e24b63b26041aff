//! What the event answers, as it ends.

ghost use Rattle.std.specs.Prelude.{◌≡◌, ◌≤◌, ℕ, map};
ghost use Rattle.sp_rules.specs.Events.{in_order};
ghost use Rattle.sp_rules.specs.Space.{conclude};
ghost use Rattle.sp_rules.specs.State.{State};
ghost use Rattle.sp_outputs.specs.Notes.{output_of};

use crate::Transport;
use sp_outputs::Output;

impl Transport {
    ghost use Rattle.sp_transport.specs.Rooms.{KeepsRows};
    ghost use Rattle.sp_transport.specs.Transports.{IsTransport};

    /// Takes what the event answers, in its order: the event ends. Each connection remembers what was sent
    /// on it. It takes no memory.
    pub fn conclude(&mut self) -> Vec<Output>
        ensures outputs { (s : State) → IsTransport s self.old → map output_of result.items ≡ in_order s.notes }
        ensures concluded { (s : State) → IsTransport s self.old → IsTransport (conclude s (in_order s.notes)).0 self.new }
        ensures rows { KeepsRows self.old self.new }
    {
        self.outputs.take_in_order()
    }
}
