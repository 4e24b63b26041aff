//! Holders of foreign references.

ghost use Rattle.std.specs.Prelude.{◌≡◌, ◌≤◌, ◌<◌, ◌+◌, ℕ, length};
ghost use Rattle.sp_rules.specs.Holders.{drop_ids, hold_ids, holder_comes, holder_goes};
ghost use Rattle.sp_rules.specs.State.{State};

use crate::Transport;
use space_ids::ForeignId;

impl Transport {
    ghost use Rattle.sp_transport.specs.Asking.{pass_moment};
    ghost use Rattle.sp_transport.specs.Rooms.{KeepsRows, Spends, lease_room};
    ghost use Rattle.sp_transport.specs.Transports.{IsTransport};

    /// Adds a holder of a foreign reference: a task, a field, a result or a parked frame. It takes no
    /// memory: the caller owes [room](Transport::reserve_holders) for the reference.
    pub fn hold_reserved(&mut self, reference: &ForeignId)
        requires { 0 < lease_room self.old }
        ensures held { (s : State) → IsTransport s self.old → IsTransport (holder_comes s reference.now) self.new }
        ensures rooms { Spends 1 0 0 0 self.old self.new }
        ensures rows { KeepsRows self.old self.new }
    {
        self.leases.hold_reserved(reference);
    }

    /// Takes a holder of a foreign reference away, if it has one.
    pub fn drop_holder(&mut self, reference: &ForeignId)
        ensures dropped { (s : State) → IsTransport s self.old → IsTransport (holder_goes s reference.now) self.new }
        ensures rooms { Spends 0 0 0 0 self.old self.new }
        ensures rows { KeepsRows self.old self.new }
    {
        self.leases.drop_holder(reference);
    }

    /// Adds a holder of each of these references. It takes no memory: the caller owes
    /// [room](Transport::reserve_holders) for each.
    pub fn hold_ids_reserved(&mut self, references: &[ForeignId])
        requires { length references.now ≤ lease_room self.old }
        ensures held { (s : State) → IsTransport s self.old → IsTransport (hold_ids references.now s) self.new }
        ensures rooms { Spends (length references.now) 0 0 0 self.old self.new }
        ensures rows { KeepsRows self.old self.new }
    {
        for reference in references {
            self.hold_reserved(reference);
        }
    }

    /// Takes a holder of each of these references away.
    pub fn drop_ids(&mut self, references: &[ForeignId])
        ensures dropped { (s : State) → IsTransport s self.old → IsTransport (drop_ids references.now s) self.new }
        ensures rooms { Spends 0 0 0 0 self.old self.new }
        ensures rows { KeepsRows self.old self.new }
    {
        for reference in references {
            self.drop_holder(reference);
        }
    }

    /// Sets the moment that is now, in milliseconds, for the leases of foreign references. A moment below
    /// the last changes nothing.
    pub fn moment(&mut self, moment: u64)
        ensures moment { (s : State) → IsTransport s self.old → IsTransport (pass_moment moment s) self.new }
        ensures rooms { Spends 0 0 0 0 self.old self.new }
        ensures rows { KeepsRows self.old self.new }
    {
        self.leases.moment(moment);
    }
}
