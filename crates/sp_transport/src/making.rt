//! The calls that an event makes: its call or lookup, and the dirty and clean calls of a group.

ghost use Rattle.std.specs.Prelude.{◌≡◌, ◌<◌, ◌+◌, ◌^◌, ℕ, List, [], ◌∷◌, IfOk, OnOk};
ghost use Rattle.sp_rules.specs.Laws.{AllOf};
ghost use Rattle.sp_rules.specs.State.{Request, State};
ghost use Rattle.sp_requests.specs.Asking.{IsNamed, asked_of};

use crate::{Fresh, Transport};
use dgc_client::Group;
use sp_requests::Asked;
use space_ids::Uuid;
use std::alloc::AllocError;

impl Transport {
    ghost use Rattle.sp_transport.specs.Asking.{AreNextOut, AreNextWaiting, make_call, make_calls, take_fresh};
    ghost use Rattle.sp_transport.specs.Rooms.{KeepsRows, Spends};
    ghost use Rattle.sp_transport.specs.Transports.{IsTransport, call_number, fresh_of};

    /// Makes a call or lookup of a peer, under the number after the last. The event asks it as it ends.
    pub fn make_call(&mut self, peer: &Uuid, asked: Asked)
        ensures made { (s : State) → IsTransport s self.old → s.calls_made + 1 < 2 ^ 64 → call_number (asked_of asked) ≡ (s.calls_made + 1) ∷ [] → IsNamed (asked_of asked) → IsTransport (make_call peer.now (asked_of asked) s) self.new }
        ensures rooms { Spends 0 0 0 0 self.old self.new }
        ensures rows { KeepsRows self.old self.new }
    {
        self.calls_made = self.calls_made.saturating_add(1);
        self.fresh = Some(Fresh { peer: *peer, asked });
    }

    // Takes the call or lookup of the event, to be asked, if it made one. Its number is above those of all
    // that were asked, so it may wait or go out now.
    pub(crate) fn take_fresh(&mut self) -> Option<Fresh>
        ensures call { (s : State) → IsTransport s self.old → fresh_of result ≡ s.fresh }
        ensures taken { (s : State) → IsTransport s self.old → IsTransport (take_fresh s) self.new }
        ensures named { (s : State) → IsTransport s self.old → AllOf (λ (r : Request). IsNamed r.asked) s.fresh }
        ensures out { (s : State) → IsTransport s self.old → AllOf (λ (r : Request). AreNextOut (take_fresh s) r.peer (call_number r.asked)) s.fresh }
        ensures waits { (s : State) → IsTransport s self.old → AllOf (λ (r : Request). AreNextWaiting (take_fresh s) (call_number r.asked)) s.fresh }
    {
        self.fresh.take()
    }

    // Makes the dirty or clean calls of a group, under the number after that of the last group. Returns the
    // number.
    pub(crate) fn make_calls(&mut self, group: &Group) -> Result<u64, AllocError>
        ensures number { IfOk result (λ call. (s : State) → IsTransport s self.old → call ≡ s.groups_made + 1) }
        ensures made { OnOk result ((s : State) → IsTransport s self.old → IsTransport (make_calls group.now s) self.new) }
    {
        // No space lives to make 2^64 groups.
        let Some(call) = self.groups_made.checked_add(1) else {
            return Err(AllocError);
        };
        self.groups_made = call;
        self.leases.made(group, call);
        Ok(call)
    }
}
