//! What follows from the contracts over any number of calls. Each function does nothing: its contract is
//! the law.

ghost use Rattle.std.specs.Prelude.{◌≡◌, ℕ, ◌++◌, true, List, [], map};
ghost use Rattle.net_message.specs.declared.message.Message.{Message};
ghost use Rattle.net_frames.specs.Stream.{AreBytes, Held, Stream};
ghost use Rattle.sp_rules.specs.Events.{Event};
ghost use Rattle.sp_inflow.specs.declared.arrivals.Arrival.{Arrival};
ghost use Rattle.sp_inflow.specs.Arriving.{Course, event_of, events_of};
ghost use Rattle.sp_inflow.specs.Telling.{AreTold, Incoming};

use dev_io::Source;

/// What is told of a stream are its first events: each frame of its bytes is one Received, in turn, and
/// the end or a read that failed is one event more. Once that is told, nothing is missing.
pub fn what_is_told_are_the_events_of_the_bytes<S: Source>()
    ensures { (conn : ℕ) (bytes : List ℕ) (messages : List Message) (held : Held) (told : List Arrival) (incoming : Incoming S)
        → AreBytes bytes → Stream bytes messages held → AreTold S.remaining bytes told incoming
        → (course : Course) × (more : List Event) × ((map (event_of conn) told ++ more ≡ events_of conn messages held course) × (incoming.ended ≡ true → more ≡ [])) }
{}
