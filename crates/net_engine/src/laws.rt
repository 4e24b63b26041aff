//! What follows from the contracts over several calls. Each function does nothing: its contract is the
//! law.

ghost use Rattle.std.specs.Prelude.{◌≡◌, ℕ, Bool, List, Ok, Some, None, Result};
ghost use Rattle.std.specs.declared.alloc.AllocError.{AllocError};
ghost use Rattle.net_message.specs.declared.fault.WireFault.{WireFault};
ghost use Rattle.net_frames.specs.Stream.{Rest, Stopped, Stream};
ghost use Rattle.net_engine.specs.declared.inbound.Inflow.{Inflow};
ghost use Rattle.net_engine.specs.declared.inbound.Inflow.TheVariants as inflows;
ghost use Rattle.net_engine.specs.Engine.{Receiver, left, Receives, Answers, frames_in};

use dev_io::Source;

/// The frames that calls answer before the end of the stream are the frames of its bytes, and what
/// is held then is what is left of them. Before a fault they are the frames in front of it. This
/// holds however often memory ran out in between, or a read failed.
pub fn frames_before_the_end_are_those_of_the_bytes<S: Source>()
    ensures closed { (old between new : Receiver S) (results : List (Result Inflow AllocError)) (bytes : List ℕ) (inside : Bool)
        → old.fault ≡ None → left S.remaining old ≡ Some bytes → Answers S.remaining S.has_failed old results between
        → Receives S.remaining S.has_failed between (Ok (inflows.Closed inside)) new → Stream bytes (frames_in results) (Rest new.held) }
    ensures bad { (old between new : Receiver S) (results : List (Result Inflow AllocError)) (bytes : List ℕ) (fault : WireFault)
        → old.fault ≡ None → left S.remaining old ≡ Some bytes → Answers S.remaining S.has_failed old results between
        → Receives S.remaining S.has_failed between (Ok (inflows.Bad fault)) new → Stream bytes (frames_in results) (Stopped fault) }
{}
