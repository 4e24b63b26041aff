//! What is held is not lost.

ghost use Rattle.std.specs.Prelude.{◌≡◌, ◌≢◌, ◌⊎◌, ◌<◌, ℕ, Bool, true, false, List, []};
ghost use Rattle.dgc_object.specs.OneClient.{State, Event, after, Fits, IsSafe, IsKept, start, state_of, AreFitting};
ghost use Rattle.dgc_object.specs.AllClients as all;
ghost use Rattle.dgc_object.specs.Passing.{passing};

/// Each event of one client and one object that fits keeps the state safe.
pub fn an_event_keeps_it_safe()
    ensures { (event : Event) (s : State) → Fits event s → IsSafe s → IsSafe (after event s) }
{}

/// Whatever comes, in any order: while there is a lease, or a holder other than a frame that waits,
/// the object and the client's entry stand and no clean call is on its way; while a frame waits, the
/// object stands.
pub fn nothing_held_is_lost()
    ensures leased { (stands other : Bool) (h : List Event) → AreFitting (start stands other) h
        → (state_of (start stands other) h).lease ≡ true
        → IsKept (state_of (start stands other) h) }
    ensures held { (stands other : Bool) (h : List Event) → AreFitting (start stands other) h
        → 0 < (state_of (start stands other) h).started → IsKept (state_of (start stands other) h) }
    ensures parked { (stands other : Bool) (h : List Event) → AreFitting (start stands other) h
        → 0 < (state_of (start stands other) h).parked
        → (state_of (start stands other) h).stands ≡ true }
{}

/// Each event of all the clients of an object keeps the whole sound.
pub fn an_event_keeps_all_whole()
    ensures { (event : all.Event) (w : all.World) → all.Fits event w → all.IsWhole w
        → all.IsWhole (all.after event w) }
{}

/// Whatever comes, in any order, of any number of clients: what a client has a lease of or holds has
/// its entry, and its object stands; and while a frame names the object, wherever it is, or something
/// in its own space holds it, the object stands.
pub fn nothing_held_anywhere_is_lost()
    ensures clients { (own : ℕ) (h : List all.Event) (client : ℕ) → all.AreFitting (all.start own) h
        → ((all.seen client (all.world_of (all.start own) h)).lease ≡ true)
        ⊎ (0 < (all.seen client (all.world_of (all.start own) h)).started)
        → IsKept (all.seen client (all.world_of (all.start own) h)) }
    ensures frames { (own : ℕ) (h : List all.Event) → all.AreFitting (all.start own) h
        → (all.world_of (all.start own) h).frames ≢ []
        → (all.world_of (all.start own) h).stands ≡ true }
    ensures own { (own : ℕ) (h : List all.Event) → all.AreFitting (all.start own) h
        → 0 < (all.world_of (all.start own) h).own
        → (all.world_of (all.start own) h).stands ≡ true }
{}

/// There are such runs: in one a reference passes through a third space, and only the last holds it.
pub fn a_reference_passes()
    ensures fits { all.AreFitting (all.start 1) passing }
    ensures there { let w = all.world_of (all.start 1) passing in (w.own ≡ 0)
        × ((w.clients 0).entry ≡ false) × ((w.clients 1).started ≡ 1) × ((w.clients 1).entry ≡ true)
        × (w.stands ≡ true) }
{}
