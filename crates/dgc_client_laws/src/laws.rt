//! What the definitions say, in the terms of the Java RMI specification.

ghost use Rattle.std.specs.Prelude.{◌≡◌, ◌+◌, ◌-◌, ◌*◌, ◌^◌, ◌<◌, ◌≤◌, ◌⊎◌, ◌++◌, ◌∷◌, ℕ, Bool, true, false, List, Some, None, filter, length, All};
ghost use Rattle.std.specs.List.{flat_map};
ghost use Rattle.dgc_client.specs.declared.groups.DueCall.{DueCall};
ghost use Rattle.dgc_client.specs.declared.groups.Group.{Group};
ghost use Rattle.dgc_client.specs.declared.lease.ClientLease.{ClientLease};
ghost use Rattle.dgc_client.specs.declared.lease.Due.{Due};
ghost use Rattle.dgc_client.specs.declared.lease.Due.TheVariants.{Clean, Dirty};
ghost use Rattle.dgc_index.specs.declared.plans.Term.{Term};
ghost use Rattle.dgc_client.specs.Groups.{is_of, is_clean, calls_of, in_order, grouped, IsGrouping, parts_of, AreFull};
ghost use Rattle.dgc_client.specs.Lease.{is_made, after_moment, due};
ghost use Rattle.dgc_client.specs.Table.{Told, own, due_of};
ghost use Rattle.dgc_client.specs.History.{Event, lease_of, holders_of, MakesNoDirty, IsQuiet};
ghost use Rattle.dgc_client.specs.History.Event.{Held, CleanMade, CleanFailed, DirtyAnswered, DirtyFailed};

/// If a clean call was made after a dirty call, the answer to the dirty call changes nothing,
/// whatever else came in between: it gives no lease, and does not stand for the answer to a later
/// dirty call.
pub fn an_overtaken_answer_gives_no_lease()
    ensures { (h later : List Event) (call clean period : ℕ) → MakesNoDirty call later
        → lease_of (DirtyAnswered call period ∷ later ++ CleanMade clean ∷ h)
        ≡ lease_of (later ++ CleanMade clean ∷ h) }
{}

/// A clean call is due only of a reference without holders, and each clean call of a space that is
/// due names such a reference.
pub fn a_clean_call_is_due_without_holders()
    ensures due { (l : ClientLease) (strong : Bool) → due l ≡ Some (Clean strong) → l.holders ≡ 0 }
    ensures named { (h : List Told) → All (λ (call : DueCall). is_clean call ≡ true
        → (lease_of (own call.reference h)).holders ≡ 0) (due_of h) }
{}

/// All holders are counted, or there were 2^64 - 1 of them once, and the reference keeps these for good.
/// So one that has a holder is never taken for one that has none.
pub fn holders_are_counted()
    ensures counted { (h : List Event) → ((lease_of h).holders ≡ holders_of h)
        ⊎ ((lease_of h).holders ≡ 2 ^ 64 - 1) }
    ensures held { (h : List Event) → 0 < holders_of h → 0 < (lease_of h).holders }
{}

/// After a clean call no other is due, as long as no dirty call is made and no clean call fails.
pub fn a_clean_call_is_due_once()
    ensures { (h later : List Event) (clean : ℕ) (strong : Bool) → IsQuiet later
        → due (lease_of (later ++ CleanMade clean ∷ h)) ≡ Some (Clean strong) → ⊥ }
{}

/// A new holder does not wait for the repetition of a clean call that failed: its dirty call is due
/// at once. After a dirty call failed nothing is due before the next moment, whether there is a
/// holder or not.
pub fn a_new_holder_waits_for_failed_dirty_calls_alone()
    ensures clean { (h : List Event) (call : ℕ) → (lease_of h).clean ≡ Some call
        → due (lease_of (Held ∷ CleanFailed call ∷ h)) ≡ Some Dirty }
    ensures dirty { (h : List Event) (call : ℕ) → is_made (lease_of h).dirty call ≡ true
        → due (lease_of (DirtyFailed call ∷ h)) ≡ None }
    ensures dirty_held { (h : List Event) (call : ℕ) → is_made (lease_of h).dirty call ≡ true
        → due (lease_of (Held ∷ DirtyFailed call ∷ h)) ≡ None }
{}

/// A lease stands as long as its period is not over, counted from the moment at which its dirty call
/// was sent; it is due for renewal from half of the period on.
pub fn a_lease_counts_from_its_sending()
    ensures stands { (l : ClientLease) (term : Term) (moment : ℕ) → l.lease ≡ Some term
        → l.moment ≤ moment → term.sent ≤ moment → moment < term.sent + term.period
        → (after_moment moment l).lease ≡ Some term }
    ensures lapses { (l : ClientLease) (term : Term) (moment : ℕ) → l.lease ≡ Some term
        → l.moment ≤ moment → term.sent + term.period ≤ moment
        → (after_moment moment l).lease ≡ None }
    ensures early { (l : ClientLease) (term : Term) (moment : ℕ) → l.lease ≡ Some term
        → l.moment ≤ moment → 2 * moment < 2 * term.sent + term.period
        → (after_moment moment l).renew ≡ false }
    ensures renewed { (l : ClientLease) (term : Term) (moment : ℕ) → l.lease ≡ Some term
        → l.moment ≤ moment → 2 * term.sent + term.period ≤ 2 * moment
        → moment < term.sent + term.period → (after_moment moment l).renew ≡ true }
{}

/// The groups of a row of calls are its longest stretches of one peer and kind: joined they are the
/// row, none is empty, two that follow each other differ in peer or kind, and no other groups do this.
pub fn the_groups_of_a_row_are_its_stretches()
    ensures are { (calls : List DueCall) → IsGrouping calls (grouped calls) }
    ensures only { (calls : List DueCall) (groups : List Group) → IsGrouping calls groups
        → groups ≡ grouped calls }
{}

/// The groups of a peer and kind, joined, are the calls of that peer and kind, in their order: none is
/// left out, and none comes twice.
pub fn the_groups_of_a_peer_are_its_calls()
    ensures { (peer : List ℕ) (kind : Due) (calls : List DueCall)
        → filter (is_of peer kind) (flat_map calls_of (grouped (in_order calls)))
        ≡ filter (is_of peer kind) calls }
{}

/// The parts of a group, joined, are the group; each has 1 to `most` objects, and each but the last has
/// `most`.
pub fn the_parts_of_a_group_are_the_group()
    ensures joined { (most : ℕ) (group : Group) → 0 < most
        → flat_map calls_of (parts_of most group) ≡ calls_of group }
    ensures few { (most : ℕ) (group : Group) → 0 < most
        → All (λ (part : Group). (1 ≤ length part.ids) × (length part.ids ≤ most))
        (parts_of most group) }
    ensures full { (most : ℕ) (group : Group) → 0 < most → AreFull most (parts_of most group) }
{}
