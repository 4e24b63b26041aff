//! The due calls, in order, with room made before they are known.

ghost use Rattle.std.specs.Prelude.{◌≡◌, ◌≤◌, ◌<◌, ◌+◌, ◌++◌, ℕ, [], OnOk, length, filter, vec_len, vec_capacity};
ghost use Rattle.std.specs.List.{list_any, flat_map};
ghost use Rattle.std.specs.Str.{bytes_eq};
ghost use Rattle.dgc_client.specs.DueCalls.{calls_in, HasRoomFor};
ghost use Rattle.dgc_client.specs.Groups.{is_of, peers_of, with_peer, cleans_of_peer, in_order};

use crate::Due;
use crate::groups::DueCall;
use std::alloc::{AllocError, Global};
use uuid::Uuid;

/// The calls that were due at the last question, in the order in which they are made. An event
/// makes room for them before it changes anything, and asks once it can fail no more.
#[derive(Drop)]
pub struct DueCalls {
    // In the order of their references.
    pub(crate) found: Vec<DueCall>,
    peers: Vec<Uuid>,
    ordered: Vec<DueCall>,
}

impl DueCalls {
    /// Returns a row without calls, and room for none.
    pub fn new(alloc: Global) -> DueCalls
        ensures { calls_in result ≡ [] }
    {
        DueCalls {
            found: Vec::new(alloc),
            peers: Vec::new(alloc),
            ordered: Vec::new(alloc),
        }
    }

    /// Makes room for this many calls. The calls that were in it are gone, even if it is out of
    /// memory.
    pub fn reserve(&mut self, calls: usize) -> Result<(), AllocError>
        ensures ok { OnOk result (HasRoomFor calls self.new) }
    {
        self.found.clear();
        self.peers.clear();
        self.ordered.clear();
        self.found.reserve(calls)?;
        self.peers.reserve(calls)?;
        self.ordered.reserve(calls)?;
        Ok(())
    }

    /// Returns the calls, in the order in which they are made.
    pub fn as_slice(&self) -> &[DueCall]
        ensures { result.now ≡ calls_in self.now }
    {
        self.ordered.as_slice()
    }

    // The allocator of its memory.
    pub(crate) fn alloc(&self) -> Global {
        *self.found.allocator()
    }

    // Puts the calls that were found in order.
    pub(crate) fn put_in_order(&mut self)
        requires { HasRoomFor (vec_len self.old.found) self.old }
        ensures calls { calls_in self.new ≡ in_order self.old.found.items }
        ensures room { (calls : ℕ) → HasRoomFor calls self.old → HasRoomFor calls self.new }
    {
        put_in_order(&self.found, &mut self.peers, &mut self.ordered);
    }
}

// Puts calls in the order in which they are made.
fn put_in_order(calls: &[DueCall], peers: &mut Vec<Uuid>, ordered: &mut Vec<DueCall>)
    requires peers { length calls.now ≤ vec_capacity peers.old }
    requires ordered { length calls.now ≤ vec_capacity ordered.old }
    ensures calls { ordered.new.items ≡ in_order calls.now }
    ensures peers { vec_capacity peers.new ≡ vec_capacity peers.old }
    ensures ordered { vec_capacity ordered.new ≡ vec_capacity ordered.old }
{
    ordered.clear();
    find_peers(peers, calls, true);
    add_clean_calls(ordered, calls, peers.as_slice());
    find_peers(peers, calls, false);
    add_dirty_calls(ordered, calls, peers.as_slice());
}

// The peers of the clean calls, or of the dirty calls, in the order of their first call.
fn find_peers(peers: &mut Vec<Uuid>, calls: &[DueCall], clean: bool)
    requires { length calls.now ≤ vec_capacity peers.old }
    ensures peers { peers.new.items ≡ peers_of clean calls.now }
    ensures capacity { vec_capacity peers.new ≡ vec_capacity peers.old }
{
    peers.clear();
    for call in calls {
        if call.is_clean() == clean {
            add_peer(peers, &call.reference.space);
        }
    }
}

// Adds a peer, if it is not there.
fn add_peer(peers: &mut Vec<Uuid>, peer: &Uuid)
    requires { vec_len peers.old < vec_capacity peers.old }
    ensures peers { peers.new.items ≡ with_peer peers.old.items peer.now }
    ensures len { vec_len peers.new ≤ vec_len peers.old + 1 }
    ensures capacity { vec_capacity peers.new ≡ vec_capacity peers.old }
{
    if !is_there(peers, peer) {
        peers.push_reserved(*peer);
    }
}

// Whether the peer is there.
fn is_there(peers: &[Uuid], peer: &Uuid) -> bool
    ensures { result ≡ list_any (bytes_eq peer.now) peers.now }
{
    peers.iter().any(|other| *peer == *other)
}

// Adds the calls of one peer and kind.
fn add_calls(ordered: &mut Vec<DueCall>, calls: &[DueCall], peer: &Uuid, kind: Due)
    requires { vec_len ordered.old + length (filter (is_of peer.now kind) calls.now) ≤ vec_capacity ordered.old }
    ensures calls { ordered.new.items ≡ ordered.old.items ++ filter (is_of peer.now kind) calls.now }
    ensures len { vec_len ordered.new ≡ vec_len ordered.old + length (filter (is_of peer.now kind) calls.now) }
    ensures capacity { vec_capacity ordered.new ≡ vec_capacity ordered.old }
{
    for call in calls {
        if call.is_of(peer, kind) {
            ordered.push_reserved(*call);
        }
    }
}

// Adds the clean calls, peer by peer, the strong ones first.
fn add_clean_calls(ordered: &mut Vec<DueCall>, calls: &[DueCall], peers: &[Uuid])
    requires { vec_len ordered.old + length (flat_map (cleans_of_peer calls.now) peers.now) ≤ vec_capacity ordered.old }
    ensures calls { ordered.new.items ≡ ordered.old.items ++ flat_map (cleans_of_peer calls.now) peers.now }
    ensures len { vec_len ordered.new ≡ vec_len ordered.old + length (flat_map (cleans_of_peer calls.now) peers.now) }
    ensures capacity { vec_capacity ordered.new ≡ vec_capacity ordered.old }
{
    for peer in peers {
        add_calls(ordered, calls, peer, Due::Clean { strong: true });
        add_calls(ordered, calls, peer, Due::Clean { strong: false });
    }
}

// Adds the dirty calls, peer by peer.
fn add_dirty_calls(ordered: &mut Vec<DueCall>, calls: &[DueCall], peers: &[Uuid])
    requires { vec_len ordered.old + length (flat_map (λ peer. filter (is_of peer Due.Dirty) calls.now) peers.now) ≤ vec_capacity ordered.old }
    ensures calls { ordered.new.items ≡ ordered.old.items ++ flat_map (λ peer. filter (is_of peer Due.Dirty) calls.now) peers.now }
    ensures capacity { vec_capacity ordered.new ≡ vec_capacity ordered.old }
{
    for peer in peers {
        add_calls(ordered, calls, peer, Due::Dirty);
    }
}
