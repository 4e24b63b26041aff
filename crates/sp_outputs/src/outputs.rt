//! What one event answers.

ghost use Rattle.std.specs.Prelude.{◌≡◌, ℕ, ◌≤◌, ◌<◌, ◌+◌, ◌++◌, true, List, [], ◌∷◌, OnOk, length, map, vec_len};
ghost use Rattle.std.specs.Vec.{vec_capacity};
ghost use Rattle.std.specs.List.{flat_map, list_all};
ghost use Rattle.sp_rules.specs.Events.{Says, Sends, in_order};
ghost use Rattle.sp_outputs.specs.Frames.{frames_in, noted_in, turns};
ghost use Rattle.sp_outputs.specs.Said.{is_noted};

use crate::note::{Note, ranks_of, tell_there};
use crate::output::RANKS;
use crate::{Output, Turn};
use net_message::Message;
use std::alloc::{AllocError, Global};
use std::mem;

/// What an event answers, while it is under way: outputs, and frames with their turns, in the order in
/// which they were noted. Room is made before anything changes, so that a note takes no memory.
///
/// A contract names the list of the notes, and for how many more there is room.
#[derive(Drop)]
pub struct Outputs {
    alloc: Global,
    notes: Vec<Option<Note>>,
    // Nothing is told yet; its room is that of the notes.
    told: Vec<Output>,
    ghost said: { list_all is_noted notes.items ≡ true },
    ghost none_told: { vec_len told ≡ 0 },
    ghost room_to_tell: { vec_len notes ≤ vec_capacity told },
}

impl Outputs {
    ghost use Rattle.sp_outputs.specs.Notes.{is_said, notes_of, output_of, room, turn_of};

    /// Nothing is noted.
    pub fn new(alloc: Global) -> Outputs
        ensures { notes_of result ≡ [] }
    {
        Outputs {
            alloc,
            notes: Vec::new(alloc),
            told: Vec::new(alloc),
        }
    }

    /// Makes room for this many more notes. Nothing else changes, at out of memory too.
    pub fn reserve(&mut self, notes: usize) -> Result<(), AllocError>
        ensures ok { OnOk result (notes ≤ room self.new) }
        ensures same { notes_of self.new ≡ notes_of self.old }
        ensures room { room self.old ≤ room self.new }
    {
        self.notes.reserve(notes)?;
        self.told.reserve(self.notes.capacity())
    }

    /// Notes an output that is no frame. It takes no memory: the caller owes [room](Outputs::reserve) for
    /// it.
    pub fn say_reserved(&mut self, output: Output)
        requires said { is_said output ≡ true }
        requires room { 0 < room self.old }
        ensures notes { notes_of self.new ≡ notes_of self.old ++ Says (output_of output) ∷ [] }
        ensures room { room self.old ≡ room self.new + 1 }
    {
        self.notes.push_reserved(Some(Note::Says(output)));
    }

    /// Notes a frame with its turn. It takes no memory: the caller owes [room](Outputs::reserve) for it.
    pub fn send_reserved(&mut self, turn: Turn, conn: u64, message: Message)
        requires { 0 < room self.old }
        ensures notes { notes_of self.new ≡ notes_of self.old ++ Sends (turn_of turn) conn message ∷ [] }
        ensures room { room self.old ≡ room self.new + 1 }
    {
        self.notes.push_reserved(Some(Note::Sends {
            turn,
            conn,
            message,
        }));
    }

    /// How many notes there are.
    pub fn len(&self) -> usize
        ensures { result ≡ length (notes_of self.now) }
    {
        self.notes.len()
    }

    /// Takes all that is noted, as outputs in their order: Started, Ended, Withdrawn, Denied, Send, Dial,
    /// Close, Ready; and of frames Hello, replies, requests that waited, Clean, Dirty, Call and Lookup, Ack.
    /// Outputs of one kind and frames of one turn stand as they were noted. It takes no memory, and leaves
    /// no note, and no room if there was one.
    pub fn take_in_order(&mut self) -> Vec<Output>
        ensures ordered { map output_of result.items ≡ in_order (notes_of self.old) }
        ensures frames { frames_in (map output_of result.items) ≡ flat_map (noted_in (notes_of self.old)) turns }
        ensures whole { length result.items ≡ length (notes_of self.old) }
        ensures notes { notes_of self.new ≡ [] }
    {
        if self.notes.is_empty() {
            return Vec::new(self.alloc);
        }
        let ranks = ranks_of(&self.notes);
        let mut notes = mem::replace(&mut self.notes, Vec::new(self.alloc));
        let mut told = mem::replace(&mut self.told, Vec::new(self.alloc));
        for rank in 0..RANKS {
            let is_there = ranks[rank as usize];
            tell_there(&mut notes, is_there, rank, &mut told);
        }
        // Their memory serves the notes of the next event.
        notes.clear();
        self.notes = notes;
        told
    }
}
