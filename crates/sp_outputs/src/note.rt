//! Outputs while their event is under way.

ghost use Rattle.std.specs.Prelude.{◌≡◌, ℕ, ◌+◌, ◌<◌, ◌≤◌, ◌++◌, ◌==◌, ◌||◌, false, get_or, not, filter, length, map, option_to_list, vec_len};
ghost use Rattle.std.specs.Vec.{vec_capacity};
ghost use Rattle.sp_rules.specs.Events as rules;
ghost use Rattle.sp_outputs.specs.Notes.{note_of, noted, noted_at, output_of};
ghost use Rattle.sp_outputs.specs.Ranks.{has_rank};

use crate::output::RANKS;
use crate::{Output, Turn};
use net_message::Message;

// What an event notes: an output, or a frame with its turn among the frames.
#[derive(Drop)]
pub(crate) enum Note {
    Says(Output),
    Sends {
        turn: Turn,
        conn: u64,
        message: Message,
    },
}

impl Note {
    // The rank of a note among those of its event.
    fn rank(&self) -> u8
        ensures { result ≡ rules.rank (note_of self.now) }
    {
        match self {
            Note::Says(output) => output.rank(),
            Note::Sends {
                turn,
                conn: _,
                message: _,
            } => turn.rank(),
        }
    }

    // The output that is noted.
    fn into_output(self) -> Output
        ensures { output_of result ≡ rules.output_of (note_of self) }
    {
        match self {
            Note::Says(output) => output,
            Note::Sends {
                turn: _,
                conn,
                message,
            } => Output::Send { conn, message },
        }
    }
}

// A flag for each rank.
pub(crate) type Ranks = [bool; RANKS as usize];

// The ranks that the notes have.
pub(crate) fn ranks_of(slots: &[Option<Note>]) -> Ranks
    ensures { (k : ℕ) → k < 14 → get_or result k false ≡ has_rank (noted slots.now) k }
{
    let mut ranks = [false; RANKS as usize];
    for slot in slots {
        mark(&mut ranks, slot);
    }
    ranks
}

// Sets the flag of the rank of a note, if there is one.
fn mark(ranks: &mut Ranks, slot: &Option<Note>)
    ensures { (k : ℕ) → k < 14 → get_or ranks.new k false ≡ (get_or ranks.old k false || has_rank (noted_at slot.now) k) }
{
    let Some(note) = slot else {
        return;
    };
    let rank = note.rank() as usize;
    if rank < ranks.len() {
        ranks[rank] = true;
    }
}

// Takes the note out of a slot, if it has this rank.
fn take_of_rank(slot: &mut Option<Note>, rank: u8) -> Option<Output>
    ensures taken { map output_of (option_to_list result) ≡ rules.of_rank (noted_at slot.old) rank }
    ensures others { noted_at slot.new ≡ filter (λ (n : rules.Note). not (rules.rank n == rank)) (noted_at slot.old) }
    ensures count { length (option_to_list result) + length (noted_at slot.new) ≡ length (noted_at slot.old) }
{
    let note = slot.take_if(|note| note.rank() == rank)?;
    Some(note.into_output())
}

// Tells an output, if there is one, after what is told already. It takes no memory: there is room for it.
fn tell(told: &mut Vec<Output>, output: Option<Output>)
    requires { vec_len told.old + length (option_to_list output) ≤ vec_capacity told.old }
    ensures items { told.new.items ≡ told.old.items ++ option_to_list output }
    ensures len { vec_len told.new ≡ vec_len told.old + length (option_to_list output) }
    ensures capacity { vec_capacity told.new ≡ vec_capacity told.old }
{
    match output {
        Some(output) => told.push_reserved(output),
        None => {}
    }
}

// Tells the notes of this rank, if there are any, as `tell_rank` does.
pub(crate) fn tell_there(
    slots: &mut [Option<Note>],
    is_there: bool,
    rank: u8,
    told: &mut Vec<Output>,
)
    requires there { is_there ≡ has_rank (noted slots.old) rank }
    requires room { vec_len told.old + length (noted slots.old) ≤ vec_capacity told.old }
    ensures told { map output_of told.new.items ≡ map output_of told.old.items ++ rules.of_rank (noted slots.old) rank }
    ensures others { noted slots.new ≡ filter (λ (n : rules.Note). not (rules.rank n == rank)) (noted slots.old) }
    ensures count { vec_len told.new + length (noted slots.new) ≡ vec_len told.old + length (noted slots.old) }
    ensures capacity { vec_capacity told.new ≡ vec_capacity told.old }
{
    if is_there {
        tell_rank(slots, rank, told);
    }
}

// Tells the notes of this rank after what is told already, in the order in which they stand, and leaves the
// others. It takes no memory: there is room for all notes.
fn tell_rank(slots: &mut [Option<Note>], rank: u8, told: &mut Vec<Output>)
    requires { vec_len told.old + length (noted slots.old) ≤ vec_capacity told.old }
    ensures told { map output_of told.new.items ≡ map output_of told.old.items ++ rules.of_rank (noted slots.old) rank }
    ensures others { noted slots.new ≡ filter (λ (n : rules.Note). not (rules.rank n == rank)) (noted slots.old) }
    ensures count { vec_len told.new + length (noted slots.new) ≡ vec_len told.old + length (noted slots.old) }
    ensures capacity { vec_capacity told.new ≡ vec_capacity told.old }
{
    for slot in slots.iter_mut() {
        tell(told, take_of_rank(slot, rank));
    }
}
