//! What is asked of all peers and has not ended.

ghost use Rattle.std.specs.Prelude.{◌≡◌, ℕ, ◌<◌, ◌+◌, ◌++◌, ◌==◌, not, true, false, List, [], ◌∷◌, None, Some, IfOk, OnOk, find, filter, is_some, map, option_and_then, take};
ghost use Rattle.std.specs.List.{flat_map, list_any};
ghost use Rattle.std.specs.Str.{bytes_eq};
ghost use Rattle.uuid.specs.declared.Uuid.{Uuid as Peer};
ghost use Rattle.net_message.specs.declared.message.Message.{Message as Frame};
ghost use Rattle.net_message.specs.declared.message.Message.TheVariants as message;
ghost use Rattle.sp_rules.specs.Endings.{call_number_in, is_of_connection};
ghost use Rattle.sp_rules.specs.Frames.{answered_on, tells_on};
ghost use Rattle.sp_rules.specs.Laws.{AllOf};
ghost use Rattle.sp_rules.specs.Lines.{dialled_to};
ghost use Rattle.sp_rules.specs.ParkedFrames.{is_asked_on, is_call_on};
ghost use Rattle.sp_rules.specs.Requests.{group_frame, is_waiting, waits_for};
ghost use Rattle.sp_rules.specs.State.{Asked as Question, Connection, Out, Request, Tells, Waits};
ghost use Rattle.sp_requests.specs.Tables.{numbered, opened};
ghost use Rattle.sp_requests.specs.Asking.{IsNamed, asked_of, asks_by, last_call, last_sequence, number_of, sequence_of, shown, told};
ghost use Rattle.sp_requests.specs.Ends.{IsEnded, IsEnding};
ghost use Rattle.sp_requests.specs.Peers.{of_peer};

use crate::{Asked, Asker, Ended, Ending, OutCall, OutGroup, Requests};
use dgc_client::Group;
use indexmap::IndexMap;
use space_ids::Uuid;
use std::alloc::{AllocError, Global};
use table_copies::copy_map;

/// What is asked of each peer and has not ended, by the peer. A peer has a row from the first request on
/// that is made of it until its connection ends, or until it refuses. No call looks at the rows of other
/// peers.
///
/// A contract names the lists of connections and of requests that the value may stand for. Of the requests
/// of one peer it keeps the order, and of different peers none.
#[derive(Drop)]
pub struct Peers {
    alloc: Global,
    rows: IndexMap<Uuid, Requests>,
}

impl Peers {
    ghost use Rattle.sp_requests.specs.AllAsked.{AreAsked, HasRoom, IsEndRoom, row_of, sent_on};

    /// Nothing is asked of any peer.
    pub fn new(alloc: Global) -> Peers
        ensures { AreAsked [] [] result }
    {
        Peers {
            alloc,
            rows: IndexMap::new(alloc),
        }
    }

    /// The same that is asked of all peers. Room that was made may be lost. It costs a step for each row
    /// and each value in it.
    pub fn copy(&self) -> Result<Peers, AllocError>
        ensures copied { IfOk result (λ copy. (connections : List Connection) (requests : List Request) → AreAsked connections requests self.now → AreAsked connections requests copy) }
    {
        Ok(Peers {
            alloc: self.alloc,
            rows: copy_map(&self.rows)?,
        })
    }

    /// The call or lookup of this number that is out to a peer, if it is.
    pub fn call(&self, peer: &Uuid, number: u64) -> Option<OutCall>
        ensures { (connections : List Connection) (requests : List Request) (c : Connection) → AreAsked connections requests self.now → dialled_to connections peer.now ≡ Some c → result ≡ option_and_then (shown c.sent) (find (is_call_on c.number number) requests) }
    {
        self.rows.get(peer)?.call(number)
    }

    /// The call or lookup of this number that is out to a peer and has no answer, if there is one.
    pub fn asked(&self, peer: &Uuid, number: u64) -> Option<OutCall>
        ensures { (connections : List Connection) (requests : List Request) (c : Connection) → AreAsked connections requests self.now → dialled_to connections peer.now ≡ Some c → result ≡ option_and_then (shown c.sent) (find (is_asked_on c.number number) requests) }
    {
        self.rows.get(peer)?.asked(number)
    }

    /// Whether a call or lookup that is out to a peer went with the last `unsent` frames of its connection.
    pub fn is_unsent(&self, peer: &Uuid, number: u64, unsent: u64) -> bool
        ensures { (connections : List Connection) (requests : List Request) (c : Connection) → AreAsked connections requests self.now → dialled_to connections peer.now ≡ Some c → is_some (find (is_call_on c.number number) requests) ≡ true → result ≡ list_any (◌==◌ number) (flat_map call_number_in (take unsent c.sent)) }
    {
        match self.rows.get(peer) {
            Some(row) => row.is_unsent(number, unsent),
            None => false,
        }
    }

    /// The numbers of all calls and lookups that are out to a peer, in the order in which they were made.
    pub fn call_numbers(&self, peer: &Uuid, alloc: Global) -> Result<Vec<u64>, AllocError>
        ensures { IfOk result (λ numbers. (connections : List Connection) (requests : List Request) (c : Connection) → AreAsked connections requests self.now → dialled_to connections peer.now ≡ Some c → numbers.items ≡ flat_map number_of (of_peer peer.now requests)) }
    {
        match self.rows.get(peer) {
            Some(row) => row.call_numbers(alloc),
            None => Ok(Vec::new(alloc)),
        }
    }

    /// The sequence numbers of all dirty and clean calls that are out to a peer, in the order in which they
    /// went.
    pub fn sequence_numbers(&self, peer: &Uuid, alloc: Global) -> Result<Vec<u64>, AllocError>
        ensures { IfOk result (λ numbers. (connections : List Connection) (requests : List Request) (c : Connection) → AreAsked connections requests self.now → dialled_to connections peer.now ≡ Some c → numbers.items ≡ flat_map sequence_of (of_peer peer.now requests)) }
    {
        match self.rows.get(peer) {
            Some(row) => row.sequence_numbers(alloc),
            None => Ok(Vec::new(alloc)),
        }
    }

    /// Gives a peer a row, if it has none, and makes room in it for this many more requests that wait,
    /// calls that are out, and groups that are out. Nothing else changes, at out of memory too.
    pub fn reserve(
        &mut self,
        peer: &Uuid,
        waiting: usize,
        calls: usize,
        groups: usize,
    ) -> Result<(), AllocError>
        ensures room { OnOk result (HasRoom peer.now waiting calls groups self.new) }
        ensures same { (connections : List Connection) (requests : List Request) → AreAsked connections requests self.old → AreAsked connections requests self.new }
        ensures rooms { (other : Peer) (w c g : ℕ) → HasRoom other w c g self.old → HasRoom other w c g self.new }
    {
        match self.rows.get_index_of(peer) {
            Some(index) => self.rows[index].reserve(waiting, calls, groups),
            None => {
                let mut row = Requests::new(self.alloc);
                row.reserve(waiting, calls, groups)?;
                self.rows.insert(*peer, row)?;
                Ok(())
            }
        }
    }

    /// Makes a request of a peer that waits, after all others. It takes no memory: the caller owes
    /// [room](Peers::reserve) for it.
    pub fn wait_reserved(&mut self, peer: &Uuid, asked: Asked)
        requires { HasRoom peer.now 1 0 0 self.old }
        ensures waits { (connections : List Connection) (requests : List Request) → AreAsked connections requests self.old → IsNamed (asked_of asked) → AreAsked connections (requests ++ record { peer = peer.now; asked = asked_of asked; stage = Waits } ∷ []) self.new }
        ensures room { (w c g : ℕ) → HasRoom peer.now (w + 1) c g self.old → HasRoom peer.now w c g self.new }
        ensures others { (other : Peer) → bytes_eq peer.now other ≡ false → row_of other self.new ≡ row_of other self.old }
    {
        match self.rows.get_index_of(peer) {
            Some(index) => self.rows[index].wait_reserved(asked),
            None => unreachable!(),
        }
    }

    /// Takes what waits of a peer, in the order in which it was made. It takes no memory.
    pub fn take_waiting(&mut self, peer: &Uuid, alloc: Global) -> Vec<Asked>
        ensures waited { (connections : List Connection) (requests : List Request) (c : Connection) → AreAsked connections requests self.old → dialled_to connections peer.now ≡ Some c → map asked_of result.items ≡ map (λ (r : Request). r.asked) (filter (waits_for peer.now) requests) }
        ensures taken { (connections : List Connection) (requests : List Request) (c : Connection) → AreAsked connections requests self.old → dialled_to connections peer.now ≡ Some c → AreAsked connections (filter (λ (r : Request). not (waits_for peer.now r)) requests) self.new }
        ensures named { (connections : List Connection) (requests : List Request) (c : Connection) → AreAsked connections requests self.old → dialled_to connections peer.now ≡ Some c → AllOf IsNamed (map asked_of result.items) }
        ensures room { (c g : ℕ) → HasRoom peer.now 0 c g self.old → HasRoom peer.now 0 c g self.new }
        ensures others { (other : Peer) → bytes_eq peer.now other ≡ false → row_of other self.new ≡ row_of other self.old }
    {
        match self.rows.get_index_of(peer) {
            Some(index) => self.rows[index].take_waiting(alloc),
            None => Vec::new(alloc),
        }
    }

    /// Notes that a connection to a peer was opened, and that its Hello went out, its first frame. It takes
    /// no memory: the caller owes a [row](Peers::reserve) for the peer.
    pub fn hello(&mut self, peer: &Uuid)
        requires { HasRoom peer.now 0 0 0 self.old }
        ensures sent { (connections : List Connection) (requests : List Request) (conn version : ℕ) (space : Peer) (digest : List ℕ) → AreAsked connections requests self.old → numbered conn connections ≡ None → dialled_to connections peer.now ≡ None → AreAsked (sent_on conn (message.Hello version space digest) (connections ++ opened conn (Some peer.now) ∷ [])) requests self.new }
        ensures room { (w c g : ℕ) → HasRoom peer.now w c g self.old → HasRoom peer.now w c g self.new }
        ensures others { (other : Peer) → bytes_eq peer.now other ≡ false → row_of other self.new ≡ row_of other self.old }
    {
        match self.rows.get_index_of(peer) {
            Some(index) => self.rows[index].hello(),
            None => unreachable!(),
        }
    }

    /// Notes that the connection to a peer goes on which nothing but the Hello went out, to be dialled again.
    /// All that is asked of the peer waits on.
    pub fn restart(&mut self, peer: &Uuid)
        ensures restarted { (connections : List Connection) (requests : List Request)
            (c : Connection) → AreAsked connections requests self.old
            → dialled_to connections peer.now ≡ Some c
            → AllOf (λ (r : Request). is_waiting r.stage ≡ true) (of_peer peer.now requests)
            → AreAsked (filter (λ (d : Connection). not (d.number == c.number)) connections)
            requests self.new }
        ensures room { (w c g : ℕ) → HasRoom peer.now w c g self.old
            → HasRoom peer.now w c g self.new }
        ensures others { (other : Peer) → bytes_eq peer.now other ≡ false
            → row_of other self.new ≡ row_of other self.old }
    {
        match self.rows.get_index_of(peer) {
            Some(index) => self.rows[index].restart(),
            None => {}
        }
    }

    /// Notes that a call or lookup of a peer goes out now, under a number above those of all that went
    /// before on the connection. It takes no memory: the caller owes [room](Peers::reserve) for it.
    pub fn call_reserved(&mut self, peer: &Uuid, number: u64, asker: Asker)
        requires { HasRoom peer.now 0 1 0 self.old }
        ensures sent { (connections : List Connection) (requests : List Request) (c : Connection) (asked : Question) (frame : Frame) → AreAsked connections requests self.old → dialled_to connections peer.now ≡ Some c → last_call c.sent < number → asks_by asked ≡ (number, asker) ∷ [] → IsNamed asked → call_number_in frame ≡ number ∷ [] → AreAsked (sent_on c.number frame connections) (requests ++ record { peer = peer.now; asked = asked; stage = Out c.number 0 } ∷ []) self.new }
        ensures room { (w c g : ℕ) → HasRoom peer.now w (c + 1) g self.old → HasRoom peer.now w c g self.new }
        ensures others { (other : Peer) → bytes_eq peer.now other ≡ false → row_of other self.new ≡ row_of other self.old }
    {
        match self.rows.get_index_of(peer) {
            Some(index) => self.rows[index].call_reserved(number, asker),
            None => unreachable!(),
        }
    }

    /// Notes that dirty or clean calls of a peer go out now in one frame, under a sequence number above
    /// those of all that went before on the connection. It takes no memory: the caller owes
    /// [room](Peers::reserve) for it.
    pub fn tell_reserved(&mut self, peer: &Uuid, sequence: u64, call: u64, group: Group)
        requires { HasRoom peer.now 0 0 1 self.old }
        ensures sent { (connections : List Connection) (requests : List Request) (c : Connection) → AreAsked connections requests self.old → dialled_to connections peer.now ≡ Some c → last_sequence c.sent < sequence → AreAsked (sent_on c.number (group_frame group.kind sequence group.ids) connections) (requests ++ record { peer = peer.now; asked = Tells call group; stage = Out c.number sequence } ∷ []) self.new }
        ensures room { (w c g : ℕ) → HasRoom peer.now w c (g + 1) self.old → HasRoom peer.now w c g self.new }
        ensures others { (other : Peer) → bytes_eq peer.now other ≡ false → row_of other self.new ≡ row_of other self.old }
    {
        match self.rows.get_index_of(peer) {
            Some(index) => self.rows[index].tell_reserved(sequence, call, group),
            None => unreachable!(),
        }
    }

    /// Notes that the result of a call or lookup of a peer has come and is parked.
    pub fn answer(&mut self, peer: &Uuid, number: u64)
        ensures answered { (connections : List Connection) (requests : List Request) (c : Connection) → AreAsked connections requests self.old → dialled_to connections peer.now ≡ Some c → AreAsked connections (map (answered_on c.number number) requests) self.new }
        ensures room { (w c g : ℕ) → HasRoom peer.now w c g self.old → HasRoom peer.now w c g self.new }
        ensures others { (other : Peer) → bytes_eq peer.now other ≡ false → row_of other self.new ≡ row_of other self.old }
    {
        match self.rows.get_index_of(peer) {
            Some(index) => self.rows[index].answer(number),
            None => {}
        }
    }

    /// Lets a call or lookup go that is out to a peer, if it is. It takes no memory.
    pub fn take_call(&mut self, peer: &Uuid, number: u64) -> Option<OutCall>
        ensures call { (connections : List Connection) (requests : List Request) (c : Connection) → AreAsked connections requests self.old → dialled_to connections peer.now ≡ Some c → result ≡ option_and_then (shown c.sent) (find (is_call_on c.number number) requests) }
        ensures taken { (connections : List Connection) (requests : List Request) (c : Connection) → AreAsked connections requests self.old → dialled_to connections peer.now ≡ Some c → AreAsked connections (filter (λ (r : Request). not (is_call_on c.number number r)) requests) self.new }
        ensures room { (w c g : ℕ) → HasRoom peer.now w c g self.old → HasRoom peer.now w c g self.new }
        ensures others { (other : Peer) → bytes_eq peer.now other ≡ false → row_of other self.new ≡ row_of other self.old }
    {
        match self.rows.get_index_of(peer) {
            Some(index) => self.rows[index].take_call(number),
            None => None,
        }
    }

    /// Lets a call or lookup of a peer go whose result has come, if it is out, and notes that its Ack goes
    /// out. It takes no memory.
    pub fn acknowledge(&mut self, peer: &Uuid, number: u64) -> Option<OutCall>
        ensures call { (connections : List Connection) (requests : List Request) (c : Connection) → AreAsked connections requests self.old → dialled_to connections peer.now ≡ Some c → result ≡ option_and_then (shown c.sent) (find (is_call_on c.number number) requests) }
        ensures acknowledged { (connections : List Connection) (requests : List Request) (c : Connection) → AreAsked connections requests self.old → dialled_to connections peer.now ≡ Some c → is_some (find (is_call_on c.number number) requests) ≡ true → AreAsked (sent_on c.number (message.Ack number) connections) (filter (λ (r : Request). not (is_call_on c.number number r)) requests) self.new }
        ensures room { (w c g : ℕ) → HasRoom peer.now w c g self.old → HasRoom peer.now w c g self.new }
        ensures others { (other : Peer) → bytes_eq peer.now other ≡ false → row_of other self.new ≡ row_of other self.old }
    {
        match self.rows.get_index_of(peer) {
            Some(index) => self.rows[index].acknowledge(number),
            None => None,
        }
    }

    /// Lets the dirty calls (or the clean calls) go that are out to a peer under this sequence number, if
    /// they are. It takes no memory.
    pub fn take_group(&mut self, peer: &Uuid, sequence: u64, dirty: bool) -> Option<OutGroup>
        ensures group { (connections : List Connection) (requests : List Request) (c : Connection) → AreAsked connections requests self.old → dialled_to connections peer.now ≡ Some c → result ≡ option_and_then told (find (tells_on dirty c.number sequence) requests) }
        ensures taken { (connections : List Connection) (requests : List Request) (c : Connection) → AreAsked connections requests self.old → dialled_to connections peer.now ≡ Some c → AreAsked connections (filter (λ (r : Request). not (tells_on dirty c.number sequence r)) requests) self.new }
        ensures room { (w c g : ℕ) → HasRoom peer.now w c g self.old → HasRoom peer.now w c g self.new }
        ensures others { (other : Peer) → bytes_eq peer.now other ≡ false → row_of other self.new ≡ row_of other self.old }
    {
        match self.rows.get_index_of(peer) {
            Some(index) => self.rows[index].take_group(sequence, dirty),
            None => None,
        }
    }

    /// Lets the row of a peer go to which no connection was dialled and of which nothing is asked: what is
    /// left if [`Peers::reserve`] gave it a row and nothing came of it. It takes no memory.
    pub fn release(&mut self, peer: &Uuid)
        ensures released { (connections : List Connection) (requests : List Request) → AreAsked connections requests self.old → dialled_to connections peer.now ≡ None → of_peer peer.now requests ≡ [] → AreAsked connections requests self.new }
        ensures gone { row_of peer.now self.new ≡ None }
        ensures others { (other : Peer) → bytes_eq peer.now other ≡ false → row_of other self.new ≡ row_of other self.old }
    {
        let _ = self.rows.swap_remove(peer);
    }

    /// What waits of a peer, in the order in which it was made.
    pub fn waiting(&self, peer: &Uuid) -> &[Asked]
        ensures { (connections : List Connection) (requests : List Request) → AreAsked connections requests self.now → map asked_of result.now ≡ map (λ (r : Request). r.asked) (filter (waits_for peer.now) requests) }
    {
        match self.rows.get(peer) {
            Some(row) => row.waiting(),
            None => &[],
        }
    }

    /// What the end of all that is asked of a peer needs, if the last `unsent` frames of its connection were
    /// not sent whole. The connection ends, or the peer refuses and has none.
    pub fn ending(&self, peer: &Uuid, unsent: u64, alloc: Global) -> Result<Ending, AllocError>
        ensures ending { IfOk result (λ ending. (connections : List Connection) (requests : List Request) (c : Connection) → AreAsked connections requests self.now → dialled_to connections peer.now ≡ Some c → IsEnding unsent (filter (is_of_connection c.number (Some peer.now)) requests) c.sent ending) }
        ensures refused { IfOk result (λ ending. (connections : List Connection) (requests : List Request) → AreAsked connections requests self.now → dialled_to connections peer.now ≡ None → IsEnding unsent (filter (waits_for peer.now) requests) [] ending) }
        ensures room { IfOk result (λ ending. IsEndRoom (row_of peer.now self.now) ending) }
    {
        match self.rows.get(peer) {
            Some(row) => row.ending(unsent, alloc),
            None => Ok(Ending::new(alloc)),
        }
    }

    /// Takes all that is asked of a peer, as the connection that was dialled to it ends or it refuses: its
    /// calls and lookups, and its dirty and clean calls, each in the order in which they were made. It takes
    /// no memory: [`Peers::ending`] made what it needs.
    pub fn end_reserved(&mut self, peer: &Uuid, ending: Ending) -> Ended
        requires { IsEndRoom (row_of peer.now self.old) ending }
        ensures ended { (connections : List Connection) (requests : List Request) (c : Connection) (unsent : ℕ) → AreAsked connections requests self.old → dialled_to connections peer.now ≡ Some c → IsEnding unsent (filter (is_of_connection c.number (Some peer.now)) requests) c.sent ending → IsEnded unsent (filter (is_of_connection c.number (Some peer.now)) requests) c.sent result }
        ensures refused { (connections : List Connection) (requests : List Request) (unsent : ℕ) → AreAsked connections requests self.old → dialled_to connections peer.now ≡ None → IsEnding unsent (filter (waits_for peer.now) requests) [] ending → IsEnded unsent (filter (waits_for peer.now) requests) [] result }
        ensures left { (connections : List Connection) (requests : List Request) (c : Connection) → AreAsked connections requests self.old → dialled_to connections peer.now ≡ Some c → AreAsked (filter (λ (d : Connection). not (d.number == c.number)) connections) (filter (λ (r : Request). not (is_of_connection c.number (Some peer.now) r)) requests) self.new }
        ensures stayed { (connections : List Connection) (requests : List Request) → AreAsked connections requests self.old → dialled_to connections peer.now ≡ None → AreAsked connections (filter (λ (r : Request). not (waits_for peer.now r)) requests) self.new }
        ensures gone { row_of peer.now self.new ≡ None }
        ensures others { (other : Peer) → bytes_eq peer.now other ≡ false → row_of other self.new ≡ row_of other self.old }
    {
        match self.rows.swap_remove(peer) {
            Some(row) => row.end_reserved(ending),
            None => ending.without_groups(),
        }
    }
}
