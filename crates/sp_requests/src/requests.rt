//! What is asked of one peer and has not ended.

ghost use Rattle.std.specs.Prelude.{◌≡◌, ℕ, ◌≤◌, ◌<◌, ◌+◌, ◌++◌, ◌==◌, ◌-◌, ◌^◌, min, nat_eq, if◌then◌else◌, not, true, Bool, List, [], ◌∷◌, None, Some, IfOk, OnOk, find, filter, is_some, map, option_and_then, option_copied, take, vec_len};
ghost use Rattle.std.specs.Vec.{vec_capacity};
ghost use Rattle.std.specs.List.{flat_map, list_any};
ghost use Rattle.std.specs.Map.{set_value};
ghost use Rattle.uuid.specs.declared.Uuid.{Uuid as Peer};
ghost use Rattle.net_message.specs.declared.message.Message.{Message as Frame};
ghost use Rattle.net_message.specs.declared.message.Message.TheVariants as message;
ghost use Rattle.sp_rules.specs.Endings.{call_number_in, is_group};
ghost use Rattle.sp_rules.specs.Frames.{answered_on, is_dirty_kind, tells_on};
ghost use Rattle.sp_rules.specs.Laws.{AllOf};
ghost use Rattle.sp_rules.specs.ParkedFrames.{is_asked_on, is_call_on};
ghost use Rattle.sp_rules.specs.Requests.{group_frame, is_waiting};
ghost use Rattle.sp_rules.specs.State.{Asked as Question, Out, Request, Tells, Waits};
ghost use Rattle.sp_requests.specs.Ends.{ended_group, waiting_among, waiting_group};
ghost use Rattle.sp_requests.specs.Asking.{asked_of};

use crate::copies::copy_waiting;
use crate::{Asked, Asker, Ended, EndedCall, Ending, OutCall, OutGroup};
use dgc_client::{Due, Group};
use rising_map::RisingMap;
use std::alloc::{AllocError, Global};
use std::mem;
use table_copies::CopyIn;

/// What is asked of one peer and has not ended. Before the peer's Hello all of it waits, in the order in
/// which it was made. Then calls and lookups are out by their numbers, dirty and clean calls by their
/// sequence numbers; both rise.
///
/// Of the frames that went out on the connection only the count is kept, and with each call how many
/// went before it: so memory does not grow with what was sent.
///
/// A contract names the lists of requests and of frames that the value may stand for.
#[derive(Drop)]
pub struct Requests {
    waiting: Vec<Asked>,
    calls: RisingMap<OutCall>,
    groups: RisingMap<OutGroup>,
    frames: u128,
}

impl CopyIn for Requests {
    ghost use Rattle.sp_requests.specs.Asking.{HasRequestsOf};

    ghost is_copy = { HasRequestsOf };

    fn copy_in(&self, _alloc: Global) -> Result<Requests, AllocError> {
        self.copy()
    }
}

impl Requests {
    ghost use Rattle.rising_map.specs.Rows.{AreRows};
    ghost use Rattle.sp_requests.specs.declared.asked.OutCall.{OutCall as Kept};
    ghost use Rattle.sp_requests.specs.Asking.{AreRequests, IsNamed, asks_by, call_room, group_room, last_call, last_sequence, number_of, sequence_of, shown, told, waiting_room};
    ghost use Rattle.sp_requests.specs.Ends.{HasEndRoom, IsEnded, IsEnding, ended_call, out_among, unsent_among};

    /// Nothing is asked of the peer, and no frame went out.
    pub fn new(alloc: Global) -> Requests
        ensures requests { (conn : ℕ) → AreRequests conn [] [] result }
    {
        Requests {
            waiting: Vec::new(alloc),
            calls: RisingMap::new(alloc),
            groups: RisingMap::new(alloc),
            frames: 0,
        }
    }

    /// The same that is asked of the peer. Room that was made may be lost. It costs a step for each row
    /// and each value in it.
    pub fn copy(&self) -> Result<Requests, AllocError>
        ensures copied { IfOk result (λ copy. (conn : ℕ) (rows : List Request) (sent : List Frame) → AreRequests conn rows sent self.now → AreRequests conn rows sent copy) }
    {
        Ok(Requests {
            waiting: copy_waiting(*self.waiting.allocator(), &self.waiting)?,
            calls: self.calls.copy()?,
            groups: self.groups.copy()?,
            frames: self.frames,
        })
    }

    /// The call or lookup of this number that is out, if it is.
    pub fn call(&self, number: u64) -> Option<OutCall>
        ensures { (conn : ℕ) (rows : List Request) (sent : List Frame) → AreRequests conn rows sent self.now → result ≡ option_and_then (shown sent) (find (is_call_on conn number) rows) }
    {
        self.calls.get(number).copied()
    }

    /// The call or lookup of this number that is out and has no answer, if there is one.
    pub fn asked(&self, number: u64) -> Option<OutCall>
        ensures { (conn : ℕ) (rows : List Request) (sent : List Frame) → AreRequests conn rows sent self.now → result ≡ option_and_then (shown sent) (find (is_asked_on conn number) rows) }
    {
        let call = self.calls.get(number)?;
        if call.answered { None } else { Some(*call) }
    }

    /// Whether a call or lookup that is out went with the last `unsent` frames of the connection.
    pub fn is_unsent(&self, number: u64, unsent: u64) -> bool
        ensures { (conn : ℕ) (rows : List Request) (sent : List Frame) → AreRequests conn rows sent self.now → is_some (find (is_call_on conn number) rows) ≡ true → result ≡ list_any (◌==◌ number) (flat_map call_number_in (take unsent sent)) }
    {
        match self.calls.get(number) {
            Some(call) => self.frames <= call.index.saturating_add(u128::from(unsent)),
            None => false,
        }
    }

    /// Makes room for this many more requests that wait, calls that are out, and groups that are out.
    /// Nothing else changes, at out of memory too.
    pub fn reserve(&mut self, waiting: usize, calls: usize, groups: usize) -> Result<(), AllocError>
        ensures waiting { OnOk result (waiting ≤ waiting_room self.new) }
        ensures calls { OnOk result (calls ≤ call_room self.new) }
        ensures groups { OnOk result (groups ≤ group_room self.new) }
        ensures same { (conn : ℕ) (rows : List Request) (sent : List Frame) → AreRequests conn rows sent self.old → AreRequests conn rows sent self.new }
        ensures waiting_room { waiting_room self.old ≤ waiting_room self.new }
        ensures call_room { call_room self.old ≤ call_room self.new }
        ensures group_room { group_room self.old ≤ group_room self.new }
    {
        self.waiting.reserve(waiting)?;
        self.calls.reserve(calls)?;
        self.groups.reserve(groups)
    }

    /// Makes a request that waits, after all others. It takes no memory: the caller owes
    /// [room](Requests::reserve) for it.
    pub fn wait_reserved(&mut self, asked: Asked)
        requires { 0 < waiting_room self.old }
        ensures waits { (conn : ℕ) (rows : List Request) (sent : List Frame) (peer : Peer) → AreRequests conn rows sent self.old → IsNamed (asked_of asked) → AreRequests conn (rows ++ record { peer = peer; asked = asked_of asked; stage = Waits } ∷ []) sent self.new }
        ensures waiting_room { waiting_room self.old ≤ waiting_room self.new + 1 }
        ensures call_room { call_room self.new ≡ call_room self.old }
        ensures group_room { group_room self.new ≡ group_room self.old }
    {
        self.waiting.push_reserved(asked);
    }

    /// Takes what waits, in the order in which it was made. It takes no memory.
    pub fn take_waiting(&mut self, alloc: Global) -> Vec<Asked>
        ensures waited { (conn : ℕ) (rows : List Request) (sent : List Frame) → AreRequests conn rows sent self.old → map asked_of result.items ≡ map (λ (r : Request). r.asked) (filter (λ (r : Request). is_waiting r.stage) rows) }
        ensures taken { (conn : ℕ) (rows : List Request) (sent : List Frame) → AreRequests conn rows sent self.old → AreRequests conn (filter (λ (r : Request). not (is_waiting r.stage)) rows) sent self.new }
        ensures named { (conn : ℕ) (rows : List Request) (sent : List Frame) → AreRequests conn rows sent self.old → AllOf IsNamed (map asked_of result.items) }
        ensures call_room { call_room self.new ≡ call_room self.old }
        ensures group_room { group_room self.new ≡ group_room self.old }
    {
        mem::replace(&mut self.waiting, Vec::new(alloc))
    }

    /// Notes that the connection's Hello went out, its first frame.
    pub fn hello(&mut self)
        ensures sent { (conn version : ℕ) (rows : List Request) (space : Peer) (digest : List ℕ) → AreRequests conn rows [] self.old → AreRequests conn rows (message.Hello version space digest ∷ []) self.new }
        ensures waiting_room { waiting_room self.new ≡ waiting_room self.old }
        ensures call_room { call_room self.new ≡ call_room self.old }
        ensures group_room { group_room self.new ≡ group_room self.old }
    {
        self.count_frame();
    }

    /// Notes that the connection goes on which nothing but the Hello went out, to be dialled again. All that is
    /// asked waits on.
    pub fn restart(&mut self)
        ensures restarted { (conn other : ℕ) (rows : List Request) (sent : List Frame)
            → AreRequests conn rows sent self.old
            → AllOf (λ (r : Request). is_waiting r.stage ≡ true) rows
            → AreRequests other rows [] self.new }
        ensures waiting_room { waiting_room self.new ≡ waiting_room self.old }
        ensures call_room { call_room self.new ≡ call_room self.old }
        ensures group_room { group_room self.new ≡ group_room self.old }
    {
        self.frames = 0;
    }

    /// Notes that a call or lookup goes out now, under a number above those of all that went before on the
    /// connection. It takes no memory: the caller owes [room](Requests::reserve) for it.
    pub fn call_reserved(&mut self, number: u64, asker: Asker)
        requires { 0 < call_room self.old }
        ensures sent { (conn : ℕ) (rows : List Request) (sent : List Frame) (peer : Peer) (asked : Question) (frame : Frame) → AreRequests conn rows sent self.old → last_call sent < number → asks_by asked ≡ (number, asker) ∷ [] → IsNamed asked → call_number_in frame ≡ number ∷ [] → AreRequests conn (rows ++ record { peer = peer; asked = asked; stage = Out conn 0 } ∷ []) (frame ∷ sent) self.new }
        ensures waiting_room { waiting_room self.new ≡ waiting_room self.old }
        ensures call_room { call_room self.old ≤ call_room self.new + 1 }
        ensures group_room { group_room self.new ≡ group_room self.old }
    {
        let call = OutCall {
            asker,
            answered: false,
            index: self.frames,
        };
        self.calls.push_reserved(number, call);
        self.count_frame();
    }

    /// Notes that dirty or clean calls go out now in one frame, under a sequence number above those of all
    /// that went before on the connection. It takes no memory: the caller owes [room](Requests::reserve)
    /// for it.
    pub fn tell_reserved(&mut self, sequence: u64, call: u64, group: Group)
        requires { 0 < group_room self.old }
        ensures sent { (conn : ℕ) (rows : List Request) (sent : List Frame) (peer : Peer) → AreRequests conn rows sent self.old → last_sequence sent < sequence → AreRequests conn (rows ++ record { peer = peer; asked = Tells call group; stage = Out conn sequence } ∷ []) (group_frame group.kind sequence group.ids ∷ sent) self.new }
        ensures waiting_room { waiting_room self.new ≡ waiting_room self.old }
        ensures call_room { call_room self.new ≡ call_room self.old }
        ensures group_room { group_room self.old ≤ group_room self.new + 1 }
    {
        self.groups
            .push_reserved(sequence, OutGroup { call, group });
        self.count_frame();
    }

    /// Notes that the result of a call or lookup has come and is parked.
    pub fn answer(&mut self, number: u64)
        ensures answered { (conn : ℕ) (rows : List Request) (sent : List Frame) → AreRequests conn rows sent self.old → AreRequests conn (map (answered_on conn number) rows) sent self.new }
        ensures waiting_room { waiting_room self.new ≡ waiting_room self.old }
        ensures call_room { call_room self.new ≡ call_room self.old }
        ensures group_room { group_room self.new ≡ group_room self.old }
    {
        match self.call(number) {
            Some(call) => self.mark(number, call),
            None => {}
        }
    }

    // Puts a call back as answered.
    fn mark(&mut self, number: u64, call: OutCall)
        ensures calls { (rows : List (ℕ × Kept)) → AreRows rows self.old.calls → AreRows (set_value (nat_eq number) rows (record call { answered = true })) self.new.calls }
        ensures others { self.new ≡ record self.old { calls = self.new.calls } }
        ensures room { call_room self.new ≡ call_room self.old }
    {
        let _ = self.calls.replace(
            number,
            OutCall {
                answered: true,
                ..call
            },
        );
    }

    /// Lets a call or lookup go that is out, if it is. It takes no memory.
    pub fn take_call(&mut self, number: u64) -> Option<OutCall>
        ensures call { (conn : ℕ) (rows : List Request) (sent : List Frame) → AreRequests conn rows sent self.old → result ≡ option_and_then (shown sent) (find (is_call_on conn number) rows) }
        ensures taken { (conn : ℕ) (rows : List Request) (sent : List Frame) → AreRequests conn rows sent self.old → AreRequests conn (filter (λ (r : Request). not (is_call_on conn number r)) rows) sent self.new }
        ensures waiting_room { waiting_room self.new ≡ waiting_room self.old }
        ensures call_room { call_room self.old ≤ call_room self.new }
        ensures group_room { group_room self.new ≡ group_room self.old }
    {
        self.calls.take(number)
    }

    /// Lets a call or lookup go whose result has come, if it is out, and notes that its Ack goes out. It
    /// takes no memory.
    pub fn acknowledge(&mut self, number: u64) -> Option<OutCall>
        ensures call { (conn : ℕ) (rows : List Request) (sent : List Frame) → AreRequests conn rows sent self.old → result ≡ option_and_then (shown sent) (find (is_call_on conn number) rows) }
        ensures acknowledged { (conn : ℕ) (rows : List Request) (sent : List Frame) → AreRequests conn rows sent self.old → is_some (find (is_call_on conn number) rows) ≡ true → AreRequests conn (filter (λ (r : Request). not (is_call_on conn number r)) rows) (message.Ack number ∷ sent) self.new }
        ensures waiting_room { waiting_room self.new ≡ waiting_room self.old }
        ensures call_room { call_room self.old ≤ call_room self.new }
        ensures group_room { group_room self.new ≡ group_room self.old }
    {
        let call = self.take_call(number)?;
        self.count_frame();
        Some(call)
    }

    /// Lets the dirty calls (or the clean calls) go that are out under this sequence number, if they are. It
    /// takes no memory.
    pub fn take_group(&mut self, sequence: u64, dirty: bool) -> Option<OutGroup>
        ensures group { (conn : ℕ) (rows : List Request) (sent : List Frame) → AreRequests conn rows sent self.old → result ≡ option_and_then told (find (tells_on dirty conn sequence) rows) }
        ensures taken { (conn : ℕ) (rows : List Request) (sent : List Frame) → AreRequests conn rows sent self.old → AreRequests conn (filter (λ (r : Request). not (tells_on dirty conn sequence r)) rows) sent self.new }
        ensures waiting_room { waiting_room self.new ≡ waiting_room self.old }
        ensures call_room { call_room self.new ≡ call_room self.old }
        ensures group_room { group_room self.old ≤ group_room self.new }
    {
        if is_kind(self.groups.get(sequence)?, dirty) {
            self.groups.take(sequence)
        } else {
            None
        }
    }

    /// The numbers of all calls and lookups that are out, in the order in which they were made.
    pub fn call_numbers(&self, alloc: Global) -> Result<Vec<u64>, AllocError>
        ensures { IfOk result (λ numbers. (conn : ℕ) (rows : List Request) (sent : List Frame) → AreRequests conn rows sent self.now → numbers.items ≡ flat_map number_of rows) }
    {
        self.calls.numbers(alloc)
    }

    /// The sequence numbers of all dirty and clean calls that are out, in the order in which they went.
    pub fn sequence_numbers(&self, alloc: Global) -> Result<Vec<u64>, AllocError>
        ensures { IfOk result (λ numbers. (conn : ℕ) (rows : List Request) (sent : List Frame) → AreRequests conn rows sent self.now → numbers.items ≡ flat_map sequence_of rows) }
    {
        self.groups.numbers(alloc)
    }

    /// What waits, in the order in which it was made.
    pub fn waiting(&self) -> &[Asked]
        ensures { (conn : ℕ) (rows : List Request) (sent : List Frame) → AreRequests conn rows sent self.now → map asked_of result.now ≡ map (λ (r : Request). r.asked) (filter (λ (r : Request). is_waiting r.stage) rows) }
    {
        self.waiting.as_slice()
    }

    /// What the end of all that is asked needs, if the last `unsent` frames were not sent whole.
    pub fn ending(&self, unsent: u64, alloc: Global) -> Result<Ending, AllocError>
        ensures ending { IfOk result (λ ending. (conn : ℕ) (rows : List Request) (sent : List Frame) → AreRequests conn rows sent self.now → IsEnding unsent rows sent ending) }
        ensures room { IfOk result (λ ending. HasEndRoom self.now ending) }
    {
        let mut calls = self.out_calls(unsent, alloc)?;
        self.waiting_calls(&mut calls)?;
        let sequences = self.groups.numbers(alloc)?;
        let groups = self.make_group_room(sequences.len(), alloc)?;
        Ok(Ending {
            calls,
            sequences,
            groups,
        })
    }

    // The calls and lookups that are out, in their order.
    fn out_calls(&self, unsent: u64, alloc: Global) -> Result<Vec<EndedCall>, AllocError>
        ensures { IfOk result (λ calls. (conn : ℕ) (rows : List Request) (sent : List Frame) → AreRequests conn rows sent self.now → calls.items ≡ flat_map (ended_call (unsent_among unsent sent)) (out_among rows)) }
    {
        let numbers = self.calls.numbers(alloc)?;
        let mut calls = Vec::new(alloc);
        for number in &numbers {
            if let Some(call) = self.call(*number) {
                calls.push(EndedCall {
                    asker: call.asker,
                    unsent: self.is_unsent(*number, unsent),
                })?;
            }
        }
        Ok(calls)
    }

    // Puts the calls and lookups that wait after others, in their order.
    fn waiting_calls(&self, calls: &mut Vec<EndedCall>) -> Result<(), AllocError>
        ensures { OnOk result ((conn unsent : ℕ) (rows : List Request) (sent : List Frame) → AreRequests conn rows sent self.now → calls.new.items ≡ calls.old.items ++ flat_map (ended_call (unsent_among unsent sent)) (waiting_among rows)) }
    {
        for asked in &self.waiting {
            if let Some(asker) = asked.asker() {
                calls.push(EndedCall {
                    asker,
                    unsent: false,
                })?;
            }
        }
        Ok(())
    }

    // Room for this many groups that are out, and all that wait.
    fn make_group_room(&self, out: usize, alloc: Global) -> Result<Vec<OutGroup>, AllocError>
        ensures items { IfOk result (λ groups. groups.items ≡ []) }
        ensures room { IfOk result (λ groups. vec_len groups + (out + vec_len self.now.waiting) ≤ vec_capacity groups) }
    {
        let mut groups = Vec::with_capacity(alloc, out)?;
        groups.reserve(out.saturating_add(self.waiting.len()))?;
        Ok(groups)
    }

    /// Takes all that was asked. It takes no memory: [`Requests::ending`] made what it needs.
    pub fn end_reserved(self, ending: Ending) -> Ended
        requires { HasEndRoom self ending }
        ensures { (conn unsent : ℕ) (rows : List Request) (sent : List Frame) → AreRequests conn rows sent self → IsEnding unsent rows sent ending → IsEnded unsent rows sent result }
    {
        let Ending {
            calls,
            sequences,
            mut groups,
        } = ending;
        let Requests {
            waiting,
            calls: _,
            groups: mut out,
            frames: _,
        } = self;
        out.take_all_reserved(&sequences, &mut groups);
        end_waiting(waiting, &mut groups);
        Ended { calls, groups }
    }

    // Counts a frame that goes out.
    fn count_frame(&mut self)
        ensures { self.new ≡ record self.old { frames = min (self.old.frames + 1) (2 ^ 128 - 1) } }
    {
        self.frames = self.frames.saturating_add(1);
    }
}

// Whether the calls of a group are dirty calls, or clean calls.
fn is_kind(told: &OutGroup, dirty: bool) -> bool
    ensures { result ≡ (if dirty then is_dirty_kind told.now.group.kind else not (is_dirty_kind told.now.group.kind)) }
{
    match told.group.kind {
        Due::Dirty => dirty,
        Due::Clean { strong: _ } => !dirty,
    }
}

// Puts the dirty and clean calls that wait after others, in their order. There is room for all.
fn end_waiting(waiting: Vec<Asked>, groups: &mut Vec<OutGroup>)
    requires { vec_len groups.old + vec_len waiting ≤ vec_capacity groups.old }
    ensures { (rows : List Request) → map asked_of waiting.items ≡ map (λ (r : Request). r.asked) (waiting_among rows) → groups.new.items ≡ groups.old.items ++ flat_map ended_group (waiting_among rows) }
{
    for asked in waiting {
        end_one(asked, groups);
    }
}

// The same of one request.
fn end_one(asked: Asked, groups: &mut Vec<OutGroup>)
    requires { vec_len groups.old < vec_capacity groups.old }
    ensures items { groups.new.items ≡ groups.old.items ++ waiting_group asked }
    ensures length { vec_len groups.new ≤ vec_len groups.old + 1 }
    ensures capacity { vec_capacity groups.new ≡ vec_capacity groups.old }
{
    match asked {
        Asked::Tell { call, group } => groups.push_reserved(OutGroup { call, group }),
        _ => {}
    }
}
