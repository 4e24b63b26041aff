//! Why events that come from outside are refused.

ghost use Rattle.std.specs.Prelude.{◌≡◌, ◌^◌, ◌||◌, nat_le, ℕ, List, false, None, Some, if◌then◌else◌, is_some, option_and_then, option_map};
ghost use Rattle.std.specs.List.{list_any};
ghost use Rattle.sp_events.specs.Events.{event_of};
ghost use Rattle.sp_events.specs.FaultNames.{core_fault_number};
ghost use Rattle.sp_rules.specs.Classes.{Setting};
ghost use Rattle.sp_rules.specs.OwnEvents.{is_of_root};
ghost use Rattle.sp_rules.specs.Refusals.{checks, first_refusal, is_worn, refusal, refusal_number, was_asked};
ghost use Rattle.sp_rules.specs.State.{State, is_dialling, is_open};

use crate::SpaceCore;
use crate::space_core::END;
use sp_events::{CoreFault, Event};
use sp_requests::Link;
use space_ids::Uuid;

impl SpaceCore {
    ghost use Rattle.sp_core.specs.Cores.{IsCore};

    // Why the event is refused, if it is.
    pub(crate) fn refusal(&self, event: &Event) -> Option<CoreFault>
        ensures { (g : Setting) (s : State) (lent : List ℕ) → IsCore g s self.now → option_map refusal_number (refusal g lent s (event_of event.now)) ≡ option_and_then core_fault_number result }
    {
        if self.is_worn() {
            Some(CoreFault::WornOut)
        } else {
            self.check(event)
        }
    }

    // Why the event is refused if the space is not worn out: the reason with the lowest number.
    fn check(&self, event: &Event) -> Option<CoreFault>
        ensures { (g : Setting) (s : State) (lent : List ℕ) → IsCore g s self.now → option_map refusal_number (first_refusal (checks g lent s (event_of event.now))) ≡ option_and_then core_fault_number result }
    {
        match event {
            Event::Moment(moment) => fault_if(*moment >= END, CoreFault::WornOut),
            Event::RootAck(task) => fault_if(!self.holds_result(*task), CoreFault::UnknownTask),
            Event::Lookup { peer, name: _ } => fault_if(*peer == self.id, CoreFault::Strange),
            Event::Opened { conn, dialled } => {
                fault_if(!self.may_open(*conn, dialled), CoreFault::Strange)
            }
            Event::Refused { peer } => fault_if(!self.is_dialling(peer), CoreFault::Strange),
            Event::Received { conn, message: _ } => self.check_open(*conn),
            Event::Closed { conn } | Event::ReadFailed { conn } => self.check_open(*conn),
            Event::Bad { conn } | Event::WriteFailed { conn, .. } => self.check_open(*conn),
            Event::Sweep | Event::Bind { .. } | Event::Rebind { .. } | Event::Unbind { .. } => None,
        }
    }

    // Why an event of a connection is refused, if it is: the connection is not open.
    fn check_open(&self, conn: u64) -> Option<CoreFault>
        ensures { (g : Setting) (s : State) → IsCore g s self.now → result ≡ (if is_open s conn then None else Some CoreFault.Strange) }
    {
        fault_if(!self.is_open(conn), CoreFault::Strange)
    }

    // Whether the number of an object, a task, a call, or a dirty or clean call has come to 2^63.
    pub(crate) fn is_worn(&self) -> bool
        ensures { (g : Setting) (s : State) → IsCore g s self.now → result ≡ is_worn s }
    {
        let objects = is_end(self.state.owner().objects_made());
        let tasks = is_end(self.state.living().tasks().made());
        let calls = is_end(self.state.living().transport().calls_made());
        let sequences = is_end(self.state.living().transport().last_sequence());
        is_any(objects, tasks, calls, sequences)
    }

    fn holds_result(&self, task: u64) -> bool
        ensures { (g : Setting) (s : State) → IsCore g s self.now → result ≡ list_any (is_of_root task) s.results }
    {
        self.state.living().results().contains(task)
    }

    // Whether a connection may open: it is not open, and a peer that was dialled is being dialled.
    fn may_open(&self, conn: u64, dialled: &Option<Uuid>) -> bool
        ensures { (g : Setting) (s : State) → IsCore g s self.now → result ≡ (if is_open s conn then false else was_asked s dialled.now) }
    {
        !self.is_open(conn) && self.was_asked(dialled)
    }

    fn is_open(&self, conn: u64) -> bool
        ensures { (g : Setting) (s : State) → IsCore g s self.now → result ≡ is_open s conn }
    {
        self.state.living().transport().connection(conn).is_some()
    }

    // Whether the peer is being dialled that this space is to have dialled, if it is to have dialled one.
    fn was_asked(&self, dialled: &Option<Uuid>) -> bool
        ensures { (g : Setting) (s : State) → IsCore g s self.now → result ≡ was_asked s dialled.now }
    {
        match dialled {
            Some(peer) => self.is_dialling(peer),
            None => true,
        }
    }

    fn is_dialling(&self, peer: &Uuid) -> bool
        ensures { (g : Setting) (s : State) → IsCore g s self.now → result ≡ is_dialling s peer.now }
    {
        match self.state.living().transport().link(peer) {
            Some(Link::Dialling) => true,
            Some(Link::Open(_)) => false,
            None => false,
        }
    }
}

fn fault_if(fails: bool, fault: CoreFault) -> Option<CoreFault>
    ensures { result ≡ (if fails then Some fault else None) }
{
    if fails { Some(fault) } else { None }
}

// Whether a number has come to 2^63.
fn is_end(number: u64) -> bool
    ensures { result ≡ nat_le (2 ^ 63) number }
{
    number >= END
}

fn is_any(objects: bool, tasks: bool, calls: bool, sequences: bool) -> bool
    ensures { result ≡ (objects || (tasks || (calls || sequences))) }
{
    objects || (tasks || (calls || sequences))
}
