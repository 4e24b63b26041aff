//! What lives in a space, and what is seen of it.

ghost use Rattle.std.specs.Prelude.{◌≡◌, [], IfOk, Ok, map};
ghost use Rattle.sp_results.specs.Held.{AreCallResults, of_roots};
ghost use Rattle.sp_rules.specs.Classes.{Setting};
ghost use Rattle.sp_rules.specs.State.{State, opening};
ghost use Rattle.sp_transport.specs.Transports.{IsTransport};
ghost use Rattle.sp_living.specs.Views.{kept};

use sp_parked::Parked;
use sp_results::{CallResults, Results};
use sp_tasks::Tasks;
use sp_transport::Transport;
use space_ids::Uuid;
use std::alloc::{AllocError, Global};
use table_copies::PeerHashes;

/// What lives in a space: its tasks, the results that it holds, the frames that wait for leases, and its
/// side of the transport.
///
/// A contract names the states of the rules that the value may stand for. A call that fails may leave it
/// anywhere between two of them: what has failed is to be let go, and an equal value kept. What the laws of
/// histories exclude is looked at, and answered like memory that lacks.
#[derive(Drop)]
pub struct Living {
    pub(crate) alloc: Global,
    pub(crate) id: Uuid,
    pub(crate) moment: u64,
    pub(crate) tasks: Tasks,
    pub(crate) results: Results,
    pub(crate) call_results: CallResults,
    pub(crate) parked: Parked,
    pub(crate) transport: Transport,
}

impl Living {
    ghost use Rattle.sp_living.specs.Livings.{IsLiving};
    ghost use Rattle.sp_living.specs.Parts.{AreParkedIn, AreTasks};

    /// Nothing lives in the space of this id. What peers pick is hashed in this way.
    pub fn new(alloc: Global, id: Uuid, hashes: PeerHashes) -> Result<Living, AllocError>
        ensures { IfOk result (λ living. (g : Setting) → g.id ≡ id → IsLiving g opening living) }
    {
        Ok(Living {
            alloc,
            id,
            moment: 0,
            tasks: Tasks::new(alloc),
            results: Results::new(alloc)?,
            call_results: CallResults::new(alloc, hashes),
            parked: Parked::new(alloc, hashes),
            transport: Transport::new(alloc, hashes),
        })
    }

    /// The same, between events: nothing is noted, and no call is under way. What is lent is lent in the copy
    /// too. It costs a step for each row and each value in it.
    pub fn copy(&self) -> Result<Living, AllocError>
        ensures copied { IfOk result (λ copy. (g : Setting) (s : State) → IsLiving g s self.now → s.fresh ≡ [] → s.notes ≡ [] → IsLiving g s copy) }
        ensures rows { IfOk result (λ copy. copy.tasks.rows ≡ self.now.tasks.rows) }
    {
        let ended = both(self.results.copy(), self.call_results.copy());
        let carried = both(self.parked.copy(), self.transport.copy());
        let (tasks, ((results, call_results), (parked, transport))) = both(
            self.tasks.copy(),
            both(ended, carried),
        )?;
        Ok(Living {
            alloc: self.alloc,
            id: self.id,
            moment: self.moment,
            tasks,
            results,
            call_results,
            parked,
            transport,
        })
    }

    /// The id of the space.
    pub fn id(&self) -> Uuid
        ensures { (g : Setting) (s : State) → IsLiving g s self.now → result ≡ g.id }
    {
        self.id
    }

    /// The moment that is now, in milliseconds.
    pub fn moment(&self) -> u64
        ensures { (g : Setting) (s : State) → IsLiving g s self.now → result ≡ s.moment }
    {
        self.moment
    }

    /// The space's side of the transport.
    pub fn transport(&self) -> &Transport
        ensures { (g : Setting) (s : State) → IsLiving g s self.now → IsTransport s result.now }
    {
        &self.transport
    }

    /// The living tasks.
    pub fn tasks(&self) -> &Tasks
        ensures is { result.now ≡ self.now.tasks }
        ensures are { (g : Setting) (s : State) → IsLiving g s self.now → AreTasks g s.tasks_made s.tasks result.now }
    {
        &self.tasks
    }

    /// The results of the space's own roots and lookups that are held.
    pub fn results(&self) -> &Results
        ensures { (g : Setting) (s : State) → IsLiving g s self.now → map kept result.now ≡ of_roots s.results }
    {
        &self.results
    }

    /// The results of calls and lookups that came.
    pub fn call_results(&self) -> &CallResults
        ensures { (g : Setting) (s : State) → IsLiving g s self.now → AreCallResults s.moment s.results result.now }
    {
        &self.call_results
    }

    /// The frames that wait for leases.
    pub fn parked(&self) -> &Parked
        ensures { (g : Setting) (s : State) → IsLiving g s self.now → AreParkedIn s.parked result.now }
    {
        &self.parked
    }
}

// Returns both, unless memory ran out for one. What is there beside it is let go here, for any two types at once.
fn both<T: Drop, U: Drop>(
    one: Result<T, AllocError>,
    other: Result<U, AllocError>,
) -> Result<(T, U), AllocError>
    ensures { IfOk result (λ pair. (one ≡ Ok pair.0) × (other ≡ Ok pair.1)) }
{
    Ok((one?, other?))
}
