//! Answers to dirty and clean calls.

ghost use Rattle.std.specs.Prelude.{◌≡◌, [], OnOk, Some, true, false};
ghost use Rattle.dgc_client.specs.History.Event.{CleanAnswered, DirtyAnswered};
ghost use Rattle.sp_living.specs.Livings.{IsLiving};
ghost use Rattle.sp_rules.specs.Classes.{Setting};
ghost use Rattle.sp_rules.specs.Frames.{told_by};
ghost use Rattle.sp_rules.specs.State.{Connection as Line, State, connection_at};
ghost use Rattle.sp_store.specs.Stores.{IsAfter};
ghost use Rattle.sp_tasks.specs.Lent.{KeepsLent};
ghost use Rattle.uuid.specs.declared.Uuid.{Uuid as Peer};

use crate::ends::close;
use crate::frames::go_all;
use sp_living::Living;
use sp_requests::{CallClasses, RemoteException};
use sp_store::Store;
use std::alloc::AllocError;

/// Notes that the dirty calls that went out on a connection under this sequence number were answered, by
/// leases for this period, in milliseconds: frames that waited for them go. An answer to nothing closes
/// the connection. It comes on one that this space dialled.
pub fn lease<C: CallClasses>(
    living: &mut Living,
    store: &Store,
    classes: &C,
    conn: u64,
    sequence: u64,
    period: u64,
) -> Result<(), AllocError>
    ensures told { OnOk result ((g : Setting) (s : State) (c : Line) (peer : Peer) → IsLiving g s living.old → s.notes ≡ [] → C.tells classes.now g.classes → IsAfter g s.store store.now → connection_at s conn ≡ Some c → c.dialled ≡ Some peer → IsLiving g (told_by g c true sequence (λ call. DirtyAnswered call period) s) living.new) }
    ensures lent { OnOk result (KeepsLent living.old.tasks living.new.tasks) }
{
    let some = living.dirty_answered(conn, sequence, period);
    if some {
        go_all(living, store, classes)
    } else {
        close(living, classes, RemoteException::Unmarshal, conn)
    }
}

/// Notes that the clean calls that went out on a connection under this sequence number were answered. An
/// answer to nothing closes the connection. It comes on one that this space dialled.
pub fn cleaned<C: CallClasses>(
    living: &mut Living,
    store: &Store,
    classes: &C,
    conn: u64,
    sequence: u64,
) -> Result<(), AllocError>
    ensures told { OnOk result ((g : Setting) (s : State) (c : Line) (peer : Peer) → IsLiving g s living.old → s.notes ≡ [] → C.tells classes.now g.classes → IsAfter g s.store store.now → connection_at s conn ≡ Some c → c.dialled ≡ Some peer → IsLiving g (told_by g c false sequence CleanAnswered s) living.new) }
    ensures lent { OnOk result (KeepsLent living.old.tasks living.new.tasks) }
{
    let some = living.clean_answered(conn, sequence);
    if some {
        go_all(living, store, classes)
    } else {
        close(living, classes, RemoteException::Unmarshal, conn)
    }
}
