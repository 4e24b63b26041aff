//! Connections that end, peers that refuse, and what was asked on them.

ghost use Rattle.std.specs.Prelude.{◌≡◌, ◌==◌, ℕ, List, [], None, Some, OnOk, filter, true};
ghost use Rattle.sp_requests.specs.Thrown.{thrown_class};
ghost use Rattle.sp_endings.specs.Ends.{AreThrown, end_call, end_each, fail_out};
ghost use Rattle.sp_living.specs.Livings.{IsLiving};
ghost use Rattle.sp_rules.specs.Classes.{Setting};
ghost use Rattle.sp_rules.specs.Endings.{by_unmarshal, close, end_connection, fail_write, redial, unpark, unsent_calls};
ghost use Rattle.sp_rules.specs.Lists.{each};
ghost use Rattle.sp_rules.specs.OwnEvents.{on_refused};
ghost use Rattle.sp_rules.specs.State.{Asked as Question, Connection as Line, ParkedFrame as Row, Request, State, connection_at, is_dialling};
ghost use Rattle.sp_tasks.specs.Lent.{KeepsLent};
ghost use Rattle.sp_transport.specs.Answers.{AreEnded};
ghost use Rattle.space_ids.specs.declared.ids.ClassId.{ClassId as Class};

use crate::failing::fail_group;
use crate::thrown::Thrown;
use sp_living::Living;
use sp_outputs::Output;
use sp_requests::{CallClasses, Ended, EndedCall, OutGroup, RemoteException};
use sp_tasks::Reply;
use space_ids::Uuid;
use std::alloc::AllocError;

/// Ends a connection that was closed or failed: its parked calls are dropped, and its results held on. If
/// this space dialled it, all that is asked of the peer ends, calls and lookups with UnmarshalException.
/// Nothing happens if it is not open.
pub fn end_connection<C: CallClasses>(
    living: &mut Living,
    classes: &C,
    conn: u64,
) -> Result<(), AllocError>
    ensures ended { OnOk result ((g : Setting) (s : State) → IsLiving g s living.old → s.notes ≡ [] → C.tells classes.now g.classes → IsLiving g (end_connection g (by_unmarshal g) conn s) living.new) }
    ensures lent { OnOk result (KeepsLent living.old.tasks living.new.tasks) }
{
    let class = classes.thrown(RemoteException::Unmarshal);
    end_as(living, classes, conn, 0, Thrown::all(class))
}

/// Closes a connection, which ends. Calls and lookups end with an exception of this class.
pub fn close<C: CallClasses>(
    living: &mut Living,
    classes: &C,
    exception: RemoteException,
    conn: u64,
) -> Result<(), AllocError>
    ensures closed { OnOk result ((g : Setting) (s : State) → IsLiving g s living.old → s.notes ≡ [] → C.tells classes.now g.classes → IsLiving g (close g (thrown_class g.classes exception) conn s) living.new) }
    ensures lent { OnOk result (KeepsLent living.old.tasks living.new.tasks) }
{
    let class = classes.thrown(exception);
    end_as(living, classes, conn, 0, Thrown::all(class))?;
    living.say(Output::Close(conn))
}

/// Gives a connection up on which a peer that was dialled answered that it speaks version 1 alone: the peer is
/// noted, and dialled again once the connection is closed. All that is asked of it waits on.
pub fn redial(living: &mut Living, conn: u64, peer: &Uuid) -> Result<(), AllocError>
    ensures redialled { OnOk result ((g : Setting) (s : State) (c : Line) → IsLiving g s living.old
        → s.notes ≡ [] → connection_at s conn ≡ Some c → c.dialled ≡ Some peer.now → c.peer ≡ None
        → IsLiving g (redial peer.now conn s) living.new) }
    ensures lent { OnOk result (KeepsLent living.old.tasks living.new.tasks) }
{
    unpark(living, conn)?;
    living.redial(conn, peer)
}

/// Ends a connection of which the last frames, this many, were not sent whole. Calls and lookups among
/// them end with MarshalException, and the others with UnmarshalException.
pub fn fail_write<C: CallClasses>(
    living: &mut Living,
    classes: &C,
    conn: u64,
    unsent: u64,
) -> Result<(), AllocError>
    ensures failed { OnOk result ((g : Setting) (s : State) → IsLiving g s living.old → s.notes ≡ [] → C.tells classes.now g.classes → IsLiving g (fail_write g conn unsent s) living.new) }
    ensures lent { OnOk result (KeepsLent living.old.tasks living.new.tasks) }
{
    let thrown = Thrown {
        unsent: classes.thrown(RemoteException::Marshal),
        others: classes.thrown(RemoteException::Unmarshal),
    };
    end_as(living, classes, conn, unsent, thrown)
}

/// Ends what waits for a peer that was dialled and refused, calls and lookups with ConnectException. Only
/// one that is being dialled refuses.
pub fn refuse<C: CallClasses>(
    living: &mut Living,
    classes: &C,
    peer: &Uuid,
) -> Result<(), AllocError>
    ensures refused { OnOk result ((g : Setting) (s : State) → IsLiving g s living.old → s.notes ≡ [] → C.tells classes.now g.classes → is_dialling s peer.now ≡ true → IsLiving g (on_refused g peer.now s) living.new) }
    ensures lent { OnOk result (KeepsLent living.old.tasks living.new.tasks) }
{
    let ended = living.take_refused(peer)?;
    let class = classes.thrown(RemoteException::Connect);
    end_all(living, classes, &ended, Thrown::all(class))
}

// Ends a connection, if it is open, of which the last frames, this many, were not sent whole.
fn end_as<C: CallClasses>(
    living: &mut Living,
    classes: &C,
    conn: u64,
    unsent: u64,
    thrown: Thrown,
) -> Result<(), AllocError>
    ensures ended { OnOk result ((g : Setting) (s : State) (why : Question → Class) → IsLiving g s living.old → s.notes ≡ [] → C.tells classes.now g.classes → AreThrown why (unsent_calls s conn unsent) thrown → IsLiving g (end_connection g why conn s) living.new) }
    ensures lent { OnOk result (KeepsLent living.old.tasks living.new.tasks) }
{
    let Some(connection) = living.transport().connection(conn) else {
        return Ok(());
    };
    let ended = living.take_connection(conn, connection.dialled, unsent)?;
    unpark(living, conn)?;
    end_all(living, classes, &ended, thrown)
}

// Drops the frames that are parked on a connection.
fn unpark(living: &mut Living, conn: u64) -> Result<(), AllocError>
    ensures dropped { OnOk result ((g : Setting) (s : State) → IsLiving g s living.old → IsLiving g (each unpark (filter (λ (p : Row). p.conn == conn) s.parked) s) living.new) }
    ensures lent { OnOk result (KeepsLent living.old.tasks living.new.tasks) }
{
    for frame in &living.take_frames_on(conn)? {
        living.drop_ids(frame.references.as_slice());
    }
    Ok(())
}

// Ends what was asked of a peer: first calls and lookups, and then dirty and clean calls, which fail.
fn end_all<C: CallClasses>(
    living: &mut Living,
    classes: &C,
    ended: &Ended,
    thrown: Thrown,
) -> Result<(), AllocError>
    ensures ended { OnOk result ((g : Setting) (s : State) (why : Question → Class) (unsent : List ℕ) (requests : List Request) → IsLiving g s living.old → C.tells classes.now g.classes → AreEnded unsent requests ended.now → AreThrown why unsent thrown → IsLiving g (end_each g why requests s) living.new) }
    ensures lent { OnOk result (KeepsLent living.old.tasks living.new.tasks) }
{
    end_calls(living, &ended.calls, thrown)?;
    fail_groups(living, classes, &ended.groups)
}

// Ends calls and lookups, one after the other.
fn end_calls(living: &mut Living, calls: &[EndedCall], thrown: Thrown) -> Result<(), AllocError>
    ensures ended { OnOk result ((g : Setting) (s : State) → IsLiving g s living.old → IsLiving g (each (end_call g thrown) calls.now s) living.new) }
    ensures lent { OnOk result (KeepsLent living.old.tasks living.new.tasks) }
{
    for call in calls {
        living.reply_to(call.asker, Reply::Throws(thrown.class(call.unsent)))?;
    }
    Ok(())
}

// Lets dirty and clean calls fail, group after group.
fn fail_groups<C: CallClasses>(
    living: &mut Living,
    classes: &C,
    groups: &[OutGroup],
) -> Result<(), AllocError>
    ensures failed { OnOk result ((g : Setting) (s : State) → IsLiving g s living.old → C.tells classes.now g.classes → IsLiving g (each (fail_out g) groups.now s) living.new) }
    ensures lent { OnOk result (KeepsLent living.old.tasks living.new.tasks) }
{
    for told in groups {
        fail_group(living, classes, &told.group, told.call)?;
    }
    Ok(())
}
