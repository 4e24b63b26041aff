//! Connections that open, fail and end, and peers that refuse.

ghost use Rattle.std.specs.Prelude.{◌≡◌, [], None, OnOk, true};
ghost use Rattle.sp_requests.specs.Thrown.{thrown_class};
ghost use Rattle.sp_rules.specs.Classes.{Setting};
ghost use Rattle.sp_rules.specs.Endings.{by_unmarshal, close, end_connection, fail_write};
ghost use Rattle.sp_rules.specs.OwnEvents.{on_opened, on_refused};
ghost use Rattle.sp_rules.specs.Refusals.{was_asked};
ghost use Rattle.sp_rules.specs.State.{State, connection_at, is_dialling};
ghost use Rattle.sp_tasks.specs.Lent.{KeepsLent};

use crate::SpaceState;
use sp_requests::{CallClasses, RemoteException};
use space_ids::Uuid;
use std::alloc::AllocError;

impl SpaceState {
    ghost use Rattle.sp_state.specs.Spaces.{IsSpace};

    /// Opens a connection, to a peer that is being dialled or from one that dialled this space, and says
    /// Hello, unless the peer's is to come first.
    pub fn opened(&mut self, conn: u64, dialled: Option<Uuid>) -> Result<(), AllocError>
        ensures opened { OnOk result ((g : Setting) (s : State) → IsSpace g s self.old → s.notes ≡ [] → connection_at s conn ≡ None → was_asked s dialled ≡ true → IsSpace g (on_opened g conn dialled s) self.new) }
        ensures lent { OnOk result (KeepsLent self.old.living.tasks self.new.living.tasks) }
    {
        self.living.open(conn, dialled, self.version, self.digest)
    }

    /// Ends what waits for a peer that was dialled and refused, calls and lookups with ConnectException.
    pub fn refused<C: CallClasses>(&mut self, classes: &C, peer: &Uuid) -> Result<(), AllocError>
        ensures refused { OnOk result ((g : Setting) (s : State) → IsSpace g s self.old → s.notes ≡ [] → C.tells classes.now g.classes → is_dialling s peer.now ≡ true → IsSpace g (on_refused g peer.now s) self.new) }
        ensures lent { OnOk result (KeepsLent self.old.living.tasks self.new.living.tasks) }
    {
        sp_endings::refuse(&mut self.living, classes, peer)
    }

    /// Ends a connection that the peer closed, on which a read failed, or on which bytes came that are no
    /// frame.
    pub fn end_connection<C: CallClasses>(
        &mut self,
        classes: &C,
        conn: u64,
    ) -> Result<(), AllocError>
        ensures ended { OnOk result ((g : Setting) (s : State) → IsSpace g s self.old → s.notes ≡ [] → C.tells classes.now g.classes → IsSpace g (end_connection g (by_unmarshal g) conn s) self.new) }
        ensures lent { OnOk result (KeepsLent self.old.living.tasks self.new.living.tasks) }
    {
        sp_endings::end_connection(&mut self.living, classes, conn)
    }

    /// Ends a connection of which the last frames, this many, were not sent whole.
    pub fn fail_write<C: CallClasses>(
        &mut self,
        classes: &C,
        conn: u64,
        unsent: u64,
    ) -> Result<(), AllocError>
        ensures failed { OnOk result ((g : Setting) (s : State) → IsSpace g s self.old → s.notes ≡ [] → C.tells classes.now g.classes → IsSpace g (fail_write g conn unsent s) self.new) }
        ensures lent { OnOk result (KeepsLent self.old.living.tasks self.new.living.tasks) }
    {
        sp_endings::fail_write(&mut self.living, classes, conn, unsent)
    }

    // Closes a connection. Calls and lookups end with an exception of this class.
    pub(crate) fn close<C: CallClasses>(
        &mut self,
        classes: &C,
        exception: RemoteException,
        conn: u64,
    ) -> Result<(), AllocError>
        ensures closed { OnOk result ((g : Setting) (s : State) → IsSpace g s self.old → s.notes ≡ [] → C.tells classes.now g.classes → IsSpace g (close g (thrown_class g.classes exception) conn s) self.new) }
        ensures lent { OnOk result (KeepsLent self.old.living.tasks self.new.living.tasks) }
    {
        sp_endings::close(&mut self.living, classes, exception, conn)
    }
}
