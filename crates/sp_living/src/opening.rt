//! Connections as they open, and as a Hello or the number of a call comes on them.

ghost use Rattle.std.specs.Prelude.{◌≡◌, [], None, Some, OnOk, nat_le, true};
ghost use Rattle.sp_rules.specs.Classes.{Setting};
ghost use Rattle.net_message.specs.declared.message.Message.TheVariants as message;
ghost use Rattle.sp_rules.specs.Frames.{counted, greeted, say_hello};
ghost use Rattle.sp_rules.specs.OwnEvents.{add_connection, dialled_no_more, first_hello, on_opened, version_to};
ghost use Rattle.sp_rules.specs.Refusals.{was_asked};
ghost use Rattle.sp_rules.specs.Requests.{flush_waiting};
ghost use Rattle.sp_rules.specs.State.{Connection as Line, State, connection_at, is_dialling};

use crate::Living;
use net_message::{Digest, Message};
use sp_outputs::Turn;
use space_ids::Uuid;
use std::alloc::AllocError;

impl Living {
    ghost use Rattle.sp_living.specs.Livings.{IsLiving};
    ghost use Rattle.sp_transport.specs.Opening.{IsHello};

    /// Opens a connection, to a peer that is being dialled or from one that dialled this space, which speaks this
    /// version at most, over class files of this digest. To a peer that it dialled it says Hello at once, with its
    /// version, or with 1 if the peer was found to speak that alone. On a connection that a peer dialled a space
    /// of version 1 says it at once too, and one of version 2 once the peer's has come. A connection opens once,
    /// and one to a peer only if the peer is being dialled: a space refuses the event else (94).
    pub fn open(
        &mut self,
        conn: u64,
        dialled: Option<Uuid>,
        version: u8,
        digest: Digest,
    ) -> Result<(), AllocError>
        ensures opened { OnOk result ((g : Setting) (s : State) → IsLiving g s self.old
            → s.notes ≡ [] → version ≡ g.version → digest ≡ g.digest → connection_at s conn ≡ None
            → was_asked s dialled ≡ true → IsLiving g (on_opened g conn dialled s) self.new) }
        ensures tasks { self.new.tasks ≡ self.old.tasks }
    {
        match dialled {
            Some(peer) => {
                let said = self.version_to(&peer, version);
                self.open_to(conn, &peer, said, digest)
            }
            None => self.accept(conn, version, digest),
        }
    }

    // The version with which a peer is greeted that this space dialled, which speaks this one at most.
    fn version_to(&self, peer: &Uuid, version: u8) -> u8
        ensures { (g : Setting) (s : State) → IsLiving g s self.now → version ≡ g.version
            → result ≡ version_to g s peer.now }
    {
        if self.transport.is_noted(peer) {
            1
        } else {
            version
        }
    }

    // Opens a connection to a peer that is being dialled, and says Hello with this version. No connection has this
    // number.
    fn open_to(
        &mut self,
        conn: u64,
        peer: &Uuid,
        version: u8,
        digest: Digest,
    ) -> Result<(), AllocError>
        ensures opened { OnOk result ((g : Setting) (s : State) → IsLiving g s self.old
            → s.notes ≡ [] → digest ≡ g.digest → connection_at s conn ≡ None
            → is_dialling s peer.now ≡ true
            → IsLiving g (say_hello g version conn
            (dialled_no_more (Some peer.now) (add_connection conn (Some peer.now) s))) self.new) }
        ensures tasks { self.new.tasks ≡ self.old.tasks }
    {
        let hello = self.hello(version, digest);
        self.transport.reserve_connections(1, 1)?;
        self.transport.reserve_requests(peer, 0, 0, 0)?;
        self.transport.reserve_notes(1)?;
        self.transport.open_reserved(conn, peer, hello);
        self.transport.speak(conn, version);
        Ok(())
    }

    // Opens a connection from a peer that dialled this space, which speaks this version at most. No connection has
    // this number.
    fn accept(&mut self, conn: u64, version: u8, digest: Digest) -> Result<(), AllocError>
        ensures opened { OnOk result ((g : Setting) (s : State) → IsLiving g s self.old
            → s.notes ≡ [] → version ≡ g.version → digest ≡ g.digest → connection_at s conn ≡ None
            → IsLiving g (first_hello g conn None
            (dialled_no_more None (add_connection conn None s))) self.new) }
        ensures tasks { self.new.tasks ≡ self.old.tasks }
    {
        if says_late(version) {
            return self.accept_late(conn);
        }
        self.accept_first(conn, digest)
    }

    // Opens a connection from a peer that dialled this space, and says Hello with version 1. No connection has this
    // number.
    fn accept_first(&mut self, conn: u64, digest: Digest) -> Result<(), AllocError>
        ensures opened { OnOk result ((g : Setting) (s : State) → IsLiving g s self.old
            → s.notes ≡ [] → digest ≡ g.digest → connection_at s conn ≡ None
            → IsLiving g (say_hello g 1 conn
            (dialled_no_more None (add_connection conn None s))) self.new) }
        ensures tasks { self.new.tasks ≡ self.old.tasks }
    {
        let hello = self.hello(1, digest);
        self.transport.reserve_connections(1, 0)?;
        self.transport.reserve_notes(1)?;
        self.transport.accept_reserved(conn, hello);
        self.transport.speak(conn, 1);
        Ok(())
    }

    // Opens a connection from a peer that dialled this space, whose Hello is to come first. No connection has this
    // number.
    fn accept_late(&mut self, conn: u64) -> Result<(), AllocError>
        ensures opened { OnOk result ((g : Setting) (s : State) → IsLiving g s self.old
            → s.notes ≡ [] → connection_at s conn ≡ None
            → IsLiving g (dialled_no_more None (add_connection conn None s)) self.new) }
        ensures tasks { self.new.tasks ≡ self.old.tasks }
    {
        self.transport.reserve_connections(1, 0)?;
        self.transport.accept_late_reserved(conn);
        Ok(())
    }

    /// Says Hello with this version on a connection that a peer dialled, as the peer's has come. Nothing is said
    /// if the connection is not open.
    pub fn answer_hello(&mut self, conn: u64, version: u8, digest: Digest) -> Result<(), AllocError>
        ensures said { OnOk result ((g : Setting) (s : State) → IsLiving g s self.old
            → digest ≡ g.digest → IsLiving g (say_hello g version conn s) self.new) }
        ensures tasks { self.new.tasks ≡ self.old.tasks }
    {
        let hello = self.hello(version, digest);
        self.reply(Turn::Hellos, conn, hello)?;
        self.transport.speak(conn, version);
        Ok(())
    }

    // This space's Hello of a version.
    fn hello(&self, version: u8, digest: Digest) -> Message
        ensures said { (g : Setting) (s : State) → IsLiving g s self.now → digest ≡ g.digest
            → result ≡ message.Hello version g.id g.digest }
        ensures hello { IsHello result }
    {
        Message::Hello {
            version,
            space: self.id,
            digest,
        }
    }

    /// Notes who spoke on a connection that a peer dialled, whose Hello has come.
    pub fn greet(&mut self, conn: u64, space: Uuid)
        ensures greeted { (g : Setting) (s : State) → IsLiving g s self.old → s.notes ≡ [] → ((c : Line) → connection_at s conn ≡ Some c → c.dialled ≡ None) → IsLiving g (greeted space conn s) self.new }
        ensures tasks { self.new.tasks ≡ self.old.tasks }
    {
        self.transport.greet(conn, space);
    }

    /// Notes that the Hello of a peer that was dialled has come on its connection. All that waits for it goes
    /// out there, in the order in which it was made.
    pub fn flush_waiting(&mut self, peer: &Uuid, conn: u64) -> Result<(), AllocError>
        ensures flushed { OnOk result ((g : Setting) (s : State) (c : Line) → IsLiving g s self.old → s.notes ≡ [] → connection_at s conn ≡ Some c → c.dialled ≡ Some peer.now → c.peer ≡ None → IsLiving g (flush_waiting peer.now conn (greeted peer.now conn s)) self.new) }
        ensures tasks { self.new.tasks ≡ self.old.tasks }
    {
        self.transport.flush_waiting(peer, conn)
    }

    /// Notes the number of a Call or Lookup that came on a connection.
    pub fn count(&mut self, conn: u64, number: u64)
        ensures counted { (g : Setting) (s : State) → IsLiving g s self.old → s.notes ≡ [] → IsLiving g (counted conn number s) self.new }
        ensures tasks { self.new.tasks ≡ self.old.tasks }
    {
        self.transport.count(conn, number);
    }
}

// Whether a space that speaks this version at most says Hello only once the other end's has come, where a peer dialled.
fn says_late(version: u8) -> bool
    ensures { result ≡ nat_le 2 version }
{
    version >= 2
}
