//! The first frame of a connection. (This project's own protocol.)

ghost use Rattle.std.specs.Prelude.{◌≡◌, ◌&&◌, [], None, Some, OnOk, nat_le};
ghost use Rattle.std.specs.Str.{bytes_eq};
ghost use Rattle.sp_rules.specs.Classes.{Setting};
ghost use Rattle.sp_requests.specs.Tables.{seen};
ghost use Rattle.sp_rules.specs.Frames.{answer_hello, first_frame};
ghost use Rattle.sp_rules.specs.State.{Connection as Line, State};
ghost use Rattle.sp_state.specs.Hellos.{answer_of, hello_in};
ghost use Rattle.sp_tasks.specs.Lent.{KeepsLent};

use crate::SpaceState;
use net_message::{Digest, Message};
use sp_requests::{CallClasses, Connection, RemoteException};
use space_ids::Uuid;
use std::alloc::AllocError;

// What a Hello says: in which version, who speaks, and over which classes.
#[derive(Clone, Copy)]
struct Hello {
    version: u8,
    space: Uuid,
    digest: Digest,
}

// What the Hello of a peer that was dialled says by its version: that the peer speaks the version that the space said,
// that it speaks version 1 alone, or something else.
#[derive(Clone, Copy)]
enum Answer {
    Agrees,
    OnlyVersion1,
    Other,
}

impl SpaceState {
    ghost use Rattle.sp_state.specs.Hellos.{take_answer, take_hello};
    ghost use Rattle.sp_state.specs.Receiving.{ComesOn};
    ghost use Rattle.sp_state.specs.Spaces.{IsSpace};

    // Takes the first frame of a connection. One that is no Hello closes it, and so does a Hello with another digest,
    // with another id than was dialled, or of a version that the space does not speak.
    pub(crate) fn first_frame<C: CallClasses>(
        &mut self,
        classes: &C,
        conn: u64,
        connection: Connection,
        message: Message,
    ) -> Result<(), AllocError>
        ensures got { OnOk result ((g : Setting) (s : State) (c : Line) → IsSpace g s self.old → s.notes ≡ [] → C.tells classes.now g.classes → ComesOn conn s c → connection ≡ seen c → c.peer ≡ None → IsSpace g (first_frame g c message s) self.new) }
        ensures lent { OnOk result (KeepsLent self.old.living.tasks self.new.living.tasks) }
    {
        let Some(hello) = hello_in(&message) else {
            return self.close(classes, RemoteException::Unmarshal, conn);
        };
        let dialled = connection.dialled;
        match dialled {
            Some(peer) => self.hello_of_dialled(classes, conn, connection.version, &peer, hello),
            None => self.hello(classes, conn, hello),
        }
    }

    // Takes the Hello of a peer that dialled this space. A space of version 2 answers with its own.
    fn hello<C: CallClasses>(
        &mut self,
        classes: &C,
        conn: u64,
        hello: Hello,
    ) -> Result<(), AllocError>
        ensures got { OnOk result ((g : Setting) (s : State) (c : Line) → IsSpace g s self.old → s.notes ≡ [] → C.tells classes.now g.classes → ComesOn conn s c → c.dialled ≡ None → IsSpace g (take_hello g c hello s) self.new) }
        ensures lent { OnOk result (KeepsLent self.old.living.tasks self.new.living.tasks) }
    {
        if self.speaks_with(&hello) {
            self.living.greet(conn, hello.space);
            return self.answer_hello(conn, hello.version);
        }
        self.close(classes, RemoteException::Unmarshal, conn)
    }

    // Answers a Hello of this version with the lower of it and the space's own, if the space says its Hello only now.
    fn answer_hello(&mut self, conn: u64, version: u8) -> Result<(), AllocError>
        ensures said { OnOk result ((g : Setting) (s : State) → IsSpace g s self.old → IsSpace g (answer_hello g version conn s) self.new) }
        ensures lent { OnOk result (KeepsLent self.old.living.tasks self.new.living.tasks) }
    {
        if self.says_late() {
            return self
                .living
                .answer_hello(conn, version.min(self.version), self.digest);
        }
        Ok(())
    }

    // Takes the Hello of a peer that this space dialled and to which it said Hello with this version.
    fn hello_of_dialled<C: CallClasses>(
        &mut self,
        classes: &C,
        conn: u64,
        said: u8,
        peer: &Uuid,
        hello: Hello,
    ) -> Result<(), AllocError>
        ensures got { OnOk result ((g : Setting) (s : State) (c : Line) → IsSpace g s self.old → s.notes ≡ [] → C.tells classes.now g.classes → ComesOn conn s c → c.version ≡ said → c.dialled ≡ Some peer.now → c.peer ≡ None → IsSpace g (take_hello g c hello s) self.new) }
        ensures lent { OnOk result (KeepsLent self.old.living.tasks self.new.living.tasks) }
    {
        if self.is_of(&hello, peer) {
            return self.answered_hello(classes, conn, peer, answer_of(said, hello.version));
        }
        self.close(classes, RemoteException::Connect, conn)
    }

    // Takes the answer of a peer that this space dialled to its Hello. If the versions agree what waits for the peer
    // goes out; a peer that speaks version 1 alone is dialled again; any other version closes the connection.
    fn answered_hello<C: CallClasses>(
        &mut self,
        classes: &C,
        conn: u64,
        peer: &Uuid,
        answer: Answer,
    ) -> Result<(), AllocError>
        ensures got { OnOk result ((g : Setting) (s : State) (c : Line) → IsSpace g s self.old → s.notes ≡ [] → C.tells classes.now g.classes → ComesOn conn s c → c.dialled ≡ Some peer.now → c.peer ≡ None → IsSpace g (take_answer g c peer.now peer.now answer s) self.new) }
        ensures lent { OnOk result (KeepsLent self.old.living.tasks self.new.living.tasks) }
    {
        match answer {
            Answer::Agrees => self.living.flush_waiting(peer, conn),
            Answer::OnlyVersion1 => sp_endings::redial(&mut self.living, conn, peer),
            Answer::Other => self.close(classes, RemoteException::Unmarshal, conn),
        }
    }

    // Whether the space says Hello only once the other end's has come, where a peer dialled.
    fn says_late(&self) -> bool
        ensures { (g : Setting) (s : State) → IsSpace g s self.now → result ≡ nat_le 2 g.version }
    {
        self.version >= 2
    }

    // Whether a Hello is over the same class files, and of a version that the space speaks.
    fn speaks_with(&self, hello: &Hello) -> bool
        ensures { (g : Setting) (s : State) → IsSpace g s self.now → result ≡ (bytes_eq hello.now.digest g.digest && nat_le hello.now.version g.version) }
    {
        self.has_digest(hello) && hello.version <= self.version
    }

    // Whether a Hello is over the same class files.
    fn has_digest(&self, hello: &Hello) -> bool
        ensures { (g : Setting) (s : State) → IsSpace g s self.now → result ≡ bytes_eq hello.now.digest g.digest }
    {
        hello.digest == self.digest
    }

    // Whether a Hello is of this peer, over the same class files.
    fn is_of(&self, hello: &Hello, peer: &Uuid) -> bool
        ensures { (g : Setting) (s : State) → IsSpace g s self.now → result ≡ (bytes_eq hello.now.digest g.digest && bytes_eq hello.now.space peer.now) }
    {
        self.has_digest(hello) && hello.space == *peer
    }
}

// What a Hello says, if a frame is one.
fn hello_in(message: &Message) -> Option<Hello>
    ensures { result ≡ hello_in message.now }
{
    match message {
        Message::Hello {
            version,
            space,
            digest,
        } => Some(Hello {
            version: *version,
            space: *space,
            digest: *digest,
        }),
        _ => None,
    }
}

// What the Hello of a peer that was dialled says by its version, if the space said this one.
fn answer_of(said: u8, version: u8) -> Answer
    ensures { result ≡ answer_of said version }
{
    if version == said {
        Answer::Agrees
    } else if said >= 2 && version == 1 {
        Answer::OnlyVersion1
    } else {
        Answer::Other
    }
}
