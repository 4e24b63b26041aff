//! A core, its connections, and the tasks in hand.

use crate::arriving::tell;
use crate::calls;
use crate::classes::RowClasses;
use crate::device::{After, Device, Line};
use crate::row::{Look, Row, row_of};
use crate::showing::{put_answer, put_shown};
use crate::tasks::Tasks;
use sp_core::{Event, Root, SpaceCore};
use space_ids::Uuid;
use std::alloc::{AllocError, Global};
use std::io::Write;
use test_rows::{RowFault, Stage, replace, words_of};

/// A core, the bytes that came on its connections, and the tasks that it lent.
#[derive(Drop)]
pub struct PeerStage {
    alloc: Global,
    classes: RowClasses,
    core: SpaceCore,
    lines: Vec<Line>,
    tasks: Tasks,
}

impl PeerStage {
    /// Returns a core to which nothing has happened.
    pub fn new(alloc: Global) -> Result<PeerStage, AllocError> {
        let classes = RowClasses::new(alloc)?;
        let core = SpaceCore::new(alloc, Uuid::from_u64_pair(0, 1), [0; 32], 1_000, 1)?;
        Ok(PeerStage {
            alloc,
            classes,
            core,
            lines: Vec::new(alloc),
            tasks: Tasks::new(alloc),
        })
    }

    fn begin(&mut self, id: Uuid, fuel: u64, version: u8) -> Result<(), RowFault> {
        replace(
            &mut self.core,
            SpaceCore::new(self.alloc, id, [0; 32], fuel, version)?,
        );
        self.lines.clear();
        replace(&mut self.tasks, Tasks::new(self.alloc));
        Ok(())
    }

    fn happen(&mut self, said: &mut Vec<u8>, event: &Event) -> Result<(), RowFault> {
        let answer = calls::event(&mut self.core, &self.classes, event);
        put_answer(said, &answer)
    }

    fn open(
        &mut self,
        said: &mut Vec<u8>,
        conn: u64,
        dialled: Option<Uuid>,
    ) -> Result<(), RowFault> {
        let answer = calls::event(
            &mut self.core,
            &self.classes,
            &Event::Opened { conn, dialled },
        );
        if answer.is_ok() {
            self.lines.push(Line {
                conn,
                bytes: Vec::new(self.alloc),
                told: 0,
            })?;
        }
        put_answer(said, &answer)
    }

    // Bytes come on the last connection of this number.
    fn receive(
        &mut self,
        said: &mut Vec<u8>,
        conn: u64,
        device: Device,
        bytes: &[u8],
        after: After,
    ) -> Result<(), RowFault> {
        let found = self.lines.iter_mut().rev().find(|line| line.conn == conn);
        let Some(line) = found else {
            return Err(RowFault::Bad);
        };
        line.bytes.extend_from_slice(bytes)?;
        let (core, classes) = (&mut self.core, &self.classes);
        tell(self.alloc, core, classes, said, line, device, after)
    }

    fn start(&mut self, said: &mut Vec<u8>, root: &Root) -> Result<(), RowFault> {
        let answer = calls::root(&mut self.core, root);
        put_answer(said, &answer)
    }

    fn look(&self, said: &mut Vec<u8>, look: Look) -> Result<(), RowFault> {
        match look {
            Look::Object(index) => put_shown(said, &calls::object(&self.core, index)),
            Look::Ready => {
                writeln!(said, "{:?}", calls::ready(&self.core))?;
                Ok(())
            }
        }
    }
}

impl Stage for PeerStage {
    fn play(&mut self, said: &mut Vec<u8>, kind: &str, text: &str) -> Result<(), RowFault> {
        match row_of(self.alloc, kind, &words_of(self.alloc, text)?)? {
            Row::Core(id, fuel, version) => self.begin(id, fuel, version),
            Row::Open(conn, dialled) => self.open(said, conn, dialled),
            Row::Bytes(conn, device, bytes, after) => self.receive(
                said, conn, device, &bytes, after,
            ),
            Row::Event(event) => self.happen(said, &event),
            Row::Root(root) => self.start(said, &root),
            Row::Lend(task) => self.tasks.lend(&mut self.core, said, task),
            Row::Commit(task, stand, op) => {
                let (core, classes) = (&mut self.core, &self.classes);
                self.tasks.commit(core, classes, said, task, &stand, &op)
            }
            Row::Hand(task, hand, stand, fuel) => {
                let (core, classes) = (&mut self.core, &self.classes);
                self.tasks
                    .hand(core, classes, said, task, hand, &stand, fuel)
            }
            Row::Look(look) => self.look(said, look),
        }
    }
}
