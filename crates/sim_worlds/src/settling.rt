//! What a line `settle` lets happen: all that can.

use crate::script_run::ScriptRun;
use crate::{PlayFault, ScriptSpace};
use sp_world::{Dial, End, WorldEvent};

// How many events a line `settle` makes at most.
const MOST_EVENTS: usize = 100_000;

impl<S: ScriptSpace + Drop> ScriptRun<S> {
    // Lets happen what can, at most 100,000 events. Each is the first possible of these: a dial that waits
    // is opened, as they were asked; a connection is accepted; a frame comes to an end of a connection, by
    // connections, and to the space that was dialled first; the lowest space that can lets its lowest task
    // make an instruction.
    pub(crate) fn settle(&mut self) -> Result<(), PlayFault> {
        for _ in 0..MOST_EVENTS {
            if !self.settle_one()? {
                return Ok(());
            }
        }
        Ok(())
    }

    // Lets the first possible event happen. Returns whether there was one.
    fn settle_one(&mut self) -> Result<bool, PlayFault> {
        if let Some(dial) = self.first_dial()? {
            let conn = self.open(dial)?;
            self.unaccepted.push_back(conn)?;
            return Ok(true);
        }
        if let Some(conn) = self.unaccepted.pop_front() {
            self.accept(conn)?;
            return Ok(true);
        }
        if let Some(event) = self.first_delivery() {
            let _ = self.happen(event)?;
            return Ok(true);
        }
        if let Some(space) = self.agenda.first_ready() {
            self.step(space)?;
            return Ok(true);
        }
        Ok(false)
    }

    fn first_dial(&mut self) -> Result<Option<Dial>, PlayFault> {
        self.played.settle()?;
        Ok(self.played.world().asked().first().copied())
    }

    // The first frame, or end, that can be delivered.
    fn first_delivery(&mut self) -> Option<WorldEvent> {
        if !self.played.world().is_settled() {
            return None;
        }
        let conn = self.agenda.first_queued()?;
        let to = if self.played.world().queued(conn, End::Accepter) {
            End::Accepter
        } else {
            End::Dialler
        };
        Some(WorldEvent::Deliver { conn, to })
    }
}
