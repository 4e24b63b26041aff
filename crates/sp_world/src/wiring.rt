//! What is between the spaces of a world.

ghost use Rattle.std.specs.Prelude.{◌≡◌, List, [], ◌∷◌, ◌++◌, OnOk, OnErr, drop, length, map};
ghost use Rattle.sp_rules.specs.Classes.{Setting};
ghost use Rattle.sp_rules.specs.Events.{Dial, Send};
ghost use Rattle.sp_rules.specs.Worlds.{World as Rules, new_world, put};
ghost use Rattle.sp_outputs.specs.Notes.{output_of};

use indexmap::IndexMap;
use message_copies::copy_message;
use net_message::Message;
use sp_outputs::Output;
use sp_pipes::{Dials, Pipes};
use space_ids::Uuid;
use std::alloc::{AllocError, Global};

// What is between the spaces of a world: their numbers by their ids, the connections and the dials that
// wait.
#[derive(Drop)]
pub(crate) struct Wiring {
    alloc: Global,
    pub(crate) numbers: IndexMap<Uuid, usize>,
    pub(crate) pipes: Pipes,
    pub(crate) dials: Dials,
}

impl Wiring {
    ghost use Rattle.sp_world.specs.Waitings.{Awaits, IsWired};

    // Between no spaces there is nothing.
    pub(crate) fn new(alloc: Global) -> Wiring
        ensures { IsWired (new_world []) result }
    {
        let numbers = IndexMap::new(alloc);
        let pipes = Pipes::new(alloc);
        let dials = Dials::new(alloc);
        Wiring {
            alloc,
            numbers,
            pipes,
            dials,
        }
    }

    // Another space comes, under the next number. The first of an id is found by it.
    pub(crate) fn enter(&mut self, id: &Uuid, number: usize) -> Result<(), AllocError>
        ensures { OnOk result ((settings : List Setting) (g : Setting) → g.id ≡ id.now → length settings ≡ number → IsWired (new_world settings) self.old → IsWired (new_world (settings ++ g ∷ [])) self.new) }
    {
        if self.numbers.contains_key(id) {
            return Ok(());
        }
        self.numbers.insert(*id, number)?;
        Ok(())
    }

    // Puts outputs of a space into the queues, from one of them on, which is then the next. At out of
    // memory the others are still to be put there.
    pub(crate) fn put_all(
        &mut self,
        writer: usize,
        row: &[Output],
        next: &mut usize,
    ) -> Result<(), AllocError>
        ensures all { OnOk result ((w : Rules) → Awaits w writer (drop next.old (map output_of row.now)) self.old → IsWired w self.new) }
        ensures rest { OnErr result ((w : Rules) → Awaits w writer (drop next.old (map output_of row.now)) self.old → Awaits w writer (drop next.new (map output_of row.now)) self.new) }
    {
        'outputs: while *next < row.len() {
            self.put(writer, &row[*next])?;
            *next += 1;
        }
        Ok(())
    }

    // Puts an output of a space into the queues: a frame comes into the queue towards the other end, a dial
    // waits, an end of a connection ends. Nothing changes at out of memory.
    fn put(&mut self, writer: usize, output: &Output) -> Result<(), AllocError>
        ensures put { OnOk result ((w : Rules) → IsWired w self.old → IsWired (put writer w (output_of output.now)) self.new) }
        ensures same { OnErr result ((w : Rules) → IsWired w self.old → IsWired w self.new) }
    {
        match output {
            Output::Send { conn, message } => self.send(writer, *conn, message),
            Output::Dial(peer) => self.dial(writer, peer),
            Output::Close(conn) => {
                self.pipes.close(*conn, writer);
                Ok(())
            }
            Output::Started(_) => Ok(()),
            Output::Ended(_, _) => Ok(()),
            Output::Withdrawn(_) => Ok(()),
            Output::Denied(_) => Ok(()),
            Output::Ready(_) => Ok(()),
        }
    }

    // A frame that a space wrote comes into the queue towards the other end.
    fn send(&mut self, writer: usize, conn: u64, message: &Message) -> Result<(), AllocError>
        ensures sent { OnOk result ((w : Rules) → IsWired w self.old → IsWired (put writer w (Send conn message.now)) self.new) }
        ensures same { OnErr result ((w : Rules) → IsWired w self.old → IsWired w self.new) }
    {
        let copy = copy_message(self.alloc, message)?;
        self.pipes.queue_up(conn, writer, copy)
    }

    // A space dials the space of an id, if there is one in the world.
    fn dial(&mut self, writer: usize, peer: &Uuid) -> Result<(), AllocError>
        ensures dialled { OnOk result ((w : Rules) → IsWired w self.old → IsWired (put writer w (Dial peer.now)) self.new) }
        ensures same { OnErr result ((w : Rules) → IsWired w self.old → IsWired w self.new) }
    {
        match self.numbers.get(peer) {
            Some(number) => self.dials.push(writer, *number),
            None => Ok(()),
        }
    }
}
