//! Commands, each by what it lets happen.

use crate::script_run::ScriptRun;
use crate::{PlayFault, ScriptSpace};
use sim_script::{Between, Command, RootFuel};
use sp_world::{Dial, End, Event, WorldEvent};
use space_ids::Row;

impl<S: ScriptSpace + Drop> ScriptRun<S> {
    /// Plays the next command after the lines that name spaces. `PlayFault::Bad` for a line that names a
    /// space here, a space or a variable that no line before has named, a second task of one variable; for
    /// a variable without the value that is asked; for an argument that is none; for a root or a look-up
    /// that is refused. Any other event that does not fit changes nothing.
    pub fn play(&mut self, command: &Command<'_>) -> Result<(), PlayFault> {
        match command {
            Command::Space { .. } => Err(PlayFault::Bad),
            Command::Root {
                space,
                variable,
                fuel,
                class,
                method,
                arguments,
            } => self.root(space, variable, *fuel, class, method, arguments),
            Command::Lookup {
                space,
                peer,
                name,
                variable,
            } => self.look_up(space, peer, name, variable),
            Command::Between { space, peer, event } => self.between(space, peer, *event),
            Command::Acknowledge { space, variable } => self.acknowledge(space, variable),
            Command::Settle => self.settle(),
            Command::Step(space) => self.step_named(space),
            Command::Show(space) => self.show(space),
            _ => self.own(command),
        }
    }

    // Starts a root.
    fn root(
        &mut self,
        space: &str,
        variable: &str,
        fuel: RootFuel,
        class: &str,
        method: &str,
        words: &[&str],
    ) -> Result<(), PlayFault> {
        let number = self.names.number(space)?;
        let arguments = Row::new(self.variables.values(words)?);
        let Some(played) = self.played.world().space(number) else {
            return Err(PlayFault::Bad);
        };
        let method = match played.method(class, method) {
            Ok(method) => method,
            Err(fault) => return PlayFault::of_root(fault).map_or(Ok(()), Err),
        };
        let fuel = fuel.units(played.most_fuel());
        let event = WorldEvent::Root {
            space: number,
            method,
            arguments,
            fuel,
        };
        match self
            .begin("root", variable, number, event)?
            .and_then(PlayFault::of_root)
        {
            Some(fault) => Err(fault),
            None => Ok(()),
        }
    }

    // Asks a peer what it has bound to a name.
    fn look_up(
        &mut self,
        space: &str,
        peer: &str,
        name: &str,
        variable: &str,
    ) -> Result<(), PlayFault> {
        let number = self.names.number(space)?;
        let peer = self.names.id(self.names.number(peer)?)?;
        let name = self.row(name)?;
        let event = WorldEvent::Own {
            space: number,
            event: Event::Lookup { peer, name },
        };
        match self
            .begin("lookup", variable, number, event)?
            .and_then(PlayFault::of_lookup)
        {
            Some(fault) => Err(fault),
            None => Ok(()),
        }
    }

    // Acknowledges the result of a task of this space. Nothing happens if the variable stands for a task of
    // another one, whose number a task of this space may have too.
    fn acknowledge(&mut self, space: &str, variable: &str) -> Result<(), PlayFault> {
        let number = self.names.number(space)?;
        let key = self.variable(variable)?.key;
        if key.space == number {
            let _ = self.happen(WorldEvent::Own {
                space: number,
                event: Event::RootAck(key.task),
            })?;
        }
        Ok(())
    }

    // What happens between two spaces, of which the first dials or has dialled the other.
    fn between(&mut self, space: &str, peer: &str, event: Between) -> Result<(), PlayFault> {
        let dial = Dial {
            dialler: self.names.number(space)?,
            dialled: self.names.number(peer)?,
        };
        self.on_dial(dial, event)
    }

    // What happens on the connection that a space dialled to a peer: the newest, if there are more.
    fn on_dial(&mut self, dial: Dial, event: Between) -> Result<(), PlayFault> {
        let Dial { dialler, dialled } = dial;
        match event {
            Between::Open => return self.open_accepted(dial),
            Between::Refuse => {
                let _ = self.happen(WorldEvent::Refuse { dialler, dialled })?;
                return Ok(());
            }
            _ => {}
        }
        let Some(conn) = self.connections.newest(dial) else {
            return Ok(());
        };
        if let Some(event) = event_on(conn, event) {
            let _ = self.happen(event)?;
        }
        Ok(())
    }

    // Lets the lowest task that may go on make an instruction, of the space of this name.
    fn step_named(&mut self, space: &str) -> Result<(), PlayFault> {
        let number = self.names.number(space)?;
        self.step(number)
    }

    // Lets the lowest task of a space that may go on make an instruction.
    pub(crate) fn step(&mut self, space: usize) -> Result<(), PlayFault> {
        if let Some(task) = self.ready(space) {
            let _ = self.happen(WorldEvent::Step { space, task })?;
        }
        Ok(())
    }

    // A space's own event.
    fn own(&mut self, command: &Command<'_>) -> Result<(), PlayFault> {
        let (space, event) = self.event(command)?;
        let space = self.names.number(space)?;
        let _ = self.happen(WorldEvent::Own { space, event })?;
        Ok(())
    }

    // The space of a command that is an event of its own, and that event.
    fn event<'a>(&self, command: &Command<'a>) -> Result<(&'a str, Event), PlayFault> {
        match command {
            Command::Bind {
                space,
                name,
                variable,
            } => {
                let name = self.row(name)?;
                let value = self.variables.reference(variable)?;
                Ok((*space, Event::Bind { name, value }))
            }
            Command::Rebind {
                space,
                name,
                variable,
            } => {
                let name = self.row(name)?;
                let value = self.variables.reference(variable)?;
                Ok((*space, Event::Rebind { name, value }))
            }
            Command::Unbind { space, name } => {
                let name = self.row(name)?;
                Ok((*space, Event::Unbind { name }))
            }
            Command::Moment { space, moment } => Ok((*space, Event::Moment(*moment))),
            Command::Sweep(space) => Ok((*space, Event::Sweep)),
            _ => Err(PlayFault::Bad),
        }
    }
}

// What happens on a connection, at the space that dialled it.
fn event_on(conn: u64, event: Between) -> Option<WorldEvent> {
    match event {
        Between::Open | Between::Refuse => None,
        Between::Deliver => Some(WorldEvent::Deliver {
            conn,
            to: End::Accepter,
        }),
        Between::Reply => Some(WorldEvent::Deliver {
            conn,
            to: End::Dialler,
        }),
        Between::ReadFails => Some(WorldEvent::ReadFails {
            conn,
            at: End::Dialler,
        }),
        Between::WriteFails(unsent) => Some(WorldEvent::WriteFails {
            conn,
            at: End::Dialler,
            unsent,
        }),
    }
}
