//! The core of a space that takes calls, as a state machine: each event is one change of its state, and is
//! answered with its outputs or refused.
//!
//! A core keeps two equal states. An event happens to one of them first: at out of memory that one is let go,
//! and the other is what it was. A contract names the state that the rules give, and what they answer.
#![tactic(auto)]

pub use lent_task::LentTask;
pub use shown::Shown;
pub use sp_events::{CoreFault, Event, Root, StartFault};
pub use sp_outputs::Output;
pub use sp_requests::{CallClasses, ClassSet, FieldKind, RemoteException, ResultKind};
pub use sp_tasks::{Op, Outcome, Record, Reply, Stand};
pub use space_core::SpaceCore;

mod checking;
mod committing;
mod copying;
mod finishing;
mod happening;
mod lending;
mod lent_task;
mod parking;
mod refusing;
mod roots;
mod shown;
mod space_core;
