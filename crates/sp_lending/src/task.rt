//! Tasks in hand, with their machines.

use crate::task_parts::TaskParts;
use sp_history::Setup;
use sp_lender::{InHand, Pause};
use std::marker::{Model, PhantomData};

/// A task in hand of a space of the name's setting, with its machine, which is made as the task runs for the first
/// time.
///
/// A contract sees its parts. Its machine plays the task that its record and its instructions since leave.
#[derive(Drop)]
pub struct Task<'p, N: Setup> {
    pub(crate) parts: TaskParts<'p>,
    pub(crate) name: PhantomData<N>,
}

impl<'p, N: Setup> Model for Task<'p, N> {
    ghost use Rattle.std.specs.Prelude.{[]};
    ghost use Rattle.sp_lending.specs.Hands.{IsTask};
    ghost use Rattle.sp_lending.specs.contracts.task_parts.TaskParts.{the_row};
    ghost use Rattle.sp_lending.specs.declared.task_parts.TaskParts.{TaskParts};

    ghost Value = { TaskParts };

    ghost use mir.Syntax.{erased};

    // The lifetime does not matter to it.
    ghost coded = { (the_row (record { mir = erased; lft = [] })).coded };

    ghost view = { λ task. task.parts };

    ghost invariant = { λ task. IsTask N.setting task.parts };
}

impl<'p, N: Setup> Task<'p, N> {
    ghost use Rattle.std.specs.Prelude.{◌≡◌};
    ghost use Rattle.sp_lending.specs.Hands.{IsTask};

    // The task of these parts, which is of the name's setting.
    pub(crate) fn of(parts: TaskParts<'p>) -> Task<'p, N>
        requires { IsTask N.setting parts }
        ensures { result ≡ parts.entry }
    {
        Task {
            parts,
            name: PhantomData,
        }
    }

    // Its parts.
    pub(crate) fn into_parts(self) -> TaskParts<'p>
        ensures parts { result ≡ self.entry }
        ensures of { IsTask N.setting result }
    {
        let Task { parts, name: _ } = self;
        parts
    }
}

impl<'p, N: Setup> InHand for Task<'p, N> {
    ghost use Rattle.sp_lending.specs.Hands.{IsTask};

    ghost hand = { λ task. task.hand.task };

    ghost is_of = { λ g task. IsTask g task };

    fn id(&self) -> u64 {
        self.parts.hand.id()
    }

    fn made(&self) -> u64 {
        self.parts.hand.made()
    }

    fn run(&mut self, most: u64) -> Pause {
        self.parts.run(most)
    }
}
