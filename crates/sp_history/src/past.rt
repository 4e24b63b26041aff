//! What clauses see of what was cut: it takes no bytes.

use crate::history::History;
use crate::naming::Setup;
use ghost_value::Says;
use sp_lender::Lender;
use std::marker::Model;

/// Entries with the numbers of who made the calls. No value of it is ever made: it names the type of definitions
/// that a token carries.
pub struct EntryList {}

impl Model for EntryList {
    ghost use Rattle.std.specs.Prelude.{ℕ, List, []};
    ghost use Rattle.sp_rules.specs.Books.{Entry};

    ghost Value = { List (ℕ × Entry) };

    ghost view = { λ _. [] };
}

/// Outputs. No value of it is ever made: it names the type of definitions that a token carries.
pub struct OutputList {}

impl Model for OutputList {
    ghost use Rattle.std.specs.Prelude.{List, []};
    ghost use Rattle.sp_rules.specs.Events.{Output};

    ghost Value = { List Output };

    ghost view = { λ _. [] };
}

pub(crate) struct NoEntries;

impl Says<(), EntryList> for NoEntries {
    ghost use Rattle.std.specs.Prelude.{[]};

    ghost says = { λ _. [] };
}

pub(crate) struct NoOutputs;

impl Says<(), OutputList> for NoOutputs {
    ghost use Rattle.std.specs.Prelude.{[]};

    ghost says = { λ _. [] };
}

// All entries of a history: those that were cut, and those since.
pub(crate) struct AllEntries;

impl<N: Setup, S: Lender + Drop> Says<History<N, S>, EntryList> for AllEntries {
    ghost use Rattle.std.specs.Prelude.{◌++◌};

    ghost says = { λ log. log.cut ++ log.entries };
}

// The outputs of a history that wait.
pub(crate) struct WhatWaits;

impl<N: Setup, S: Lender + Drop> Says<History<N, S>, OutputList> for WhatWaits {
    ghost says = { λ log. log.waiting };
}
