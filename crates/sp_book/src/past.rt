//! What clauses see of calls that are no longer in a list: it takes no bytes.

use crate::naming::Naming;
use crate::pass::Pass;
use ghost_value::Says;
use std::marker::Model;

// The entries of calls. No value of it is ever made: it names the type of definitions that a token carries.
pub(crate) struct CallList {}

impl Model for CallList {
    ghost use Rattle.std.specs.Prelude.{List, []};
    ghost use Rattle.sp_rules.specs.Books.{Entry};

    ghost Value = { List Entry };

    ghost view = { λ _. [] };
}

pub(crate) struct NoCalls;

impl Says<(), CallList> for NoCalls {
    ghost use Rattle.std.specs.Prelude.{[]};

    ghost says = { λ _. [] };
}

// All calls of a pass.
pub(crate) struct AllCalls;

impl<N: Naming> Says<Pass<N>, CallList> for AllCalls {
    ghost says = { λ pass. pass.calls };
}
