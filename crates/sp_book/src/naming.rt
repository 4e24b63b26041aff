//! Which book it is.

use sp_history::Setup;
use std::marker::Brand;
use std::sync::ledger::Ledger;

/// Which book it is: of which queue and of which ledger, beside the setting of its space. A program picks it
/// at the call that makes the book.
pub trait Naming: Ledger + Setup {
    ghost use Rattle.std.specs.Prelude.{ℕ};
    ghost use Rattle.atomic_table.specs.Seated.{TableId};

    // The name of its queue.
    ghost table: { TableId };

    // All parts of its ledger.
    ghost all: { ℕ };
}

impl Naming for Brand {
    ghost use Rattle.sp_book.specs.Names.{no_table};

    ghost table = { no_table };

    ghost all = { 0 };
}
