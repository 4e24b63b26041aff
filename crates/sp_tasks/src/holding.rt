//! Whether tasks hold a reference.

ghost use Rattle.std.specs.Prelude.{◌≡◌};
ghost use Rattle.std.specs.List.{list_any};
ghost use Rattle.sp_rules.specs.References.{is_reference_in};

use crate::living::LivingTask;
use indexmap::IndexMap;
use space_ids::{Ref, is_among};
use table_copies::NumberHashes;

// Whether a task of these rows holds the reference.
pub(crate) fn is_held(rows: &IndexMap<u64, LivingTask, NumberHashes>, reference: &Ref) -> bool
    ensures { result ≡ list_any (λ row. is_reference_in row.1.held reference.now) rows.now.entries }
{
    for (_, task) in rows.iter() {
        if is_among(task.held(), reference) {
            return true;
        }
    }
    false
}
