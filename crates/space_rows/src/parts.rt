//! Numbers and values of rows.

use space_ids::{ObjId, Uuid};
use std::alloc::Global;
use test_rows::{RowFault, object};

/// Returns the ids that commas part: none for `-`.
pub fn objects(alloc: Global, word: &str) -> Result<Vec<ObjId>, RowFault> {
    let mut ids = Vec::new(alloc);
    if word != "-" {
        for part in word.split(',') {
            ids.push(object(part)?)?;
        }
    }
    Ok(ids)
}

/// Returns the number of a space.
pub fn number_of(space: &Uuid) -> u64 {
    space.as_u64_pair().1
}
