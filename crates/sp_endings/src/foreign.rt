//! The foreign references in a frame that came, for whose leases it waits.

ghost use Rattle.std.specs.Prelude.{◌≡◌, [], IfOk, OnOk, fold};
ghost use Rattle.std.specs.List.{IsDistinct};
ghost use Rattle.dgc_client.specs.Table.{is_among, is_same, with_reference};
ghost use Rattle.sp_rules.specs.References.{foreign_ids, reference_of, references_in, references_of};

use space_ids::{ForeignId, Uuid, Value};
use std::alloc::{AllocError, Global};

/// The foreign references among values, each once, in the order in which they come.
pub fn foreign_among(
    alloc: Global,
    own: &Uuid,
    values: &[Value],
) -> Result<Vec<ForeignId>, AllocError>
    ensures foreign { IfOk result (λ ids. ids.items ≡ fold with_reference [] (foreign_ids own.now (references_of values.now))) }
    ensures distinct { IfOk result (λ ids. IsDistinct is_same ids.items) }
{
    let mut ids = Vec::new(alloc);
    for value in values {
        add_foreign(own, value, &mut ids)?;
    }
    Ok(ids)
}

/// The foreign reference that a result is, if it is one.
pub fn foreign_in(
    alloc: Global,
    own: &Uuid,
    value: &Option<Value>,
) -> Result<Vec<ForeignId>, AllocError>
    ensures foreign { IfOk result (λ ids. ids.items ≡ fold with_reference [] (foreign_ids own.now (references_in value.now))) }
    ensures distinct { IfOk result (λ ids. IsDistinct is_same ids.items) }
{
    let mut ids = Vec::new(alloc);
    match value {
        Some(value) => {
            add_foreign(own, value, &mut ids)?;
            Ok(ids)
        }
        None => Ok(ids),
    }
}

// Adds the reference that a value is, if it is foreign and not there.
fn add_foreign(own: &Uuid, value: &Value, ids: &mut Vec<ForeignId>) -> Result<(), AllocError>
    requires { IsDistinct is_same ids.old.items }
    ensures added { OnOk result (ids.new.items ≡ fold with_reference ids.old.items (foreign_ids own.now (reference_of value.now))) }
    ensures distinct { OnOk result (IsDistinct is_same ids.new.items) }
{
    if let Value::Ref(reference) = value {
        if reference.space != *own {
            let id = ForeignId {
                space: reference.space,
                id: reference.id,
            };
            if !is_among(&id, ids) {
                ids.push(id)?;
            }
        }
    }
    Ok(())
}

// Whether a foreign reference is among others.
fn is_among(id: &ForeignId, others: &[ForeignId]) -> bool
    ensures { result ≡ is_among id.now others.now }
{
    others
        .iter()
        .any(|other| id.space == other.space && id.id == other.id)
}
