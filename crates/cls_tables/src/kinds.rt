//! What the fields of objects hold, for each class of a set, in one row: a class goes on at the end
//! of its superclass, or has the row of its superclass again.

ghost use Rattle.std.specs.Prelude.{◌≡◌, ◌+◌, ◌<◌, ◌≤◌, ◌-◌, ◌++◌, [], ◌∷◌, IfOk, OnOk, IsSomeAnd, count_by, length, slice_get};
ghost use Rattle.cls_link.specs.Fields.{is_instance};
ghost use Rattle.cls_set.specs.Sets.{IsClassSet};
ghost use Rattle.cls_tables.specs.Kinds.{element_kind, kind_of, own_kinds, part, AreLaid, HaveKinds, HoldsKinds, IsLaid, Starts};

use super::slots::{count_instance_fields, is_of_instances};
use cls_link::{ClassId, ClassSet, ElementType, Field, FieldType};
use std::alloc::{AllocError, Global};
use vm_heap::WordKind;

/// The span of the row with the kinds of the fields of a class.
#[derive(Clone, Copy)]
pub(crate) struct Span {
    pub(crate) start: usize,
    pub(crate) end: usize,
}

fn element_kind(element: &ElementType) -> WordKind
    ensures { result ≡ element_kind element.now }
{
    match element {
        ElementType::Int | ElementType::Boolean => WordKind::Int,
        _ => WordKind::Reference,
    }
}

fn kind_of(kind: &FieldType) -> WordKind
    ensures { result ≡ kind_of kind.now }
{
    if kind.dimensions == 0 {
        element_kind(&kind.element)
    } else {
        WordKind::Reference
    }
}

// Adds what a field of a class holds: a static one is no field of objects.
#[tactic(auto, using(crate::proofs::KindRows::one_kind, crate::proofs::KindRows::static_kind))]
fn add_one(field: &Field, row: &mut Vec<WordKind>) -> Result<(), AllocError>
    ensures { OnOk result (row.new.items ≡ row.old.items ++ own_kinds (field.now ∷ [])) }
{
    if !is_of_instances(field) {
        return Ok(());
    }
    row.push(kind_of(&field.kind))?;
    Ok(())
}

// Adds what the fields of a class hold.
fn add_own(fields: &[Field], row: &mut Vec<WordKind>) -> Result<(), AllocError>
    ensures { OnOk result (row.new.items ≡ row.old.items ++ own_kinds fields.now) }
{
    for field in fields {
        add_one(field, row)?;
    }
    Ok(())
}

// Adds a part of the row at its end.
fn add_part(row: &mut Vec<WordKind>, span: Span) -> Result<(), AllocError>
    requires rising { span.start ≤ span.end }
    requires within { span.end ≤ length row.old.items }
    ensures { OnOk result (row.new.items ≡ row.old.items ++ part row.old.items span.start span.end) }
{
    for index in 0..span.end - span.start {
        let kind = row[span.start + index];
        row.push(kind)?;
    }
    Ok(())
}

// What the inherited fields hold, and then the own ones: if the inherited ones end the row, or no
// own ones follow, they are not written again.
fn add_after(row: &mut Vec<WordKind>, above: Span, fields: &[Field]) -> Result<Span, AllocError>
    requires rising { above.start ≤ above.end }
    requires within { above.end ≤ length row.old.items }
    ensures starts { OnOk result (Starts row.old.items row.new.items) }
    ensures rising { IfOk result (λ span. span.start ≤ span.end) }
    ensures within { IfOk result (λ span. span.end ≤ length row.new.items) }
    ensures part { IfOk result (λ span. part row.new.items span.start span.end ≡ part row.old.items above.start above.end ++ own_kinds fields.now) }
{
    if above.end == row.len() {
        add_own(fields, row)?;
        return Ok(Span {
            start: above.start,
            end: row.len(),
        });
    }
    if count_instance_fields(fields) == 0 {
        return Ok(above);
    }
    let start = row.len();
    add_part(row, above)?;
    add_own(fields, row)?;
    Ok(Span {
        start,
        end: row.len(),
    })
}

// Lays out a class after what it inherits.
fn lay_after(
    set: &ClassSet,
    class: ClassId,
    above: Span,
    row: &mut Vec<WordKind>,
    memo: &mut Vec<Option<Span>>,
) -> Result<Span, AllocError>
    requires in_set { class.0 < length set.now }
    requires laid { AreLaid set.now row.old.items memo.old.items }
    requires rising { above.start ≤ above.end }
    requires within { above.end ≤ length row.old.items }
    requires holds { IsSomeAnd (slice_get set.now class.0) (λ c. HoldsKinds set.now class (part row.old.items above.start above.end ++ own_kinds c.file.fields)) }
    ensures laid { OnOk result (AreLaid set.now row.new.items memo.new.items) }
    ensures starts { OnOk result (Starts row.old.items row.new.items) }
    ensures span { IfOk result (IsLaid set.now class row.new.items) }
{
    let fields = set.class(class).file.fields.as_slice();
    let span = add_after(row, above, fields)?;
    memo[usize::from(class.0)] = Some(span);
    Ok(span)
}

// Lays out a class, and before it its superclasses, each of them once.
fn lay(
    set: &ClassSet,
    class: ClassId,
    row: &mut Vec<WordKind>,
    memo: &mut Vec<Option<Span>>,
) -> Result<Span, AllocError>
    requires set { IsClassSet set.now }
    requires in_set { class.0 < length set.now }
    requires laid { AreLaid set.now row.old.items memo.old.items }
    ensures laid { OnOk result (AreLaid set.now row.new.items memo.new.items) }
    ensures starts { OnOk result (Starts row.old.items row.new.items) }
    ensures span { IfOk result (IsLaid set.now class row.new.items) }
{
    if let Some(span) = memo[usize::from(class.0)] {
        return Ok(span);
    }
    let entry = set.class(class);
    match entry.superclass {
        Some(superclass) => {
            let above = lay(set, superclass, row, memo)?;
            let span = lay_after(set, class, above, row, memo)?;
            Ok(span)
        }
        None => {
            let nothing = Span {
                start: row.len(),
                end: row.len(),
            };
            let span = lay_after(set, class, nothing, row, memo)?;
            Ok(span)
        }
    }
}

/// What the fields of objects hold, for each class.
#[derive(Drop)]
pub(crate) struct KindRow {
    pub(crate) row: Vec<WordKind>,
    pub(crate) spans: Vec<Span>,
}

// Lays out all classes.
pub(crate) fn lay_all(alloc: Global, set: &ClassSet) -> Result<KindRow, AllocError>
    ensures { IfOk result (λ kinds. HaveKinds set.now kinds.row.items kinds.spans.items) }
{
    let mut row = Vec::new(alloc);
    let mut spans = Vec::with_capacity(alloc, set.len())?;
    let mut memo: Vec<Option<Span>> = vec![in alloc; None; set.len()]?;
    for number in 0..set.len() {
        let span = lay(set, ClassId(number as u16), &mut row, &mut memo)?;
        spans.push(span)?;
    }
    Ok(KindRow { row, spans })
}
