//! Marks of classes, by class number. Classes past the end of a row have none.

ghost use Rattle.std.specs.Prelude.{◌≡◌, ◌⊎◌, ℕ, true, false, slice_index_or};

use cls_set::ClassId;

// Takes all marks away.
pub(crate) fn clear(marks: &mut [bool])
    ensures { (k : ℕ) → slice_index_or marks.new k false ≡ false }
{
    for mark in marks.iter_mut() {
        *mark = false;
    }
}

// Whether a class is marked.
pub(crate) fn is_marked(marks: &[bool], class: ClassId) -> bool
    ensures { result ≡ slice_index_or marks.now class.0 false }
{
    match marks.get(usize::from(class.0)) {
        Some(mark) => *mark,
        None => false,
    }
}

// Marks a class, if the row has it.
pub(crate) fn mark(marks: &mut [bool], class: ClassId)
    ensures { (k : ℕ) → slice_index_or marks.new k false ≡ true → (k ≡ class.0) ⊎ (slice_index_or marks.old k false ≡ true) }
{
    let index = usize::from(class.0);
    if index < marks.len() {
        marks[index] = true;
    }
}
