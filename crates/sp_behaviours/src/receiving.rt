//! What calls on objects of a space begin, as a law.

ghost use Rattle.sp_behaviours.specs.Receiving.{SelectedMethodsBegin};

/// The method that a call selects on a remote object of a space begins a task there: it is not refused,
/// whatever the limits.
pub fn selected_methods_begin()
    ensures { SelectedMethodsBegin }
{}
