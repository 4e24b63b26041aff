//! What is refused of the values in frames that come.

ghost use Rattle.std.specs.Prelude.{◌≡◌};
ghost use Rattle.std.specs.List.{list_any};
ghost use Rattle.sp_requests.specs.Asking.{kind_of};
ghost use Rattle.sp_rules.specs.Classes.{Setting, fits_result};
ghost use Rattle.sp_rules.specs.Frames.{fits_asked};
ghost use Rattle.sp_rules.specs.Holders.{is_refused};
ghost use Rattle.sp_rules.specs.References.{reference_of, references_in, references_of};
ghost use Rattle.sp_rules.specs.State.{Asked as Question, State};
ghost use Rattle.sp_state.specs.Receiving.{IsAskedBy};

use crate::SpaceState;
use sp_requests::{Asker, CallClasses, ResultKind};
use space_ids::{Ref, Value};

impl SpaceState {
    ghost use Rattle.sp_state.specs.Spaces.{IsSpace};

    // Whether a reference among these values is refused.
    pub(crate) fn refuses_any<C: CallClasses>(&self, classes: &C, values: &[Value]) -> bool
        ensures { (g : Setting) (s : State) → IsSpace g s self.now → C.tells classes.now g.classes → result ≡ list_any (is_refused g s) (references_of values.now) }
    {
        for value in values {
            if self.refuses_value(classes, value) {
                return true;
            }
        }
        false
    }

    // Whether a result is refused for the reference that it is.
    pub(crate) fn refuses_result<C: CallClasses>(&self, classes: &C, value: &Option<Value>) -> bool
        ensures { (g : Setting) (s : State) → IsSpace g s self.now → C.tells classes.now g.classes → result ≡ list_any (is_refused g s) (references_in value.now) }
    {
        match value {
            Some(value) => self.refuses_value(classes, value),
            None => false,
        }
    }

    // Whether a value is a reference that is refused.
    fn refuses_value<C: CallClasses>(&self, classes: &C, value: &Value) -> bool
        ensures { (g : Setting) (s : State) → IsSpace g s self.now → C.tells classes.now g.classes → result ≡ list_any (is_refused g s) (reference_of value.now) }
    {
        match value {
            Value::Ref(reference) => self.refuses(classes, reference),
            _ => false,
        }
    }

    // Whether a reference is refused: its class is not remote or is abstract, or it is the space's own and
    // names no standing object of its class.
    fn refuses<C: CallClasses>(&self, classes: &C, reference: &Ref) -> bool
        ensures { (g : Setting) (s : State) → IsSpace g s self.now → C.tells classes.now g.classes → result ≡ is_refused g s reference.now }
    {
        !classes.is_remote(reference.class)
            || (reference.space == self.id && !self.owner.is_own_standing(reference))
    }
}

// Whether a result is of the kind that was asked for, and gives back no more fuel than was lent. A lookup's is
// a reference, and nothing is lent to it.
pub(crate) fn fits(asker: &Asker, value: &Option<Value>, fuel: u64) -> bool
    ensures { (question : Question) → IsAskedBy asker.now question → result ≡ fits_asked question value.now fuel }
{
    match asker {
        Asker::Call { lent, kind, .. } => is_of_kind(*kind, value) && fuel <= *lent,
        Asker::Lookup { .. } => matches!(value, Some(Value::Ref(_))) && fuel == 0,
    }
}

// Whether a result is of a kind. Null is an array and a reference.
fn is_of_kind(kind: ResultKind, value: &Option<Value>) -> bool
    ensures { result ≡ fits_result (kind_of kind) value.now }
{
    match kind {
        ResultKind::Int => matches!(value, Some(Value::Int(_))),
        ResultKind::IntArray => matches!(value, Some(Value::Null | Value::Ints(_))),
        ResultKind::Reference => matches!(value, Some(Value::Null | Value::Ref(_))),
        ResultKind::Nothing => value.is_none(),
    }
}
