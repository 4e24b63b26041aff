//! Events that come from outside, and roots.

ghost use Rattle.std.specs.Prelude.{◌≡◌, IfSome};
ghost use Rattle.sp_events.specs.Events.{event_of, event_of_root};
ghost use Rattle.sp_rules.specs.Classes.{Setting};
ghost use Rattle.sp_rules.specs.Space.{on as after_event};
ghost use Rattle.sp_rules.specs.State.{State};
ghost use Rattle.sp_state.specs.LetIn.{IsLetIn};
ghost use Rattle.sp_state.specs.Spaces.{IsAtRest, IsSpace};
ghost use Rattle.sp_tasks.specs.Lent.{KeepsLent};

use crate::BoxedState;
use sp_events::{Event, Root};
use sp_requests::CallClasses;

/// Lets a state go. At each place that lets one go by itself, all of which a state is made of is proved anew.
pub fn let_go(space: BoxedState) {
    drop(space);
}

/// The state after an event happened to it too. There is none at out of memory.
pub fn follow<C: CallClasses>(mut last: BoxedState, classes: &C, event: Event) -> Option<BoxedState>
    ensures happened { IfSome result (λ space. (g : Setting) (s : State) → IsSpace g s last → IsAtRest s → C.tells classes.now g.classes → IsLetIn g s (event_of event) → IsSpace g (after_event g (event_of event) s).0 space) }
    ensures lent { IfSome result (λ space. KeepsLent last.living.tasks space.living.tasks) }
{
    let Ok(_) = last.on(classes, event) else {
        let_go(last);
        return None;
    };
    Some(last)
}

/// The state after a root started in it too. There is none at out of memory.
pub fn follow_root(mut last: BoxedState, root: &Root) -> Option<BoxedState>
    ensures happened { IfSome result (λ space. (g : Setting) (s : State) → IsSpace g s last → IsAtRest s → IsSpace g (after_event g (event_of_root root.now) s).0 space) }
    ensures lent { IfSome result (λ space. KeepsLent last.living.tasks space.living.tasks) }
{
    let Ok(_) = last.on_root(root) else {
        let_go(last);
        return None;
    };
    Some(last)
}
