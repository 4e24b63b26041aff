//! Operations on the store, for which lent tasks ask.

ghost use Rattle.std.specs.Prelude.{◌≡◌, true, IfOk, IfSome, OnOk};
ghost use Rattle.sp_rules.specs.Classes.{Setting};
ghost use Rattle.sp_rules.specs.LivingTasks.{commit as after_commit, op_reply};
ghost use Rattle.sp_rules.specs.State.{State};
ghost use Rattle.sp_state.specs.Hands.{has_lent};
ghost use Rattle.sp_state.specs.LetIn.{MayCommit};
ghost use Rattle.sp_state.specs.Spaces.{IsSpace};
ghost use Rattle.sp_tasks.specs.Behaviours.{op_of, reply_of};
ghost use Rattle.sp_tasks.specs.Lent.{KeepsLent};
ghost use Rattle.sp_tasks.specs.Rows.{replied_hand};

use crate::{BoxedState, let_go};
use sp_requests::CallClasses;
use sp_tasks::{LentTask, Op, Reply, copy_reply};
use std::alloc::{AllocError, Global};

/// Does an operation on the store in a state, and answers the reply twice. What fails is to be let go.
pub fn commit_in<C: CallClasses>(
    alloc: Global,
    space: &mut BoxedState,
    classes: &C,
    hand: &mut LentTask,
    op: &Op,
) -> Result<(Reply, Reply), AllocError>
    requires { has_lent space.old hand.old ≡ true }
    ensures reply { IfOk result (λ reply. (g : Setting) (s : State) → IsSpace g s space.old → C.tells classes.now g.classes → MayCommit g s (op_of op.now) → reply_of reply.0 ≡ op_reply g (op_of op.now) s) }
    ensures twice { IfOk result (λ reply. reply_of reply.1 ≡ reply_of reply.0) }
    ensures committed { OnOk result ((g : Setting) (s : State) → IsSpace g s space.old → C.tells classes.now g.classes → MayCommit g s (op_of op.now) → IsSpace g (after_commit g hand.old.id hand.old.made (op_of op.now) s) space.new) }
    ensures task { IfOk result (λ reply. hand.new ≡ replied_hand (reply_of reply.0) hand.old) }
    ensures own { OnOk result (has_lent space.new hand.new ≡ true) }
    ensures lent { OnOk result (KeepsLent space.old.living.tasks space.new.living.tasks) }
{
    let reply = space.state.commit(classes, hand, op)?;
    let copy = copy_reply(alloc, &reply)?;
    Ok((reply, copy))
}

/// The state after the operation was done in it too. There is none at out of memory.
pub fn commit_too<C: CallClasses>(
    last: BoxedState,
    classes: &C,
    hand: &mut LentTask,
    op: &Op,
) -> Option<BoxedState>
    requires { has_lent last hand.old ≡ true }
    ensures own { IfSome result (λ space. has_lent space hand.new ≡ true) }
    ensures hand { IfSome result (λ _. (hand.new.id ≡ hand.old.id) × (hand.new.made ≡ 0)) }
    ensures done { IfSome result (λ space. (g : Setting) (s : State) → IsSpace g s last → C.tells classes.now g.classes → MayCommit g s (op_of op.now) → IsSpace g (after_commit g hand.old.id hand.old.made (op_of op.now) s) space) }
    ensures lent { IfSome result (λ space. KeepsLent last.living.tasks space.living.tasks) }
{
    let mut last = last;
    let Ok(_) = last.state.commit(classes, hand, op) else {
        let_go(last);
        return None;
    };
    Some(last)
}
