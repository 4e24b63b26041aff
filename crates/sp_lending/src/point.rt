//! Where machines stand.

ghost use Rattle.std.specs.Prelude.{◌≡◌, false, IfOk, IfSome};
ghost use Rattle.sp_lending.specs.Hands.{StandsIn};

use sp_lender::Pause;
use sp_machines::TaskMachine;
use sp_tasks::Stand;
use std::alloc::{AllocError, Global};

// Where a machine stands, if it has ended or asks, and what its slice ends with.
pub(crate) fn pause(alloc: Global, player: &TaskMachine<'_>) -> (Option<Stand>, Pause)
    ensures { player.now.ahead ≡ false → IfSome result.0 (StandsIn player.now) }
{
    match point(alloc, player) {
        Ok(at) => at,
        Err(_) => (None, Pause::Memory),
    }
}

// The same, if memory does not run out.
fn point(alloc: Global, player: &TaskMachine<'_>) -> Result<(Option<Stand>, Pause), AllocError>
    ensures { IfOk result (λ at. player.now.ahead ≡ false → IfSome at.0 (StandsIn player.now)) }
{
    if let Some(outcome) = player.end(alloc)? {
        return Ok((Some(Stand::HasEnded(outcome)), Pause::Ended));
    }
    match player.asked() {
        Some(asked) => {
            let op = player.awaited(alloc, &asked)?;
            let told = player.awaited(alloc, &asked)?;
            Ok((Some(Stand::AsksFor(op)), Pause::Asks(told)))
        }
        None => Ok((None, Pause::Turn)),
    }
}
