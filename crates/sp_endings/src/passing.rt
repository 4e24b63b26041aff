//! What becomes of frames that were parked: a call starts its task, a result is passed on to who asked, and
//! either may fail.

ghost use Rattle.std.specs.Prelude.{◌≡◌, ◌∷◌, List, OnOk, option_map};
ghost use Rattle.space_ids.specs.declared.ids.Ref.{Ref as Reference};
ghost use Rattle.space_ids.specs.declared.value.Value.{Value as Carried};
ghost use Rattle.space_ids.specs.declared.value.Value.TheVariants as values;
ghost use Rattle.sp_endings.specs.Passing.{give_up, pass_on};
ghost use Rattle.sp_living.specs.Livings.{IsLiving};
ghost use Rattle.sp_parked.specs.Parkings.{frame_of, parked_of};
ghost use Rattle.sp_rules.specs.Classes.{Setting};
ghost use Rattle.sp_rules.specs.ParkedFrames.{answer_threw, go_frame, start_call, start_selected};
ghost use Rattle.sp_rules.specs.State.{Object, ParkedFrame as Row, State, object_at};
ghost use Rattle.sp_store.specs.Stores.{IsAfter};
ghost use Rattle.sp_tasks.specs.Lent.{KeepsLent};

use net_message::Message;
use sp_living::Living;
use sp_outputs::Turn;
use sp_parked::{Frame, ParkedCall, ParkedFrame};
use sp_requests::{CallClasses, RemoteException};
use sp_store::Store;
use sp_tasks::{Origin, Reply};
use space_ids::{ClassId, ObjId, Ref, Value};
use std::alloc::AllocError;

// Lets a frame go that has been taken out: a task or a result holds its references before it lets them
// go.
pub(crate) fn pass_on<C: CallClasses>(
    living: &mut Living,
    store: &Store,
    classes: &C,
    frame: ParkedFrame,
) -> Result<(), AllocError>
    ensures passed { OnOk result ((g : Setting) (s : State) → IsLiving g s living.old → C.tells classes.now g.classes → IsAfter g s.store store.now → IsLiving g (pass_on g s (parked_of frame)) living.new) }
    ensures lent { OnOk result (KeepsLent living.old.tasks living.new.tasks) }
{
    let ParkedFrame {
        conn,
        number,
        frame,
        references,
    } = frame;
    go_frame(living, store, classes, conn, number, frame)?;
    living.drop_ids(references.as_slice());
    Ok(())
}

// Starts the task of a call that was parked, or passes a result on.
fn go_frame<C: CallClasses>(
    living: &mut Living,
    store: &Store,
    classes: &C,
    conn: u64,
    number: u64,
    frame: Frame,
) -> Result<(), AllocError>
    ensures gone { OnOk result ((g : Setting) (s : State) (p : Row) → IsLiving g s living.old → C.tells classes.now g.classes → IsAfter g s.store store.now → p.conn ≡ conn → p.number ≡ number → IsLiving g (go_frame g p (frame_of frame) s) living.new) }
    ensures lent { OnOk result (KeepsLent living.old.tasks living.new.tasks) }
{
    match frame {
        Frame::Call(call) => start_call(living, store, classes, conn, number, call),
        Frame::Returned { value, fuel } => {
            living.answer_parked(conn, number, Reply::GivesBack { value, fuel })
        }
    }
}

// Starts the task of a call that was parked, at the method that is selected for its target. If selection
// finds none, the answer is ServerError. Nothing happens if the target does not stand.
fn start_call<C: CallClasses>(
    living: &mut Living,
    store: &Store,
    classes: &C,
    conn: u64,
    number: u64,
    call: ParkedCall,
) -> Result<(), AllocError>
    ensures started { OnOk result ((g : Setting) (s : State) (p : Row) → IsLiving g s living.old → C.tells classes.now g.classes → IsAfter g s.store store.now → p.conn ≡ conn → p.number ≡ number → IsLiving g (start_call g p call.target call.method call.fuel call.arguments s) living.new) }
    ensures lent { OnOk result (KeepsLent living.old.tasks living.new.tasks) }
{
    let Some(receiver) = receiver_of(living, store, call.target) else {
        return Ok(());
    };
    let selected = classes.selected(receiver.class, call.method);
    let mut arguments = call.arguments.into_vec();
    arguments.insert(0, Value::Ref(receiver))?;
    start_selected(
        living, classes, conn, number, selected, &arguments, call.fuel,
    )
}

// The reference of one of the space's own objects, if it stands.
fn receiver_of(living: &Living, store: &Store, target: ObjId) -> Option<Ref>
    ensures { (g : Setting) (s : State) → IsLiving g s living.now → IsAfter g s.store store.now → result ≡ option_map (λ (o : Object). record { space = g.id; id = target; class = o.class }) (object_at s target) }
{
    match store.class_of(target) {
        Some(class) => Some(Ref {
            space: living.id(),
            id: target,
            class,
        }),
        None => None,
    }
}

// Starts the task of a call at the method that is selected, if there is one; else the answer is
// ServerError.
fn start_selected<C: CallClasses>(
    living: &mut Living,
    classes: &C,
    conn: u64,
    number: u64,
    selected: Option<u32>,
    arguments: &[Value],
    fuel: u64,
) -> Result<(), AllocError>
    ensures started { OnOk result ((g : Setting) (s : State) (receiver : Reference) (others : List Carried) → IsLiving g s living.old → C.tells classes.now g.classes → arguments.now ≡ values.Ref receiver ∷ others → IsLiving g (start_selected g conn number receiver selected fuel others s) living.new) }
    ensures lent { OnOk result (KeepsLent living.old.tasks living.new.tasks) }
{
    match selected {
        Some(method) => {
            let origin = Origin::Call { conn, number };
            let _ = living.start(origin, method, arguments, fuel)?;
            Ok(())
        }
        None => answer_threw(
            living,
            conn,
            number,
            classes.thrown(RemoteException::ServerError),
        ),
    }
}

// Answers a call that came by an exception of this class.
fn answer_threw(
    living: &mut Living,
    conn: u64,
    number: u64,
    class: ClassId,
) -> Result<(), AllocError>
    ensures answered { OnOk result ((g : Setting) (s : State) → IsLiving g s living.old → IsLiving g (answer_threw conn number class s) living.new) }
    ensures lent { OnOk result (KeepsLent living.old.tasks living.new.tasks) }
{
    living.reply(Turn::Replies, conn, Message::Threw { number, class })
}

// Lets a frame fail that has been taken out, with UnmarshalException: a call is answered by it, and a
// result is passed on as it.
pub(crate) fn give_up<C: CallClasses>(
    living: &mut Living,
    classes: &C,
    frame: &ParkedFrame,
) -> Result<(), AllocError>
    ensures failed { OnOk result ((g : Setting) (s : State) → IsLiving g s living.old → C.tells classes.now g.classes → IsLiving g (give_up g s (parked_of frame.now)) living.new) }
    ensures lent { OnOk result (KeepsLent living.old.tasks living.new.tasks) }
{
    living.drop_ids(frame.references.as_slice());
    let class = classes.thrown(RemoteException::Unmarshal);
    match frame.frame {
        Frame::Call(_) => answer_threw(living, frame.conn, frame.number, class),
        Frame::Returned { value: _, fuel: _ } => {
            living.answer_parked(frame.conn, frame.number, Reply::Throws(class))
        }
    }
}
