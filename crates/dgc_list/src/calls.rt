//! What calls and moments make of the objects' clients.

ghost use Rattle.std.specs.Prelude.{◌≡◌, ◌<◌, ℕ, IsTrue, OnOk, Contains, Some, false, length, ◌||◌};
ghost use Rattle.space_ids.specs.declared.ids.ObjId.{ObjId};
ghost use Rattle.dgc_list.specs.declared.expiries.Expiry.{Expiry};
ghost use Rattle.dgc_list.specs.Remembered.{after_dirty, after_clean, is_blank};
ghost use Rattle.dgc_list.specs.Clients.{is_known, IsAlike, IsSame, Sets};
ghost use Rattle.dgc_list.specs.Objects.{is_same, clients_at, remembered_at, is_named, AreKnown, ArePlanned, IsCovered, Tells, Expires};

use crate::Remembered;
use crate::expiries::{Expiries, Expiry};
use crate::objects::Objects;
use space_ids::ObjId;
use std::alloc::AllocError;
use uuid::Uuid;

// Makes room for a client at each of the objects. Nothing else is remembered of any.
pub(crate) fn make_room(
    objects: &mut Objects,
    client: &Uuid,
    ids: &[ObjId],
) -> Result<(), AllocError>
    ensures known { OnOk result (AreKnown client.now ids.now objects.new) }
    ensures same { (other : ObjId) → IsSame (clients_at objects.old other)
        (clients_at objects.new other) }
{
    for id in ids {
        objects.add(*id, client)?;
    }
    Ok(())
}

// Takes back the room for a client at those of the objects at which nothing is remembered of it.
pub(crate) fn release(objects: &mut Objects, client: &Uuid, ids: &[ObjId])
    ensures alike { (other : ObjId) → IsAlike (clients_at objects.old other)
        (clients_at objects.new other) }
    ensures taken { (id : ObjId) → IsTrue (is_named id ids.now)
        → IsTrue (is_blank (remembered_at objects.old id client.now))
        → is_known (clients_at objects.new id) client.now ≡ false }
{
    for id in ids {
        release_at(objects, client, *id);
    }
}

// Takes back the room for a client at an object, if nothing is remembered of it there.
fn release_at(objects: &mut Objects, client: &Uuid, id: ObjId)
    ensures alike { (other : ObjId) → IsAlike (clients_at objects.old other)
        (clients_at objects.new other) }
    ensures taken { IsTrue (is_blank (remembered_at objects.old id client.now))
        → is_known (clients_at objects.new id) client.now ≡ false }
    ensures others { (other : ObjId) → is_same id other ≡ false
        → clients_at objects.new other ≡ clients_at objects.old other }
{
    let remembered = objects.get(id, client);
    if remembered.is_blank() {
        objects.set(id, client, remembered);
    }
}

// Adds the expiries of the entries that a client's call sets for the objects: none if it is late.
pub(crate) fn add_expiries(
    expiries: &mut Expiries,
    objects: &Objects,
    client: &Uuid,
    ids: &[ObjId],
    number: u64,
    moment: u64,
) -> Result<(), AllocError>
    ensures planned { OnOk result (ArePlanned client.now ids.now number moment objects.now
        expiries.new) }
    ensures kept { (other : Expiry) → Contains expiries.old other → Contains expiries.new other }
{
    for id in ids {
        if !objects.get(*id, client).is_late(number) {
            expiries.add(Expiry {
                moment,
                object: *id,
                client: *client,
            })?;
        }
    }
    Ok(())
}

// Sets what is remembered of a client of an object. If an entry ends by it, or is set anew, its expiry
// goes.
fn replace(
    objects: &mut Objects,
    expiries: &mut Expiries,
    object: ObjId,
    client: &Uuid,
    before: Remembered,
    remembered: Remembered,
)
    requires before { before ≡ remembered_at objects.old object client.now }
    requires room { IsTrue (is_known (clients_at objects.old object) client.now
        || is_blank remembered) }
    ensures here { Sets client.now remembered (clients_at objects.old object)
        (clients_at objects.new object) }
    ensures others { (other : ObjId) → is_same object other ≡ false
        → clients_at objects.new other ≡ clients_at objects.old other }
    ensures covered { ((moment : ℕ) → remembered.expires ≡ Some moment
        → Contains expiries.old (record { moment = moment; object = object; client = client.now }))
        → IsCovered objects.old expiries.old → IsCovered objects.new expiries.new }
    ensures kept { (other : Expiry) → Contains expiries.old other
        → ((remembered_at objects.old object client.now).expires ≡ Some other.moment
        → remembered.expires ≡ Some other.moment) → Contains expiries.new other }
    ensures gone { (moment : ℕ)
        → (remembered_at objects.old object client.now).expires ≡ Some moment
        → (remembered.expires ≡ Some moment → ⊥) → Contains expiries.new
        (record { moment = moment; object = object; client = client.now }) → ⊥ }
{
    objects.set(object, client, remembered);
    if let Some(moment) = before.expires
        && !remembered.stands_until(moment)
    {
        expiries.remove(Expiry {
            moment,
            object,
            client: *client,
        });
    }
}

// A dirty call of a client. The client has room, and the expiries are there.
pub(crate) fn tell_dirty(
    objects: &mut Objects,
    expiries: &mut Expiries,
    client: &Uuid,
    ids: &[ObjId],
    number: u64,
    expires: u64,
)
    requires known { AreKnown client.now ids.now objects.old }
    requires planned { ArePlanned client.now ids.now number expires objects.old expiries.old }
    ensures told { Tells (after_dirty number expires) client.now ids.now objects.old objects.new }
    ensures covered { IsCovered objects.old expiries.old → IsCovered objects.new expiries.new }
{
    for id in ids {
        let before = objects.get(*id, client);
        let remembered = before.after_dirty(number, expires);
        replace(objects, expiries, *id, client, before, remembered);
    }
}

// A clean call of a client. The client has room if the call is strong.
pub(crate) fn tell_clean(
    objects: &mut Objects,
    expiries: &mut Expiries,
    client: &Uuid,
    ids: &[ObjId],
    number: u64,
    strong: bool,
)
    requires { IsTrue strong → AreKnown client.now ids.now objects.old }
    ensures told { Tells (after_clean number strong) client.now ids.now objects.old objects.new }
    ensures covered { IsCovered objects.old expiries.old → IsCovered objects.new expiries.new }
{
    for id in ids {
        let before = objects.get(*id, client);
        let remembered = before.after_clean(number, strong);
        replace(objects, expiries, *id, client, before, remembered);
    }
}

// Takes the expiries up to a moment, and with them the entries that are gone.
pub(crate) fn expire(objects: &mut Objects, expiries: &mut Expiries, moment: u64)
    ensures objects { Expires moment objects.old objects.new }
    ensures covered { IsCovered objects.old expiries.old → IsCovered objects.new expiries.new }
    ensures none { (other : Expiry) → Contains expiries.new other → moment < other.moment }
{
    while let Some(gone) = expiries.pop_gone(moment) {
        let remembered = objects.get(gone.object, &gone.client).after_moment(moment);
        objects.set(gone.object, &gone.client, remembered);
    }
}
