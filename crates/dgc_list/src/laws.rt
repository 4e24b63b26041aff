//! What the definitions say, in the terms of the Java RMI specification.

ghost use Rattle.std.specs.Prelude.{◌≡◌, ◌+◌, ◌<◌, ◌≤◌, ◌++◌, ◌∷◌, ℕ, Bool, true, false, List, Some, None, IsTrue};
ghost use Rattle.std.specs.List.{list_all};
ghost use Rattle.space_ids.specs.declared.ids.ObjId.{ObjId};
ghost use Rattle.dgc_list.specs.Remembered.{is_late};
ghost use Rattle.dgc_list.specs.History.{Call, moment_of, granted, is_told, remembered_of, is_leased, clients_of, own_calls, AreOlder};
ghost use Rattle.dgc_list.specs.History.Call.{Dirty, Clean, Moment};

/// If the number of a call is not above the remembered one, the call changes nothing.
pub fn a_late_call_changes_nothing()
    ensures dirty { (h : List Call) (c : List ℕ) (o : ObjId) (objects : List ObjId)
        (number period : ℕ) → IsTrue (is_late (remembered_of h c o) number)
        → remembered_of (Dirty c objects number period ∷ h) c o ≡ remembered_of h c o }
    ensures clean { (h : List Call) (c : List ℕ) (o : ObjId) (objects : List ObjId) (number : ℕ)
        (strong : Bool) → IsTrue (is_late (remembered_of h c o) number)
        → remembered_of (Clean c objects number strong ∷ h) c o ≡ remembered_of h c o }
{}

/// After a strong clean call no dirty call that is not newer adds an entry, whatever else comes.
pub fn a_strong_clean_call_outlives_older_calls()
    ensures { (h later : List Call) (c : List ℕ) (o : ObjId) (objects : List ObjId) (number : ℕ)
        → IsTrue (is_told c objects c o) → is_late (remembered_of h c o) number ≡ false
        → AreOlder number c o later → is_leased (later ++ Clean c objects number true ∷ h) c o
        ≡ false }
{}

/// An entry stands as long as the granted period is not over, and is gone from then on.
pub fn an_entry_stands_for_its_period()
    ensures stands { (h : List Call) (c : List ℕ) (o : ObjId) (objects : List ObjId)
        (number period moment : ℕ) → IsTrue (is_told c objects c o)
        → is_late (remembered_of h c o) number ≡ false → moment < moment_of h + granted period
        → is_leased (Moment moment ∷ Dirty c objects number period ∷ h) c o ≡ true }
    ensures gone { (h : List Call) (c : List ℕ) (o : ObjId) (objects : List ObjId)
        (number period moment : ℕ) → IsTrue (is_told c objects c o)
        → is_late (remembered_of h c o) number ≡ false → moment_of h + granted period ≤ moment
        → is_leased (Moment moment ∷ Dirty c objects number period ∷ h) c o ≡ false }
{}

/// What is remembered of a client and an object depends on that client's calls on that object alone,
/// on the moments and on the object's withdrawal.
pub fn only_own_calls_count()
    ensures { (h : List Call) (c : List ℕ) (o : ObjId)
        → remembered_of h c o ≡ remembered_of (own_calls c o h) c o }
{}

/// Each client that is listed has an entry.
pub fn clients_that_are_listed_have_an_entry()
    ensures { (h : List Call) (o : ObjId) → IsTrue
        (list_all (λ c. is_leased h c o) (clients_of h o)) }
{}
