//! One foreign reference: its holders, its lease, and the due call.

ghost use Rattle.std.specs.Prelude.{◌≡◌};
ghost use Rattle.dgc_client.specs.Lease.{fresh, is_made, after_hold, after_drop, after_moment, after_dirty, after_clean, after_sent, after_answer, after_failed_dirty, after_answered_clean, after_failed_clean, due_held, due_unheld, is_waiting, due, is_renewed_at, lapses_at};
ghost use Rattle.dgc_client.specs.History.{after, event_of};

use dgc_index::Term;

/// The period that each dirty call asks for, in milliseconds.
pub const LONGEST_LEASE: u64 = 600_000;

/// A call that was made: its number among the space's dirty and clean calls, and the moment at
/// which it was sent, or made if it is not sent yet.
#[derive(Clone, Copy, PartialEq, Eq)]
pub struct Made {
    pub call: u64,
    pub at: u64,
}

/// The clean call that is owed once there is no holder.
#[derive(Clone, Copy, PartialEq, Eq)]
pub enum Owed {
    /// None: no dirty call was made, or a clean call was made after the last one.
    Nothing,
    /// A clean call: a dirty call was made.
    Clean,
    /// A strong clean call: the last dirty call failed, and may have arrived all the same.
    Strong,
    /// A strong clean call again: the last clean call failed. It is owed only until the longest lease
    /// of the last dirty call is over.
    Again,
}

/// The due call.
#[derive(Clone, Copy, Debug, PartialEq, Eq)]
pub enum Due {
    Dirty,
    Clean { strong: bool },
}

/// What a space keeps of one foreign reference.
#[derive(Clone, Copy, PartialEq, Eq)]
pub struct ClientLease {
    /// How many parked frames, tasks, fields and results that nobody has acknowledged hold it.
    pub holders: u64,
    /// The last moment, in milliseconds.
    pub moment: u64,
    /// The dirty call on its way: it has no answer, has not failed, and no clean call came after
    /// it.
    pub dirty: Option<Made>,
    /// The lease that stands.
    pub lease: Option<Term>,
    /// Whether the lease is due for renewal.
    pub renew: bool,
    /// The dirty call that was made last.
    pub last: Option<Made>,
    /// The clean call that was made last and is not answered, if no dirty call was made after it.
    pub clean: Option<u64>,
    /// The clean call that is owed once there is no holder.
    pub owed: Owed,
    /// Whether a call failed since the last moment: nothing is due before the next.
    pub waits: bool,
}

/// What happens to a reference that is known, beside moments and new holders.
#[derive(Clone, Copy)]
pub(crate) enum Change {
    Dropped,
    DirtyMade(u64),
    CleanMade(u64),
    DirtySent(u64),
    DirtyAnswered { call: u64, period: u64 },
    DirtyFailed(u64),
    CleanAnswered(u64),
    CleanFailed(u64),
}

// Whether the call is this one.
fn is_call(made: Option<Made>, call: u64) -> bool
    ensures { result ≡ is_made made call }
{
    matches!(made, Some(made) if made.call == call)
}

impl ClientLease {
    /// Returns a reference to which nothing happened yet.
    pub fn new(moment: u64) -> ClientLease
        ensures { result ≡ fresh moment }
    {
        ClientLease {
            holders: 0,
            moment,
            dirty: None,
            lease: None,
            renew: false,
            last: None,
            clean: None,
            owed: Owed::Nothing,
            waits: false,
        }
    }

    /// Adds a holder. Above 2^64 - 1 holders are not counted: the reference then keeps them for
    /// good, so that it is never taken for one that nobody holds.
    pub fn hold(&mut self)
        ensures { self.new ≡ after_hold self.old }
    {
        if self.holders < u64::MAX {
            self.holders += 1;
        }
    }

    /// Takes a holder away, if there is one and all were counted.
    pub fn drop_holder(&mut self)
        ensures { self.new ≡ after_drop self.old }
    {
        if self.holders < u64::MAX {
            self.holders = self.holders.saturating_sub(1);
        }
    }

    /// Sets the moment that is now. A lease is due for renewal once at most half of its period is
    /// left, and lapses once all of it is over; the period counts from the sending of its dirty
    /// call. A moment below the last changes nothing.
    pub fn moment(&mut self, moment: u64)
        ensures { self.new ≡ after_moment moment self.old }
    {
        if moment < self.moment {
            return;
        }
        self.moment = moment;
        self.waits = false;
        self.lease = self.lease.filter(|term| term.stands_at(moment));
        self.renew = self.lease.is_some_and(|term| term.is_half_over_at(moment));
    }

    /// Notes that a dirty call was made for the reference.
    pub fn dirty_made(&mut self, call: u64)
        ensures { self.new ≡ after_dirty call self.old }
    {
        let made = Made {
            call,
            at: self.moment,
        };
        self.dirty = Some(made);
        self.last = Some(made);
        self.renew = false;
        self.clean = None;
        self.owed = Owed::Clean;
        self.waits = false;
    }

    /// Notes that a clean call was made: the lease ends, and it overtakes a dirty call on its way.
    pub fn clean_made(&mut self, call: u64)
        ensures { self.new ≡ after_clean call self.old }
    {
        self.dirty = None;
        self.lease = None;
        self.renew = false;
        self.clean = Some(call);
        self.owed = Owed::Nothing;
        self.waits = false;
    }

    /// Notes that a dirty call goes out now.
    pub fn dirty_sent(&mut self, call: u64)
        ensures { self.new ≡ after_sent call self.old }
    {
        let sent = Some(Made {
            call,
            at: self.moment,
        });
        if is_call(self.dirty, call) {
            self.dirty = sent;
        }
        if is_call(self.last, call) {
            self.last = sent;
        }
    }

    /// Notes that a dirty call was answered by a lease for this period: none if it was overtaken.
    pub fn dirty_answered(&mut self, call: u64, period: u64)
        ensures { self.new ≡ after_answer call period self.old }
    {
        if let Some(dirty) = self.dirty
            && dirty.call == call
        {
            self.dirty = None;
            self.lease = Some(Term {
                sent: dirty.at,
                period,
            });
            self.renew = false;
        }
    }

    /// Notes that a dirty call failed. If it was not overtaken, a new dirty call or a strong clean
    /// call is due from the next moment on.
    pub fn dirty_failed(&mut self, call: u64)
        ensures { self.new ≡ after_failed_dirty call self.old }
    {
        if is_call(self.dirty, call) {
            self.dirty = None;
            self.owed = Owed::Strong;
            self.waits = true;
        }
    }

    /// Notes that a clean call was answered.
    pub fn clean_answered(&mut self, call: u64)
        ensures { self.new ≡ after_answered_clean call self.old }
    {
        if self.clean == Some(call) {
            self.clean = None;
        }
    }

    /// Notes that a clean call failed. If no dirty call was made after it, a strong one is due from
    /// the next moment on, while there is no holder and a lease of the last dirty call could stand.
    pub fn clean_failed(&mut self, call: u64)
        ensures { self.new ≡ after_failed_clean call self.old }
    {
        if self.clean != Some(call) {
            return;
        }
        self.clean = None;
        self.owed = Owed::Again;
        self.waits = true;
    }

    /// The change happened.
    pub(crate) fn change(&mut self, change: Change)
        ensures { self.new ≡ after (event_of change) self.old }
    {
        match change {
            Change::Dropped => self.drop_holder(),
            Change::DirtyMade(call) => self.dirty_made(call),
            Change::CleanMade(call) => self.clean_made(call),
            Change::DirtySent(call) => self.dirty_sent(call),
            Change::DirtyAnswered { call, period } => self.dirty_answered(call, period),
            Change::DirtyFailed(call) => self.dirty_failed(call),
            Change::CleanAnswered(call) => self.clean_answered(call),
            Change::CleanFailed(call) => self.clean_failed(call),
        }
    }

    /// Returns whether the lease is due for renewal once this moment has come.
    pub fn is_renewed_at(&self, moment: u64) -> bool
        ensures { result ≡ is_renewed_at moment self.now }
    {
        let mut then = *self;
        then.moment(moment);
        then.renew
    }

    /// Returns whether there is a lease, and this moment ends it.
    pub fn lapses_at(&self, moment: u64) -> bool
        ensures { result ≡ lapses_at moment self.now }
    {
        let mut then = *self;
        then.moment(moment);
        self.lease.is_some() && then.lease.is_none()
    }

    /// Returns the call that is due now, if any.
    pub fn due(&self) -> Option<Due>
        ensures { result ≡ due self.now }
    {
        if self.is_waiting() {
            None
        } else if self.holders > 0 {
            self.due_held()
        } else {
            self.due_unheld()
        }
    }

    // Whether nothing is due before the next moment, since a call failed. A new holder does not
    // wait after a clean call that failed.
    fn is_waiting(&self) -> bool
        ensures { result ≡ is_waiting self.now }
    {
        self.waits && !(self.holders > 0 && matches!(self.owed, Owed::Again))
    }

    // The due call if there are holders.
    fn due_held(&self) -> Option<Due>
        ensures { result ≡ due_held self.now }
    {
        if self.dirty.is_none() && (self.lease.is_none() || self.renew) {
            Some(Due::Dirty)
        } else {
            None
        }
    }

    // The due call if there are none.
    fn due_unheld(&self) -> Option<Due>
        ensures { result ≡ due_unheld self.now }
    {
        match self.owed {
            Owed::Nothing => None,
            Owed::Clean => Some(Due::Clean { strong: false }),
            Owed::Strong => Some(Due::Clean { strong: true }),
            Owed::Again => match self.last {
                Some(last) if self.moment.saturating_sub(last.at) < LONGEST_LEASE => {
                    Some(Due::Clean { strong: true })
                }
                _ => None,
            },
        }
    }
}
