//! The laws of dirty and clean calls on their way.

ghost use Rattle.sp_laws.specs.MadeWhenDue.{CallsAreMadeWhenDue};
ghost use Rattle.sp_laws.specs.Moments.{LeasesCountFromThePast};
ghost use Rattle.sp_laws.specs.OnTheWay.{CallsOnTheirWayAreRequests};
ghost use Rattle.sp_laws.specs.Numbered.{SequenceNumbersAreFresh};

/// After every history of a space the dirty call on its way of a reference stands once among the
/// requests that wait to be sent or answered, and so does its clean call on its way. The other way
/// round, each dirty call among them that names a reference is the one on its way, or a clean call
/// of the reference was made after it; likewise each clean call. A number of calls that was not
/// given yet stands nowhere.
pub fn calls_on_their_way_are_requests()
    ensures { CallsOnTheirWayAreRequests }
{}

/// After every history of a space each sequence number stands at one dirty or clean call at most
/// that is out and not answered. A number that was not given yet stands at none.
pub fn sequence_numbers_are_fresh()
    ensures { SequenceNumbersAreFresh }
{}

/// After every history of a space the dirty call on its way of a reference, its last dirty call and
/// the start of its lease are of no moment to come.
pub fn leases_count_from_the_past()
    ensures { LeasesCountFromThePast }
{}

/// Of each foreign reference after every history of a space: each dirty call was made while something held
/// the reference and no dirty call was on its way, each clean call when nothing held it and one was owed;
/// and their numbers rise.
pub fn calls_are_made_when_due()
    ensures { CallsAreMadeWhenDue }
{}
