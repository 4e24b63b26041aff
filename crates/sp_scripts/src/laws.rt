//! The worked scripts of spaces, computed by the rules.

ghost use Rattle.sp_scripts.specs.ValuesScripts.{Booleans, Nulls, PlainObjects, Endings, ResultCannotCross, Names, LookupUnbound, FieldOverwritten, Arrays};
ghost use Rattle.sp_scripts.specs.FuelScripts.{OneSpace, TwoSpaces, FuelOfFiveRoots, TwoTasksOnOneCounter, TwoWaitingCallsInOrder, RecursionAtHome, Spin, ZeroLent, ThirdSpaceShort1, ThirdSpaceShort4, AThousandUnits};
ghost use Rattle.sp_scripts.specs.FailuresScripts.{AckLost, CallLost, CallReadFails, CallWrittenThenFails, HelloReadFails, NoRetry, RecursionFails, RefusedThenOpen, ReplyQueuedReadFails, ReturnedLostHolds, TaskDropsResult, ParkedCallDropped};
ghost use Rattle.sp_scripts.specs.LeasesScripts.{WithdrawnObject, CleanNotRepeatedWithHolder, CleanRepeatedUntilNotYet, LastHolderOfTwo, LateDirtyAfterStrongClean, LookupNeedsAckOfLease, MomentBelow, RenewalFailedAgain, WeakCleanForgets, OvertakenLease, LeaseOfAnOvertakenDirty, ParkedCallIsAReason, KeptFar, ChurnCleans, CycleStays, CellMadeAfar};
ghost use Rattle.sp_scripts.specs.ThirdSpacesScripts.{ThirdSpace, ThirdSpaceSwept, FetchThroughThird, FreshRoundTrip, EntryBeforeStart};
ghost use Rattle.sp_scripts.specs.VersionsScripts.{BothOfVersion2, OwnerOfVersion1, ClientOfVersion1, ThirdOfVersion2};
ghost use Rattle.sp_scripts.specs.BadLinesScripts.{BadLookupSelf, BadRootKind, BadRootNoHolder, LapsedLeaseIsNoRootArgument, BadSpace};
ghost use Rattle.sp_scripts.specs.Answers.{RightHello, WrongDigest, WrongId, NoHello, RefusedDial, DialGivenOnce, ClosedByThoseThatAsk, ClosedByThoseThatAnswer, UnfitReplies, OrderOfFrames, FailureOfAnOvertakenDirty, Refusals, RefusalsOfLentTasks, HeldByATask, HeldByAField, HeldAfterTheEnd, TooManyReferences};

/// Scripts of values that cross, and of how calls end, show what is written out.
pub fn scripts_of_values()
    ensures booleans { Booleans }
    ensures nulls { Nulls }
    ensures plain_objects { PlainObjects }
    ensures endings { Endings }
    ensures result_cannot_cross { ResultCannotCross }
    ensures names { Names }
    ensures lookup_unbound { LookupUnbound }
    ensures field_overwritten { FieldOverwritten }
    ensures arrays { Arrays }
{}

/// Scripts of one space, of two spaces, and of fuel show what is written out.
pub fn scripts_of_fuel()
    ensures one_space { OneSpace }
    ensures two_spaces { TwoSpaces }
    ensures fuel_of_five_roots { FuelOfFiveRoots }
    ensures two_tasks_on_one_counter { TwoTasksOnOneCounter }
    ensures two_waiting_calls_in_order { TwoWaitingCallsInOrder }
    ensures recursion_at_home { RecursionAtHome }
    ensures spin { Spin }
    ensures zero_lent { ZeroLent }
    ensures third_space_short_1 { ThirdSpaceShort1 }
    ensures third_space_short_4 { ThirdSpaceShort4 }
    ensures a_thousand_units { AThousandUnits }
{}

/// Scripts of lost frames, failed reads and writes, and refused dials show what is written out.
pub fn scripts_of_failures()
    ensures ack_lost { AckLost }
    ensures call_lost { CallLost }
    ensures call_read_fails { CallReadFails }
    ensures call_written_then_fails { CallWrittenThenFails }
    ensures hello_read_fails { HelloReadFails }
    ensures no_retry { NoRetry }
    ensures recursion_fails { RecursionFails }
    ensures refused_then_open { RefusedThenOpen }
    ensures reply_queued_read_fails { ReplyQueuedReadFails }
    ensures returned_lost_holds { ReturnedLostHolds }
    ensures task_drops_result { TaskDropsResult }
    ensures parked_call_dropped { ParkedCallDropped }
{}

/// Scripts of dirty and clean calls, and of leases and their ends, show what is written out.
pub fn scripts_of_leases()
    ensures withdrawn_object { WithdrawnObject }
    ensures clean_not_repeated_with_holder { CleanNotRepeatedWithHolder }
    ensures clean_repeated_until_not_yet { CleanRepeatedUntilNotYet }
    ensures last_holder_of_two { LastHolderOfTwo }
    ensures late_dirty_after_strong_clean { LateDirtyAfterStrongClean }
    ensures lookup_needs_ack_of_lease { LookupNeedsAckOfLease }
    ensures moment_below { MomentBelow }
    ensures renewal_failed_again { RenewalFailedAgain }
    ensures weak_clean_forgets { WeakCleanForgets }
    ensures overtaken_lease { OvertakenLease }
    ensures lease_of_an_overtaken_dirty { LeaseOfAnOvertakenDirty }
    ensures parked_call_is_a_reason { ParkedCallIsAReason }
    ensures kept_far { KeptFar }
    ensures churn_cleans { ChurnCleans }
    ensures cycle_stays { CycleStays }
    ensures cell_made_afar { CellMadeAfar }
{}

/// Scripts of references that pass through a third space show what is written out.
pub fn scripts_of_third_spaces()
    ensures third_space { ThirdSpace }
    ensures third_space_swept { ThirdSpaceSwept }
    ensures fetch_through_third { FetchThroughThird }
    ensures fresh_round_trip { FreshRoundTrip }
    ensures entry_before_start { EntryBeforeStart }
{}

/// The script of two spaces shows and spends the same if both are of version 2 of the frames, and if the
/// owner or the client alone is; and so does a script of three, of which the third alone is.
pub fn scripts_of_versions()
    ensures both_of_version_2 { BothOfVersion2 }
    ensures owner_of_version_1 { OwnerOfVersion1 }
    ensures client_of_version_1 { ClientOfVersion1 }
    ensures third_of_version_2 { ThirdOfVersion2 }
{}

/// Scripts with a line that is refused say so.
pub fn scripts_of_bad_lines()
    ensures bad_lookup_self { BadLookupSelf }
    ensures bad_root_kind { BadRootKind }
    ensures bad_root_no_holder { BadRootNoHolder }
    ensures lapsed_lease_is_no_root_argument { LapsedLeaseIsNoRootArgument }
    ensures bad_space { BadSpace }
{}

/// One space answers and refuses what is written out, before peers that send anything: Hellos,
/// frames that close a connection, replies that do not fit, the order of outputs, a dirty call that
/// fails after it was overtaken, refusals, and what a task may hold.
pub fn answers_of_one_space()
    ensures right_hello { RightHello }
    ensures wrong_digest { WrongDigest }
    ensures wrong_id { WrongId }
    ensures no_hello { NoHello }
    ensures refused_dial { RefusedDial }
    ensures dial_given_once { DialGivenOnce }
    ensures closed_by_those_that_ask { ClosedByThoseThatAsk }
    ensures closed_by_those_that_answer { ClosedByThoseThatAnswer }
    ensures unfit_replies { UnfitReplies }
    ensures order_of_frames { OrderOfFrames }
    ensures failure_of_an_overtaken_dirty { FailureOfAnOvertakenDirty }
    ensures refusals { Refusals }
    ensures refusals_of_lent_tasks { RefusalsOfLentTasks }
    ensures held_by_a_task { HeldByATask }
    ensures held_by_a_field { HeldByAField }
    ensures held_after_the_end { HeldAfterTheEnd }
    ensures too_many_references { TooManyReferences }
{}
