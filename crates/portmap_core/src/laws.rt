ghost use Rattle.portmap_core.specs.Laws.{ActiveNamesAreFound, ActiveNamesAreListed, ActiveNamesAreTaken, EndsAreFinal};
ghost use Rattle.portmap_core.specs.Laws.{EndsLeaveNoName, EntriesDetermine, HoldersOutlastTheirTime, KillsAreRefused};
ghost use Rattle.portmap_core.specs.Laws.{KillsEnd, MalformedChangesNoName, NamesBelongToConnections, NewNamesWantRoom};
ghost use Rattle.portmap_core.specs.Laws.{RemotePeersMayOnlyLookUp, RunsKeepLimits, StepsKeepOwned};
ghost use Rattle.portmap_core.specs.Laws.{TakenCreationsAreNew};
ghost use Rattle.portmap_core.specs.Laws.{WrittenIsWhole};
ghost use Rattle.portmap_core.specs.Laws.{AbsentNamesAreNotFound, EndsRetire, ListsAreExact, StopsRetire};
ghost use Rattle.portmap_core.specs.Laws.{IncompleteRequestsWait, LeaversAreRemembered, RestartsGetAnother};
ghost use Rattle.portmap_core.specs.Laws.{FreeNamesHaveRoom, FreeNamesRegister, NamesStay, RegisteredAreAlone};
ghost use Rattle.portmap_core.specs.Laws.{ListsAreReadBack, RegisteredAreFound, RegisteredAreListed};

/// Law: the first request of written bytes, whatever follows them, is the request that was written.
pub fn written_is_whole()
    ensures { WrittenIsWhole }
{}

/// Law: from a state, an entry leads to at most one state.
pub fn entries_determine()
    ensures { EntriesDetermine }
{}

/// Law: each transition keeps that every active name belongs to exactly one open connection, which holds it.
pub fn steps_keep_owned()
    ensures { StepsKeepOwned }
{}

/// Law: after any run, each active name belongs to exactly one open connection, and no slot owns two names.
pub fn names_belong_to_connections()
    ensures { NamesBelongToConnections }
{}

/// Law: a malformed request, by its length or its body, changes no name.
pub fn malformed_changes_no_name()
    ensures { MalformedChangesNoName }
{}

/// Law: a machine that has halted makes no transition.
pub fn ends_are_final()
    ensures { EndsAreFinal }
{}

/// Law: a connection that holds a name outlasts its timeout, which changes nothing.
pub fn holders_outlast_their_time()
    ensures { HoldersOutlastTheirTime }
{}

/// Law: unless its checks are relaxed, the port mapper ends only if no name is active.
pub fn ends_leave_no_name()
    ensures { EndsLeaveNoName }
{}

/// Law: after any run, known names and open connections are within their limits, and no waiting connection has sent a
/// complete request.
pub fn runs_keep_limits()
    ensures { RunsKeepLimits }
{}

/// Law: a name that becomes active gets another creation than the creation remembered for it.
pub fn taken_creations_are_new()
    ensures { TakenCreationsAreNew }
{}

/// Law: a lookup of an active name returns its whole registration. The list of names has a line for each active name
/// and no other, in order of registration. After any run, the list is read back as these names and nothing else.
pub fn active_names_are_shown()
    ensures found { ActiveNamesAreFound }
    ensures listed { ActiveNamesAreListed }
    ensures exact { ListsAreExact }
    ensures back { ListsAreReadBack }
{}

/// Law: a remote peer gets a reply only to PORT_PLEASE2 or NAMES.
pub fn remote_peers_may_only_look_up()
    ensures { RemotePeersMayOnlyLookUp }
{}

/// Law: a local registration is refused with result 1 if the name is active, and with result 2 if the name is not known
/// and as many names are active as may be known.
pub fn refusals_give_the_right_result()
    ensures taken { ActiveNamesAreTaken }
    ensures full { NewNamesWantRoom }
{}

/// Law: a local KILL ends the port mapper if no name is active or the checks are relaxed. Otherwise it is refused.
pub fn kills_end_where_they_may()
    ensures ends { KillsEnd }
    ensures refused { KillsAreRefused }
{}

/// Law: a local registration of a free name succeeds. Until its connection ends or a name is stopped, every lookup
/// finds the registration, every list has its line, and no other registration of the name succeeds.
pub fn registered_names_stay()
    ensures free { FreeNamesRegister }
    ensures stay { NamesStay }
    ensures found { RegisteredAreFound }
    ensures listed { RegisteredAreListed }
    ensures alone { RegisteredAreAlone }
{}

/// Law: if at most as many connections are open as names may be known, a local registration of a free name succeeds.
#[tactic(auto, using(crate::proofs::Registered::free_names_have_room))]
pub fn free_names_have_room()
    ensures { FreeNamesHaveRoom }
{}

/// Law: the end of a connection makes its name inactive and no other, and so does a STOP with relaxed checks. A name
/// that is not active is not found until it is registered.
pub fn names_that_left_are_not_found()
    ensures ends { EndsRetire }
    ensures stops { StopsRetire }
    ensures absent { AbsentNamesAreNotFound }
{}

/// Law: a chunk that completes no request is kept, and changes nothing else.
pub fn incomplete_requests_wait()
    ensures { IncompleteRequestsWait }
{}

/// Law: the creation of a name whose connection ends is remembered for it.
pub fn leavers_are_remembered()
    ensures { LeaversAreRemembered }
{}

/// Law: a name whose connection ends gets another creation when it returns, also after a run. The active names and the
/// registrations of the run must together be fewer than the names that may be known.
#[tactic(auto, using(crate::proofs::Leaving::restarts_get_another))]
pub fn restarts_get_another_creation()
    ensures { RestartsGetAnother }
{}
