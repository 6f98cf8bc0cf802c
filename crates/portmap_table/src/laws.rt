ghost use Rattle.portmap_table.specs.Laws.{ActiveNamesStay, KnownNamesCostNone, LastCreationsAreRemembered};
ghost use Rattle.portmap_table.specs.Laws.{NamesOutliveConnections, NoneIsRefusedForRetiredNames, OldestMakesRoom};
ghost use Rattle.portmap_table.specs.Laws.{OthersStayAtRegistration, OthersStayAtRetirement, RegisteredNamesAreActive};
ghost use Rattle.portmap_table.specs.Laws.{RegisteredNamesStandLast, RetiredNamesStandLast, RetiredNamesStay};
ghost use Rattle.portmap_table.specs.Laws.{ReturningNamesGetAnother, RoomCostsNone};

/// Law: a registered name is active. Once its slot retires, the name is inactive, and its port and creation are
/// remembered.
pub fn names_outlive_connections()
    ensures registered { RegisteredNamesAreActive }
    ensures retired { NamesOutliveConnections }
{}

/// Law: once there is room, neither a registration nor a retirement changes what is known of other names.
pub fn other_names_stay()
    ensures registered { OthersStayAtRegistration }
    ensures retired { OthersStayAtRetirement }
{}

/// Law: a registered name is the last active name, and a name that retires is the last retired name.
#[tactic(auto, using(crate::proofs::NameLaws::retired_names_stand_last, crate::proofs::NameLaws::retired_names_stay))]
pub fn newest_names_stand_last()
    ensures registered { RegisteredNamesStandLast }
    ensures retired { RetiredNamesStandLast }
    ensures stay { RetiredNamesStay }
{}

/// Law: a new name at the limit costs the name that was retired longest ago. In all other cases no name is forgotten,
/// and an active name never is.
#[tactic(auto, using(crate::proofs::NameLaws::forgetting))]
pub fn oldest_names_are_forgotten()
    ensures active { ActiveNamesStay }
    ensures known { KnownNamesCostNone }
    ensures few { RoomCostsNone }
    ensures oldest { OldestMakesRoom }
{}

/// Law: a name is refused for lack of room only if no name is retired.
#[tactic(auto, using(crate::proofs::NameLaws::none_is_refused_for_retired_names))]
pub fn none_is_refused_for_retired_names()
    ensures { NoneIsRefusedForRetiredNames }
{}

/// Law: the port and the last creation of a retired name are remembered. A name that returns gets another creation.
pub fn returning_names_get_another_creation()
    ensures remembered { LastCreationsAreRemembered }
    ensures another { ReturningNamesGetAnother }
{}
