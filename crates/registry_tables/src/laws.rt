//! Laws of what is stored. Each function does nothing: what it ensures holds of the definitions
//! themselves.

ghost use Rattle.registry_tables.specs.Archives.{HoldsArchives};
ghost use Rattle.registry_tables.specs.Fresh.{fresh};
ghost use Rattle.registry_tables.specs.Laws.{ChangesKeepCounters, ChangesKeepHeld, ChangesMakeOperations, FormsHaveHeld, ListsMakeOperations};
ghost use Rattle.registry_tables.specs.Laws.{ArchivesStaySound, DeprecationsKeepArchives, OthersKeepArchives, VersionsKeepArchives, WithdrawalsKeepArchives};
ghost use Rattle.registry_tables.specs.Laws.{DeprecationsKeepNeeds, OthersKeepNeeds, VersionsKeepNeeds, WithdrawalsKeepNeeds};
ghost use Rattle.registry_tables.specs.Laws.{MakingIsUnderstood, NoneTellsOfNothing, NumbersTellOfTables, UsersAloneStopMaking, UsersAloneTellNoNumber};
ghost use Rattle.registry_tables.specs.Laws.{NoScopeGrantsNothing, ScopesGrantAll, TeamsStaySound};
ghost use Rattle.registry_tables.specs.Needs.{HoldsNeeds};
ghost use Rattle.registry_tables.specs.Ranges.{ChangesKeepRanges, HasNumbersInRange, ListsKeepRanges, NumbersAreReadBack};

use sqlite::Alter;

/// A change of what is stored makes one operation of the registry's state, where each version that
/// has an archive has one that is stored. Tables in form have that, and each change keeps it. Each
/// keeps the rows of `sqlite_sequence`, too, except the count of archives.
pub fn changes_make_operations<S: Alter>()
    ensures one { ChangesMakeOperations }
    ensures all { ListsMakeOperations }
    ensures kept { ChangesKeepHeld }
    ensures in_form { FormsHaveHeld S.Store }
    ensures counters { ChangesKeepCounters }
{}

/// The archives that are stored are those of live versions, each once, with the integrity of their
/// bytes, and no row of a version has bytes: there are none at first, what leaves the three tables
/// alone keeps it so, and so does a form's version, where it didn't live and the form has its
/// archive's integrity, as each form has. A withdrawal keeps it so, too, and a deprecation.
///
/// For the archives themselves: where each has the integrity of its bytes and no bytes occur twice,
/// that stays so where one is stored with the integrity of its bytes
/// ([`store_archive`](crate::store_archive)).
pub fn archives_are_kept()
    ensures fresh { HoldsArchives fresh }
    ensures stored { ArchivesStaySound }
    ensures others { OthersKeepArchives }
    ensures versions { VersionsKeepArchives }
    ensures withdrawals { WithdrawalsKeepArchives }
    ensures deprecations { DeprecationsKeepArchives }
{}

/// The needs that are stored are exactly those that live manifests name: there are none at first,
/// what leaves the live versions and the needs alone keeps it so, and so does a form's version,
/// where it didn't live and the form has its manifest's needs, as each form has. A withdrawal keeps
/// it so, too, and a deprecation.
pub fn needs_are_kept()
    ensures fresh { HoldsNeeds fresh }
    ensures others { OthersKeepNeeds }
    ensures versions { VersionsKeepNeeds }
    ensures withdrawals { WithdrawalsKeepNeeds }
    ensures deprecations { DeprecationsKeepNeeds }
{}

/// The numbers that are stored are in range: there are none at first, and each change keeps it so,
/// where its moments are ones that the registry has, as those of each change are
/// ([`make`](crate::make)). A number that is written is read as what it stands for.
pub fn numbers_stay_in_range()
    ensures fresh { HasNumbersInRange fresh }
    ensures one { ChangesKeepRanges }
    ensures all { ListsKeepRanges }
    ensures read_back { NumbersAreReadBack }
{}

/// Whatever a database holds, the answer is that it has no tables only where it has nothing, and is
/// a number only where it has something and its schema has a meaning for the query of that number.
/// So the answer is never a number for a database with the table `users` alone.
pub fn answers_tell_what_is_there<S: Alter>()
    ensures none { NoneTellsOfNothing S.Store }
    ensures some { NumbersTellOfTables S.Store }
    ensures users { UsersAloneTellNoNumber S.Store }
{}

/// Whatever a database holds, the tables are made in it only where its schema has a meaning for
/// the first of the texts that make them: never where the table `users` is there.
pub fn tables_are_made_once<S: Alter>()
    ensures understood { MakingIsUnderstood S.Store }
    ensures users { UsersAloneStopMaking S.Store }
{}

/// Where each grant is on a package of its organisation's scope, the teams of that organisation
/// have all that a user is granted on the package. Where it has no scope they are granted nothing.
pub fn grants_stay_in_scope()
    ensures scoped { ScopesGrantAll }
    ensures unscoped { NoScopeGrantsNothing }
{}

/// Where references hold, a team has only members of its organisation, and only grants on packages
/// of its scope.
pub fn teams_are_within_their_organisation()
    ensures { TeamsStaySound }
{}
