//! Laws of a registry that answers connections and the commands beside them. Each is the contract of
//! a function that does nothing.

ghost use Rattle.registry_http.specs.Services.{shown};
ghost use Rattle.registry_service.specs.Dialects.{IsDetermined};
ghost use Rattle.registry_service.specs.Turns.{profile};
ghost use Rattle.registry_laws_beside.specs.Beside.{LogRunsBeside, TurnsRunBeside};
ghost use Rattle.registry_laws_beside.specs.Lives.{ServersLiveOneLife, ServersTakeTurns, with_commands};
ghost use Rattle.registry_laws_beside.specs.Held.{HoldsLeaveStored, QueriesLeaveStored};
ghost use Rattle.registry_laws_beside.specs.Unseen.{CommandsPrintTheSame, ConnectionsAreAnsweredTheSame, WorldsAreSuch};

use registry_guests::CommandListener;
use registry_server::{Guests, Socket};
use registry_service::HttpService;
use sqlite::Alter;

/// The turns of connections and of commands, each taken at what all older ones left, are one run of
/// the registry: of the requests that were asked in them, in their order, with the outcomes that
/// were answered. So everything that is said of requests in turn holds of them (`HasRun`): each outcome
/// is the machine's answer on what the earlier ones left, no reply is lost in a crash, and where
/// nothing was asked of the registry before, the headline holds.
///
/// Take connections whose service lets commands take turns before a request, and the commands after
/// the last of these turns. Together they are such turns: all those of the connections in their
/// order, all those of the commands in theirs, and no others. `D` may be any service over HTTP,
/// whatever its requests ask.
pub fn turns_beside_guests_are_one_run<S: Alter, D: HttpService>()
    ensures turns { TurnsRunBeside D.speaks (shown S.Store) }
    ensures all { LogRunsBeside D.speaks (shown S.Store) }
{}

/// All that a server asks of its service, from its beginning to its end (`asks` of
/// `Server::run_beside`), it asks in the turns of its connections and of the commands beside them: those
/// of the visits of its rounds, and no others, in their order. Each turn is taken at what all older
/// ones left. Whatever the service may answer at the end, it might have answered where the last turn
/// left it.
pub fn servers_take_turns<C: Socket, D: HttpService>()
    ensures { ServersTakeTurns C.received C.sent C.has_none C.is_full C.has_more C.is_ended C.is_broken D.speaks D.answers D.over
        (⟦<CommandListener as Guests>⟧.visits D.answers D.over) (with_commands D.answers D.over) }
{}

/// The whole life of a server is one run of its registry: these turns, from the server's beginning to
/// its end, are one run of the registry that the service shows, of the requests that were asked in
/// them, in their order. `D` may be any service over HTTP of which some part shows a registry: it
/// answers what this registry answers.
pub fn servers_live_one_life<C: Socket, S: Alter, D: HttpService>()
    ensures { ServersLiveOneLife C.received C.sent C.has_none C.is_full C.has_more C.is_ended C.is_broken D.speaks D.answers D.over
        (⟦<CommandListener as Guests>⟧.visits D.answers D.over) (with_commands D.answers D.over) (shown S.Store) }
{}

/// What is asked about a package, on connections and by commands beside them, changes no byte of
/// what strangers to it are told. Take two registries whose servers answer commands too. They were
/// left by legal histories that are one list once the entries that name the package are dropped. In
/// each world, turns may be taken that aren't in the other: for requests to change the package, for
/// requests that change nothing, and for nothing. All other turns are taken in both worlds, in one
/// order, each for the same.
///
/// Then a connection is answered the same in both worlds, byte for byte (`connections`), if none of
/// its turns is in only one world, and if its requests are of callers who have no level on the
/// package at that point of either world, show the package in both worlds or in neither, and meet
/// no fault. A command of such a caller prints the same in both worlds (`commands`), if its request
/// is like that. This holds as long as the package, whoever asks, keeps no withdrawal from being
/// done in only one of the worlds, and as long as no fault in one world keeps a request undone that
/// doesn't name the package and that the other world accepts. Each world of a server beside
/// commands, whose registry is in order, is one that this law speaks of (`worlds`). `D` may be any
/// service over HTTP, and for `services` one whose answers are determined by what it asked.
pub fn unread_packages_change_nothing_that_is_told<S: Alter, D: HttpService>()
    ensures worlds { WorldsAreSuch D.speaks (shown S.Store) }
    ensures connections { ConnectionsAreAnsweredTheSame profile (shown S.Store) }
    ensures services { IsDetermined D.speaks → ConnectionsAreAnsweredTheSame D.speaks (shown S.Store) }
    ensures commands { CommandsPrintTheSame D.speaks (shown S.Store) }
{}

/// While its server is held, a registry keeps what it stores. After any number of queries an open
/// registry holds what it held before them (`queries`). During a hold it is asked only queries
/// (`held_servers_ask_queries` of `registry_server`). So the first request after a hold is answered by
/// a registry that holds what it held before (`holds`).
pub fn held_servers_leave_what_is_stored<S: Alter>()
    ensures queries { QueriesLeaveStored (shown S.Store) }
    ensures holds { HoldsLeaveStored (shown S.Store) }
{}
