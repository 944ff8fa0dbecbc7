//! Laws of connections. Each is the contract of a function that does nothing.

ghost use Rattle.registry_server.specs.Phases.{BytesGive, EnteredEndsInTime, NeverGiveMore, NewPhasesEndInTime, PaidEndsInTime, ResponseTimePasses, StagesGiveNone, WaitedEndsInTime, WaitsGiveNone};
ghost use Rattle.registry_server.specs.Groups.{AddsLeaveWithin, EmptyGroupsAreWithin, GroupsHoldLittle};
ghost use Rattle.registry_server.specs.Pools.{AllHoldLittle, AllIdleEndsLeaveFew, AllIdleEndsLeaveLittle, AllIdleEndsLeaveRest, EndsLeaveFew, EndsLeaveLittle, EndsLeaveRest, FinishesLeaveFew, FinishesLeaveLittle, FinishesLeaveRest, HoldsAskQueries, HoldsKeepCommands, IdleEndsLeaveFew, IdleEndsLeaveLittle, IdleEndsLeaveRest, NewConnectionsLeaveFew, NewConnectionsLeaveLittle, NewConnectionsLeaveRest, NewPoolHoldsLittle, NewPoolReadsFew, NewPoolRests, NewcomersEndIdle, NewcomersLeaveBusy, QueriesAreAnswers, RoundsHoldLittleMore, RoundsLeaveLittle, RoundsReadFew, ServersHoldLittle, StopsEndIdle, StopsLeaveUnderWay, UnreadHoldLittle, VisitsLeaveRest, WakesLeaveFew, WakesLeaveLittle, WakesLeaveRest, WantOfRoomEndsIdle, WhoWaitsHasBegun};
ghost use Rattle.registry_server.specs.Rounds.{RoundsAskInTurns};
ghost use Rattle.registry_service.specs.Turns.{spoken};
ghost use Rattle.registry_server.specs.Worlds.{Begins, Comes, Finishes, Lasts, Sends, Shuts, Starves, TakesTurns, VisitsLead};

use crate::guests::Guests;
use crate::socket::Socket;
use registry_service::HttpService;

/// Connections that take turns with one service make one history. Each state shows a connection,
/// even where its next request is the last because the server is to end (`lasts`): what calls make
/// of it, on any connection and in any order, happens among the connections that `one_history` of
/// `registry_service` speaks of. So there is one list of turns, and the service is what they leave.
/// A turn that is taken is added to it (`turns`), and its request is asked at the moment that the
/// clock gives. Nothing else adds a turn.
pub fn connections_make_one_history<D: HttpService>()
    ensures begins { Begins (spoken D.speaks D.answers) }
    ensures comes { Comes (spoken D.speaks D.answers) }
    ensures shuts { Shuts (spoken D.speaks D.answers) }
    ensures turns { TakesTurns (spoken D.speaks D.answers) }
    ensures starves { Starves (spoken D.speaks D.answers) }
    ensures sends { Sends (spoken D.speaks D.answers) }
    ensures lasts { Lasts D }
{}

/// Visits of open connections make one history. In it each connection is the one of its socket:
/// everything that was received from the socket came on it, in this order, and more only after it
/// has ended; and what the socket took to send is what was sent on it. So no byte of a connection
/// is of another connection's socket, no byte is lost, and no byte is there twice. It stays that
/// connection where its next request is its last (`finishes`). A visit adds the turn that is taken
/// in it, if one is, at the moment that the clock gives in that visit.
pub fn visits_make_one_history<S: Socket, D: HttpService>()
    ensures visits { VisitsLead S.received S.sent (spoken D.speaks D.answers) }
    ensures finishes { Finishes D S.received S.sent }
{}

/// The responses of a connection have one time together. It passes while a response is being sent.
/// No other stage and no waiting gives more of it. What is taken gives one more millisecond for
/// each 16 bytes, and the time is never more than at first.
pub fn responses_have_one_time()
    ensures passes { ResponseTimePasses }
    ensures stages { StagesGiveNone }
    ensures waits { WaitsGiveNone }
    ensures bytes { BytesGive }
    ensures most { NeverGiveMore }
{}

/// A request that is under way has time only until it is 370 s old, however often it waits: this
/// holds where nothing is begun, and each call of `Phase` keeps it so. Bytes of a response are
/// taken only while one is being sent.
pub fn requests_end_in_time()
    ensures begins { NewPhasesEndInTime }
    ensures enters { EnteredEndsInTime }
    ensures waits { WaitedEndsInTime }
    ensures pays { PaidEndsInTime }
{}

/// No new connection ends one that is to be visited. Each connection that isn't to be visited
/// rests: when its socket was last asked, it took nothing of a response, or gave nothing where no
/// response was due. This holds in a new pool, and new connections, wakes, ends and visits keep it
/// so. And a new connection takes the place of another only where nothing is begun on that and its
/// socket gave nothing (`ended`). The same holds where a connection ends because the system has no
/// descriptor left (`lacks`), or because the server is about to end (`stops`). Then each connection
/// that is left is under way: something is begun on it, or it is to be visited (`left`).
pub fn newcomers_end_idle_connections<S: Socket, D: HttpService>()
    ensures begins { NewPoolRests S.has_none S.is_full }
    ensures comes { NewConnectionsLeaveRest S.has_none S.is_full }
    ensures wakes { WakesLeaveRest S.has_none S.is_full }
    ensures late { EndsLeaveRest S.has_none S.is_full }
    ensures room { IdleEndsLeaveRest S.has_none S.is_full }
    ensures idle { AllIdleEndsLeaveRest S.has_none S.is_full }
    ensures finishes { FinishesLeaveRest S.has_none S.is_full }
    ensures visits { VisitsLeaveRest S.received S.sent S.has_none S.is_full S.has_more S.is_ended S.is_broken (spoken D.speaks D.answers) D.over }
    ensures ended { NewcomersEndIdle S.has_none S.is_full }
    ensures lacks { WantOfRoomEndsIdle S.has_none S.is_full }
    ensures stops { StopsEndIdle S.has_none S.is_full }
    ensures left { StopsLeaveUnderWay S }
{}

/// A crowd holds little more after a round than before it: each connection holds at most as many
/// more bytes as one read gives, and no more where it is held back. It is held back only where it
/// has begun a request that isn't whole. At most 16 bodies are chosen: this holds in a new pool,
/// and new connections, wakes, ends and rounds keep it so.
pub fn a_crowd_holds_little_more<S: Socket, D: HttpService>()
    ensures begins { NewPoolReadsFew S }
    ensures comes { NewConnectionsLeaveFew S }
    ensures wakes { WakesLeaveFew S }
    ensures late { EndsLeaveFew S }
    ensures room { IdleEndsLeaveFew S }
    ensures idle { AllIdleEndsLeaveFew S }
    ensures finishes { FinishesLeaveFew S }
    ensures rounds { RoundsReadFew S.received S.sent S.has_none S.is_full S.has_more S.is_ended S.is_broken (spoken D.speaks D.answers) D.over }
    ensures few { RoundsHoldLittleMore S.received S.sent S.has_none S.is_full S.has_more S.is_ended S.is_broken (spoken D.speaks D.answers) D.over }
    ensures waits { WhoWaitsHasBegun S }
{}

/// All connections together hold little, after any number of rounds with one buffer: as many bytes
/// as make a crowd; two reads and the bytes of a head for each place; and one request and one read
/// for each of 16 bodies. What is kept (`HoldLittle`) holds in a new pool, and new connections,
/// wakes, ends and rounds keep it so. From it follows how much the connections hold whose bodies
/// aren't chosen (`unread`), how much all of them hold (`all`), and how much that is with reads of
/// 16,384 bytes, as a server's have (`servers`): 159,907,840 bytes.
pub fn connections_hold_little<S: Socket, D: HttpService>()
    ensures begins { NewPoolHoldsLittle S }
    ensures comes { NewConnectionsLeaveLittle S }
    ensures wakes { WakesLeaveLittle S }
    ensures late { EndsLeaveLittle S }
    ensures room { IdleEndsLeaveLittle S }
    ensures idle { AllIdleEndsLeaveLittle S }
    ensures finishes { FinishesLeaveLittle S }
    ensures rounds { RoundsLeaveLittle S.received S.sent S.has_none S.is_full S.has_more S.is_ended S.is_broken (spoken D.speaks D.answers) D.over }
    ensures unread { UnreadHoldLittle S }
    ensures all { AllHoldLittle S }
    ensures servers { ServersHoldLittle S }
{}

/// Commands that are answered together take little: the bytes that they take and the room that is left
/// make 1,048,576. This holds of an empty group, and each command that is added keeps it so. So they
/// take at most as many together (`most`).
pub fn groups_hold_little()
    ensures begins { EmptyGroupsAreWithin }
    ensures adds { AddsLeaveWithin }
    ensures most { GroupsHoldLittle }
{}

/// While a server is held, its service is asked only queries, however many rounds that takes
/// (`queried`): it is what these queries leave, except for what it has looked up since. The other laws
/// of rounds hold of these rounds too (`rounds`).
pub fn held_servers_ask_queries<S: Socket, D: HttpService>()
    ensures queried { HoldsAskQueries S.received S.sent S.has_none S.is_full S.has_more S.is_ended S.is_broken D.speaks D.answers D.over }
    ensures rounds { QueriesAreAnswers S.received S.sent S.has_none S.is_full S.has_more S.is_ended S.is_broken D.speaks D.answers D.over }
{}

/// Over a whole hold, however many rounds it takes and whoever comes in meanwhile, no waiting command
/// is lost: each connection on which a request is under way that may be a command stays at its place as
/// it is, with all that was received (`waits`). Who comes in takes the place of nobody on whose
/// connection something is begun, or who is to be visited (`comes`).
pub fn held_servers_keep_commands<S: Socket, D: HttpService>()
    ensures waits { HoldsKeepCommands S.received S.sent S.has_none S.is_full S.has_more S.is_ended S.is_broken D.speaks D.answers D.over }
    ensures comes { NewcomersLeaveBusy S }
{}

/// All that a server asks of its service, from its beginning to its end (`asks` of `Server::run_beside`),
/// it asks in turns of connections and in visits of guests, each at what all earlier ones left. In
/// between the service may only look something up.
pub fn servers_ask_in_turns<S: Socket, D: HttpService, G: Guests>()
    ensures { RoundsAskInTurns S.received S.sent S.has_none S.is_full S.has_more S.is_ended S.is_broken D.speaks D.answers D.over (G.visits D.answers D.over) }
{}
