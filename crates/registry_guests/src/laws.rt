//! Laws of guests. Each is the contract of a function that does nothing.

ghost use Rattle.std.specs.Prelude.{ℕ};
ghost use Rattle.registry_guests.specs.Beside.{AnswersOnce, GuestsFollow, GuestsGoOn, MakeOneHistory, VisitsFollow, beside_guests};
ghost use Rattle.registry_guests.specs.Controls.{HoldersAskFirst, HoldersHaveAsked, StopsStay};
ghost use Rattle.registry_guests.specs.GuestPools.{IsWithinAt, StayWithin, new_at};
ghost use Rattle.registry_guests.specs.Notes.{FirstTokensAreUnseen, LastTokensAreUnseen};
ghost use Rattle.registry_server.specs.Worlds.{VisitsLead};

use registry_server::Socket;
use registry_service::{HttpService, Service};

/// A guest is answered once. Before it is, all that was received of it is held, and nothing was
/// sent to it but that the server is ready. Where its turn is taken it is still there, and its
/// message is all that was received of it: the turn of one that has gone before is never taken.
/// From then on what was sent to it, and what isn't yet, is that one answer. No other visit of it
/// asks the service or the clock.
pub fn guests_are_answered_once<S: Socket, D: Service>()
    ensures { AnswersOnce S.received S.sent D.answers S.has_none }
{}

/// No more is held of a guest than a message may have: nothing is held of a new guest, and visits
/// keep to the limit.
pub fn guests_hold_little<S: Socket, D: Service>()
    ensures first { (now : ℕ) (socket : S) → IsWithinAt (new_at now socket) }
    ensures stay { StayWithin S.received S.sent S.has_none S.is_full S.is_ended S.is_broken D.answers D.over }
{}

/// Connections and guests have one history. A connection's visit at what guests left is one of a
/// service that lets guests take turns before a request of HTTP, and not between two requests that it
/// asks; by such visits each connection's world is reached; and in it there is one list of turns such that the service is what they leave, each
/// taken at what all older ones and the guests' turns before it left. The turns of guests are kept
/// beside the service, and are those that guests are answered by: a visit of a guest adds the turn
/// that is taken in it, if one is, at the moment that the clock gives in it, and nothing else adds a
/// turn.
pub fn guests_share_one_history<S: Socket, D: HttpService>()
    ensures guests { GuestsGoOn D.answers }
    ensures answered { GuestsFollow S.received S.sent D.answers S.has_none }
    ensures follows { VisitsFollow S.received S.sent D.speaks D.answers }
    ensures leads { VisitsLead S.received S.sent (beside_guests D.speaks D.answers) }
    ensures one { MakeOneHistory D.speaks D.answers }
{}

/// Whoever holds a server, whatever has happened before, asked to by its first byte, and was told
/// so by the first byte that was sent to it. In the visit in which it begins to hold the server, it
/// asks, is told so, and the server isn't about to end. A server that is about to end still is
/// after a visit.
pub fn holders_have_asked<S: Socket>()
    ensures first { HoldersAskFirst S.received S.sent S.has_none S.is_ended S.is_broken }
    ensures asked { HoldersHaveAsked S.received S.sent S.has_none S.is_ended S.is_broken }
    ensures stay { StopsStay S.received S.sent S.has_none S.is_ended S.is_broken }
{}

/// What a service is told of a command about tokens, such as `token-add`, is the same for every token,
/// whether it comes after a user or in a user's place.
pub fn tokens_of_commands_are_unseen()
    ensures last { LastTokensAreUnseen }
    ensures first { FirstTokensAreUnseen }
{}
