//! Laws of turns. Each is the contract of a function that does nothing.

ghost use Rattle.registry_service.specs.Histories.{IsOneHistory, Reached, World};
ghost use Rattle.registry_service.specs.Laws.{LookUpsAreUnseen, NotModifiedIsHonest, TakenOfAll, TurnsAreSpelled};
ghost use Rattle.registry_service.specs.Turns.{profile, spoken};

use crate::turning::{HttpService, Service};

/// Whatever comes, on whichever connection, in whatever pieces, and whoever's turn it is, there is
/// one list of turns such that the service is what they leave, each taken at what all older ones
/// left. The turns of each connection are the first that its bytes spell. The rest is still held,
/// or, after the end of the connection, dropped. Its answers are those of its turns, and what was
/// sent is a prefix of them.
pub fn one_history<D: HttpService>()
    ensures { (M : D) (w : World D) → Reached (spoken D.speaks D.answers) M w
        → IsOneHistory (spoken D.speaks D.answers) M w }
{}

/// The whole requests that the turns of a connection were taken for are the first that its bytes
/// spell, in their order. All the bytes of a connection have one reading, so there are no others.
pub fn turns_are_spelled()
    ensures { TurnsAreSpelled }
{}

/// For a reader whose bytes are known, the turns of a connection were taken of everything that was
/// held or left, and what follows them is still held or left.
pub fn turns_are_taken_of_all<D: Service>()
    ensures { TakenOfAll (spoken profile D.answers) }
{}

/// Whatever a service looks up between two turns, nobody can tell by what is answered: each turn after
/// it might have been taken without it. So turns with look-ups between them are turns without any.
pub fn look_ups_are_unseen<D: HttpService>()
    ensures { LookUpsAreUnseen D.speaks D.answers }
{}

/// Whatever a service says to those who keep documents, its answer is a 304 exactly where the request
/// is a GET, and it would be a 200 with a tag that the request names by its field `if-none-match` (RFC
/// 9110, 13.1.2). A 304 sends nothing of the document; any other answer is that of the outcome, whole.
/// Both have the labels that the service's dialect gives the document. No refusal and no fault has a
/// tag, and neither says how long it may be kept.
pub fn not_modified_is_honest<D: HttpService>()
    ensures { NotModifiedIsHonest D.speaks D.answers }
{}
