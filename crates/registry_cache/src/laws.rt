//! Laws of the definitions that contracts cite. Each function does nothing: what it ensures holds
//! of the definitions themselves.

ghost use Rattle.registry_cache.specs.Laws.{NewKeepsNothing, AskedKeepsAll, ForgottenAlone, PutIsKept, PutKeepsRight, RoomKeepsRight};
ghost use Rattle.registry_cache.specs.Laws.{NewKeepsOnce, AskedKeepsOnce, ForgottenKeepsOnce, PutKeepsOnce, RoomKeepsOnce};
ghost use Rattle.registry_cache.specs.Laws.{LargeLeavesOthers, OthersLeaveLarge, PrefixesAreLongest, AllStay};

/// What a cache keeps under each name after each call.
pub fn caches_keep_what_was_put()
    ensures none { NewKeepsNothing }
    ensures asked { AskedKeepsAll }
    ensures forgotten { ForgottenAlone }
    ensures put { PutIsKept }
    ensures right { PutKeepsRight }
    ensures room { RoomKeepsRight }
{}

/// No name is kept twice, as one of the others and as the large one.
pub fn names_are_kept_once()
    ensures none { NewKeepsOnce }
    ensures asked { AskedKeepsOnce }
    ensures forgotten { ForgottenKeepsOnce }
    ensures put { PutKeepsOnce }
    ensures room { RoomKeepsOnce }
{}

/// A text that alone has more bytes than the limit and the others leave each other alone.
pub fn large_texts_are_kept_apart()
    ensures others { LargeLeavesOthers }
    ensures large { OthersLeaveLarge }
{}

/// What stays where there isn't room for all is the longest prefix that has room.
pub fn the_least_lately_asked_go()
    ensures longest { PrefixesAreLongest }
    ensures all { AllStay }
{}
