//! Laws of the definitions that contracts cite. Each function does nothing: what it ensures holds
//! of the definitions themselves, and its proof is the law's.

ghost use Rattle.std.specs.Cmp.{IsTotalOrder};
ghost use Rattle.registry_names.specs.Texts.{text_cmp, is};
ghost use Rattle.registry_names.specs.Keys.{IsKey, pair_cmp, pair_is, triple_cmp, triple_is};
ghost use Rattle.registry_names.specs.Precedence.{text_precedence};
ghost use Rattle.registry_names.specs.Versions.{precedence};
ghost use Rattle.registry_names.specs.Laws.{UnderKeys, EmptyAnswers, PutAnswers, EraseAnswers, KeepAnswers, ReviseAnswers, AnswersTell};
ghost use Rattle.registry_names.specs.Laws.{RowsAnswer, RowsPush, RowsKeep, RowsRevise, EntriesAnswer, EntriesRise, EntriesTold};
ghost use Rattle.registry_names.specs.Laws.{PartAnswers, PartMembers, PartRises, PartTold};
ghost use Rattle.registry_names.specs.Laws.{VersionsBelow, ReleaseAbove, VersionsTie, SameVersions};
ghost use Rattle.registry_names.specs.Laws.{PrecedenceTells, PrecedenceOfVersions, VersionsAreRead, OthersBelow, GreatestIs, GreatestStands, GreatestOfMembers};
ghost use Rattle.registry_names.specs.Spellings.{IsReadBack, status_named, status_text};

/// One, two and three texts are keys: their orders are total and tie only equal keys.
pub fn texts_are_keys()
    ensures one { IsKey text_cmp is }
    ensures two { IsKey pair_cmp pair_is }
    ensures three { IsKey triple_cmp triple_is }
{}

/// A map has at each key what its changes say, and is determined by what it has.
pub fn maps_answer<K, X>()
    ensures empty { UnderKeys K (EmptyAnswers X) }
    ensures put { UnderKeys K (PutAnswers X) }
    ensures erase { UnderKeys K (EraseAnswers X) }
    ensures keep { UnderKeys K (KeepAnswers X) }
    ensures revise { UnderKeys K (ReviseAnswers X) }
    ensures same { UnderKeys K (AnswersTell X) }
{}

/// A change of the rows of a table is the change of the map that they give, and the entries of a
/// map are its rows in the order of their keys.
pub fn rows_give_maps<K, X>()
    ensures rows { UnderKeys K (RowsAnswer X) }
    ensures push { UnderKeys K (RowsPush X) }
    ensures keep { UnderKeys K (RowsKeep X) }
    ensures revise { UnderKeys K (RowsRevise X) }
    ensures entries { UnderKeys K (EntriesAnswer X) }
    ensures rise { UnderKeys K (EntriesRise X) }
    ensures told { UnderKeys K (EntriesTold X) }
{}

/// The part of a map under a first text has what the map has there, in the order of the rests.
pub fn parts_answer<R, X>()
    ensures part { UnderKeys R (PartAnswers X) }
    ensures members { UnderKeys R (PartMembers X) }
    ensures rise { UnderKeys R (PartRises X) }
    ensures told { UnderKeys R (PartTold X) }
{}

/// Precedence is a total order of versions, by their numbers in turn and then by the prerelease. A
/// release is above its prereleases, and no two versions tie.
pub fn versions_are_ordered()
    ensures total { IsTotalOrder precedence }
    ensures below { VersionsBelow }
    ensures release { ReleaseAbove }
    ensures ties { VersionsTie }
    ensures same { SameVersions }
{}

/// Precedence is a total order of all texts, by SemVer where they are versions. Each version is
/// read to its own parts. The greatest of a list is the member that none of the others has
/// precedence over.
pub fn precedence_orders_texts()
    ensures total { IsTotalOrder text_precedence }
    ensures exact { PrecedenceTells }
    ensures read { VersionsAreRead }
    ensures versions { PrecedenceOfVersions }
    ensures others { OthersBelow }
    ensures greatest { GreatestIs }
    ensures stands { GreatestStands }
    ensures members { GreatestOfMembers }
{}

/// The text of a status is read as that status, and no other text is.
pub fn statuses_are_read_back()
    ensures { IsReadBack status_text status_named }
{}
