//! Laws of what ranges allow. Each function does nothing: what it ensures holds of the definitions
//! themselves, and its proof is the law's.

ghost use Rattle.std.specs.Prelude.{codes, []};
ghost use Rattle.std.specs.Ordering.{is_eq, is_lt, is_le, is_gt, is_ge};
ghost use Rattle.registry_ranges.specs.Laws.{OfPartials, OfTwo, AllowsCompared, AllowsCaret, AllowsTilde, AllowsHyphened};
ghost use Rattle.registry_ranges.specs.Laws.{IsOpenAbove, IsOpenBelow, IsBetween, AllowsItself, AllowsReleases, WildcardsAllowReleases, AllowsNothing};
ghost use Rattle.registry_ranges.specs.Laws.{BarsAreUnions, EndsAreSpaced, OfSpaced, ReleasesMeet, PrereleasesMeet, PrereleasesAreNamed, SelectorsAgree};
ghost use Rattle.registry_ranges.specs.Texts.{TextsAreRead};

/// A partial version, alone or after an operator, allows a version by how the version compares
/// with the numbers that it says; of prereleases it allows only those that it names.
pub fn operators_compare()
    ensures alone { OfPartials (AllowsCompared [] is_eq) }
    ensures equal { OfPartials (AllowsCompared (codes "=") is_eq) }
    ensures less { OfPartials (AllowsCompared (codes "<") is_lt) }
    ensures less_or_equal { OfPartials (AllowsCompared (codes "<=") is_le) }
    ensures greater { OfPartials (AllowsCompared (codes ">") is_gt) }
    ensures greater_or_equal { OfPartials (AllowsCompared (codes ">=") is_ge) }
{}

/// `^A` and `~A` allow versions from A on, with zeros for what A leaves out. `^A` keeps A's
/// numbers up to the leftmost one that isn't zero, and `~A` its major and its minor number. `~>`
/// is `~`.
pub fn carets_and_tildes_keep_numbers()
    ensures caret { OfPartials AllowsCaret }
    ensures tilde { OfPartials (AllowsTilde (codes "~")) }
    ensures tilde_greater { OfPartials (AllowsTilde (codes "~>")) }
{}

/// `A - B` allows versions from A on, up to those that begin with B. A wildcard leaves its end
/// open.
pub fn hyphens_have_two_ends()
    ensures ends { OfTwo AllowsHyphened }
    ensures above { IsOpenAbove }
    ensures below { IsOpenBelow }
    ensures between { IsBetween }
{}

/// Three numbers allow only their own version.
pub fn versions_allow_themselves()
    ensures { AllowsItself }
{}

/// A wildcard and the empty text allow every release and no prerelease, and no version is above
/// or below all others.
pub fn wildcards_allow_releases()
    ensures wildcards { WildcardsAllowReleases }
    ensures empty { AllowsReleases [] }
    ensures above { AllowsNothing (codes ">") }
    ensures below { AllowsNothing (codes "<") }
{}

/// `||` is the union of ranges, and a space the intersection of simples, except for prereleases:
/// one that both sides allow is allowed, and one that is allowed is allowed by a side. Spaces at
/// the ends of a range say nothing.
pub fn bars_and_spaces_combine()
    ensures bars { BarsAreUnions }
    ensures releases { OfSpaced ReleasesMeet }
    ensures prereleases { OfSpaced PrereleasesMeet }
    ensures spaces { EndsAreSpaced }
{}

/// What a text says as a range is a function of the text, which gives exactly what the grammar
/// does.
pub fn texts_are_read()
    ensures { TextsAreRead }
{}

/// A prerelease is allowed only where some partial version of the range has a prerelease and the
/// same three numbers.
pub fn prereleases_are_named()
    ensures { PrereleasesAreNamed }
{}

/// Of releases, a selector selects what the same text allows as a range.
pub fn selectors_agree_with_ranges()
    ensures { SelectorsAgree }
{}
