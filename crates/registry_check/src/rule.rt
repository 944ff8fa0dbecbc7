//! The rules that everything stored keeps.

ghost use Rattle.std.specs.Prelude.{◌≡◌, Some};
ghost use Rattle.registry_check.specs.Words.{rule_text};

use std::fmt;

/// What holds for each row of a kind, in a registry that only requests have written.
#[derive(Clone, Copy, Debug, PartialEq, Eq)]
pub enum Rule {
    /// The user that it names is there.
    HasUser,
    /// The organisation that it names is there.
    HasOrganisation,
    /// The team that it names is there.
    HasTeam,
    /// The package that it names was published, now or once.
    HasPackage,
    /// An organisation has an owner.
    HasOwner,
    /// An organisation has the team `developers`.
    HasFirstTeam,
    /// A user in a team is a member of its organisation.
    IsMember,
    /// A package without a scope is public.
    IsPublic,
    /// A package without a scope has a maintainer.
    HasMaintainer,
    /// What is granted is on a package of the organisation's scope.
    IsInScope,
    /// A need that is stored is one that the manifest of its version names.
    IsNamed,
    /// Each need that the manifest of a version names is stored.
    HasNeeds,
    /// A version has an archive.
    HasArchive,
    /// The row of a version holds no bytes of its own.
    IsBare,
    /// The version that has an archive lives.
    Lives,
    /// The archive that a version has is stored.
    IsStored,
    /// An archive that is stored belongs to some version.
    IsHeld,
    /// The integrity of an archive is that of its bytes.
    HasIntegrity,
    /// No archive before it has the same integrity and bytes.
    IsFirst,
    /// A name, a version or a tag is in form.
    IsSpelled,
    /// The digest of a token has 32 bytes.
    HasDigest,
    /// The number of a role is one of 0 to 2.
    HasRole,
    /// The number of a status is 0 or 1.
    HasStatus,
    /// The number of a level that is granted is 1 or 2.
    HasLevel,
    /// The number of seconds is a moment.
    HasMoment,
    /// The organisation of a package's scope is there.
    HasScope,
    /// A package with a live version has the tag `latest`.
    HasLatest,
    /// A package that has a maintainer has no scope.
    IsUnscoped,
    /// The manifest is the compact JSON of one of that name and version.
    HasManifest,
    /// The archive has the integrity that the manifest states, if it states one.
    HasStated,
    /// The message of a deprecation has at most 1,024 bytes.
    HasMessage,
    /// A version that was withdrawn doesn't live.
    IsGone,
    /// A tag names a live version.
    NamesLive,
    /// The table `needs` has no row.
    IsUnused,
    /// A tag is no range of versions.
    IsNoRange,
    /// The number of an archive isn't above the count.
    IsCounted,
    /// Nothing but archives is counted.
    CountsAlone,
    /// The count is a whole number from 0 on, and a higher one can be given.
    HasCount,
    /// Each text of a row is UTF-8.
    IsReadable,
}

impl Rule {
    /// What is wrong where it is broken, in words.
    pub fn text(self) -> &'static str
        ensures { result.now ≡ rule_text self }
    {
        match self {
            Rule::HasUser => "names a user who is not there",
            Rule::HasOrganisation => "names an organisation that is not there",
            Rule::HasTeam => "names a team that is not there",
            Rule::HasPackage => "names a package that was never published",
            Rule::HasOwner => "has no owner",
            Rule::HasFirstTeam => "has no team developers",
            Rule::IsMember => "names a user who is no member of the organisation",
            Rule::IsPublic => "has no scope and is not public",
            Rule::HasMaintainer => "has no scope and no maintainer",
            Rule::IsInScope => "is on a package of another scope",
            Rule::IsNamed => "is named by no manifest of that version",
            Rule::HasNeeds => "has a need in its manifest that is not stored",
            Rule::HasArchive => "has no archive",
            Rule::IsBare => "has bytes in its own row",
            Rule::Lives => "is of a version that does not live",
            Rule::IsStored => "names an archive that is not stored",
            Rule::IsHeld => "is the archive of no version",
            Rule::HasIntegrity => "has another integrity than its bytes",
            Rule::IsFirst => "is stored under a lower number, too",
            Rule::IsSpelled => "is not spelled in form",
            Rule::HasDigest => "has a digest of another length than 32 bytes",
            Rule::HasRole => "has a role out of range",
            Rule::HasStatus => "has a status out of range",
            Rule::HasLevel => "has a level out of range",
            Rule::HasMoment => "has a moment out of range",
            Rule::HasScope => "has a scope without an organisation",
            Rule::HasLatest => "has a live version and no tag latest",
            Rule::IsUnscoped => "is of a package with a scope",
            Rule::HasManifest => "has no manifest of its name and version",
            Rule::HasStated => "has another archive than its manifest says",
            Rule::HasMessage => "has a message that is too long",
            Rule::IsGone => "is withdrawn and lives",
            Rule::NamesLive => "names a version that does not live",
            Rule::IsUnused => "is in a table that stays empty",
            Rule::IsNoRange => "is a range of versions",
            Rule::IsCounted => "has a number above the count",
            Rule::CountsAlone => "counts something else than archives",
            Rule::HasCount => "has a count out of range",
            Rule::IsReadable => "has a text that is not UTF-8",
        }
    }
}

impl fmt::Display for Rule {
    ghost output = { λ rule. Some (rule_text rule) };

    fn fmt<W: fmt::Write>(&self, f: &mut fmt::Formatter<W>) -> fmt::Result {
        f.write_str(self.text())
    }
}
