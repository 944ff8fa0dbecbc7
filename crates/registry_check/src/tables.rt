//! The rows of all tables, as they are read. Those that are looked for are in the order of their keys.

ghost use Rattle.std.specs.Prelude.{◌≡◌, ℤ, IfOk};
ghost use Rattle.std.specs.List.{list_any};
ghost use Rattle.std.specs.List.Sorted.{IsSortedByKey};
ghost use Rattle.std.specs.Ordering.{int_cmp, int_eq};
ghost use Rattle.std.proofs.Props.{props};
ghost use Rattle.registry_names.specs.Keys.{pair_cmp};
ghost use Rattle.registry_names.specs.Texts.{text_cmp};
ghost use Rattle.registry_rows.specs.TextKeys.{texts_cmp};

use crate::counter::Counter;
use crate::keys::held_numbers;
use crate::order::in_order;
use registry_access::{GrantRow, MaintainerRow, MemberRow, PackageRow, TeamMemberRow, TeamRow};
use registry_names::{Blob, Fault, Text};
use std::alloc::Global;

/// The user of a token.
#[derive(Drop)]
pub(crate) struct TokenRow {
    /// The SHA-256 of its text.
    pub(crate) digest: Blob,
    /// The user.
    pub(crate) user: Text,
}

/// A live version, as its row has it.
#[derive(Drop)]
pub(crate) struct LiveRow {
    /// The package.
    pub(crate) package: Text,
    /// The version.
    pub(crate) version: Text,
    /// When it was published, in seconds.
    pub(crate) published: i64,
    /// The manifest.
    pub(crate) manifest: Text,
    /// The bytes that the row holds itself.
    pub(crate) archive: Blob,
    /// The message of its deprecation.
    pub(crate) message: Text,
}

/// A need of a version.
#[derive(Drop)]
pub(crate) struct NeedRow {
    /// The package.
    pub(crate) package: Text,
    /// The version.
    pub(crate) version: Text,
    /// The package that it needs.
    pub(crate) target: Text,
    /// The range of versions that it needs.
    pub(crate) range: Text,
}

/// The archive of a version.
#[derive(Drop)]
pub(crate) struct HeldRow {
    /// The package.
    pub(crate) package: Text,
    /// The version.
    pub(crate) version: Text,
    /// The number of the archive.
    pub(crate) archive: i64,
}

/// An archive, without its bytes.
#[derive(Drop)]
pub(crate) struct ArchiveRow {
    /// Its number.
    pub(crate) number: i64,
    /// The integrity that is stored with it.
    pub(crate) integrity: Text,
}

/// An archive among those of one integrity.
#[derive(Drop)]
pub(crate) struct LikeRow {
    /// Its number.
    pub(crate) number: i64,
    /// Its bytes.
    pub(crate) bytes: Blob,
}

/// What was found of an archive.
#[derive(Drop)]
pub(crate) struct FoundArchive {
    /// Its number.
    pub(crate) number: i64,
    /// The integrity that is stored with it.
    pub(crate) integrity: Text,
    /// The integrity of its bytes.
    pub(crate) hashed: Text,
    /// The number of the first archive with the same integrity and the same bytes.
    pub(crate) first: Option<i64>,
}

/// A tag of a package.
#[derive(Drop)]
pub(crate) struct TagRow {
    /// The package.
    pub(crate) package: Text,
    /// The tag.
    pub(crate) tag: Text,
    /// The version that it names.
    pub(crate) version: Text,
}

/// A row of the table `needs`, in which no request puts one.
#[derive(Drop)]
pub(crate) struct TargetRow {
    /// The package.
    pub(crate) package: Text,
    /// The version.
    pub(crate) version: Text,
    /// The package that it needs.
    pub(crate) target: Text,
}

/// The number of a member's role, as it is stored.
#[derive(Drop)]
pub(crate) struct RoleRow {
    /// The organisation.
    pub(crate) organisation: Text,
    /// The member.
    pub(crate) user: Text,
    /// The number.
    pub(crate) role: i64,
}

/// The number of a package's status, as it is stored.
#[derive(Drop)]
pub(crate) struct StatusRow {
    /// The package.
    pub(crate) package: Text,
    /// The number.
    pub(crate) status: i64,
}

/// The number of what a team is granted, as it is stored.
#[derive(Drop)]
pub(crate) struct LevelRow {
    /// The organisation.
    pub(crate) organisation: Text,
    /// The team.
    pub(crate) team: Text,
    /// The package.
    pub(crate) package: Text,
    /// The number.
    pub(crate) level: i64,
}

/// When a live version was published, as it is stored.
#[derive(Drop)]
pub(crate) struct MomentRow {
    /// The package.
    pub(crate) package: Text,
    /// The version.
    pub(crate) version: Text,
    /// The seconds.
    pub(crate) published: i64,
}

/// A version that was withdrawn, as it is stored.
#[derive(Drop)]
pub(crate) struct SpentRow {
    /// The package.
    pub(crate) package: Text,
    /// The version.
    pub(crate) version: Text,
    /// When it was published, in seconds.
    pub(crate) published: i64,
    /// When it was withdrawn, in seconds.
    pub(crate) withdrawn: i64,
}

/// Users, tokens and organisations.
#[derive(Drop)]
pub(crate) struct Accounts {
    /// The names of the users.
    pub(crate) users: Vec<Text>,
    /// The tokens.
    pub(crate) tokens: Vec<TokenRow>,
    /// The names of the organisations.
    pub(crate) organisations: Vec<Text>,
    ghost users_rise: { IsSortedByKey (λ u. u) text_cmp users.items } by { Prim.hlevel props },
    ghost organisations_rise: { IsSortedByKey (λ o. o) text_cmp organisations.items } by { Prim.hlevel props },
}

impl Accounts {
    /// These rows. It is a fault where those that are looked for aren't in the order of their keys;
    /// so it is in each function `new` here.
    pub(crate) fn new(
        users: Vec<Text>,
        tokens: Vec<TokenRow>,
        organisations: Vec<Text>,
    ) -> Result<Accounts, Fault>
        ensures { IfOk result (λ rows. (rows.users.items ≡ users.items)
            × (rows.tokens.items ≡ tokens.items)
            × (rows.organisations.items ≡ organisations.items)) }
    {
        Ok(Accounts {
            users: in_order(users)?,
            tokens,
            organisations: in_order(organisations)?,
        })
    }
}

/// Who is in which organisation and team.
#[derive(Drop)]
pub(crate) struct Groups {
    /// The members of organisations.
    pub(crate) members: Vec<MemberRow>,
    /// The teams of organisations.
    pub(crate) teams: Vec<TeamRow>,
    /// Who is in which team.
    pub(crate) team_members: Vec<TeamMemberRow>,
    ghost members_rise: { IsSortedByKey (λ r. (r.organisation, r.user)) pair_cmp members.items } by { Prim.hlevel props },
    ghost teams_rise: { IsSortedByKey (λ r. (r.organisation, r.team)) pair_cmp teams.items } by { Prim.hlevel props },
}

impl Groups {
    pub(crate) fn new(
        members: Vec<MemberRow>,
        teams: Vec<TeamRow>,
        team_members: Vec<TeamMemberRow>,
    ) -> Result<Groups, Fault>
        ensures { IfOk result (λ rows. (rows.members.items ≡ members.items)
            × (rows.teams.items ≡ teams.items) × (rows.team_members.items ≡ team_members.items)) }
    {
        Ok(Groups {
            members: in_order(members)?,
            teams: in_order(teams)?,
            team_members,
        })
    }
}

/// What was published, and what callers may do with it.
#[derive(Drop)]
pub(crate) struct Packages {
    /// The packages.
    pub(crate) published: Vec<PackageRow>,
    /// What teams are granted.
    pub(crate) grants: Vec<GrantRow>,
    /// The maintainers of packages.
    pub(crate) maintainers: Vec<MaintainerRow>,
    ghost published_rise: { IsSortedByKey (λ r. r.package) text_cmp published.items } by { Prim.hlevel props },
    ghost maintainers_rise: { IsSortedByKey (λ r. (r.package, r.user)) pair_cmp maintainers.items } by { Prim.hlevel props },
}

impl Packages {
    pub(crate) fn new(
        published: Vec<PackageRow>,
        grants: Vec<GrantRow>,
        maintainers: Vec<MaintainerRow>,
    ) -> Result<Packages, Fault>
        ensures { IfOk result (λ rows. (rows.published.items ≡ published.items)
            × (rows.grants.items ≡ grants.items) × (rows.maintainers.items ≡ maintainers.items)) }
    {
        Ok(Packages {
            published: in_order(published)?,
            grants,
            maintainers: in_order(maintainers)?,
        })
    }
}

/// The live versions, and what is stored of them elsewhere.
#[derive(Drop)]
pub(crate) struct Versions {
    /// The versions.
    pub(crate) live: Vec<LiveRow>,
    /// What they need.
    pub(crate) needs: Vec<NeedRow>,
    /// The archives that they have.
    pub(crate) held: Vec<HeldRow>,
    /// The archives.
    pub(crate) archives: Vec<ArchiveRow>,
    /// The numbers of the archives that they have.
    pub(crate) numbers: Vec<i64>,
    ghost live_rise: { IsSortedByKey (λ r. (r.package, r.version)) pair_cmp live.items } by { Prim.hlevel props },
    ghost needs_rise: { IsSortedByKey (λ r. (r.package, (r.version, (r.target, r.range)))) (texts_cmp 3) needs.items } by { Prim.hlevel props },
    ghost held_rise: { IsSortedByKey (λ r. (r.package, r.version)) pair_cmp held.items } by { Prim.hlevel props },
    ghost archives_rise: { IsSortedByKey (λ r. r.number) int_cmp archives.items } by { Prim.hlevel props },
    ghost numbers_rise: { IsSortedByKey (λ n. n) int_cmp numbers.items } by { Prim.hlevel props },
    ghost are_held: { (n : ℤ) → list_any (λ m. int_eq m n) numbers.items ≡ list_any (λ r. int_eq r.archive n) held.items } by { Prim.hlevel props },
}

impl Versions {
    pub(crate) fn new(
        alloc: Global,
        live: Vec<LiveRow>,
        needs: Vec<NeedRow>,
        held: Vec<HeldRow>,
        archives: Vec<ArchiveRow>,
    ) -> Result<Versions, Fault>
        ensures { IfOk result (λ rows. (rows.live.items ≡ live.items)
            × (rows.needs.items ≡ needs.items) × (rows.held.items ≡ held.items)
            × (rows.archives.items ≡ archives.items)) }
    {
        let numbers = held_numbers(alloc, &held)?;
        Ok(Versions {
            live: in_order(live)?,
            needs: in_order(needs)?,
            held: in_order(held)?,
            archives: in_order(archives)?,
            numbers,
        })
    }
}

/// What versions are called besides, and what an older schema had of them.
#[derive(Drop)]
pub(crate) struct Marks {
    /// The tags.
    pub(crate) tags: Vec<TagRow>,
    /// The rows of the table `needs`.
    pub(crate) targets: Vec<TargetRow>,
    ghost tags_rise: { IsSortedByKey (λ r. (r.package, r.tag)) pair_cmp tags.items } by { Prim.hlevel props },
}

impl Marks {
    pub(crate) fn new(tags: Vec<TagRow>, targets: Vec<TargetRow>) -> Result<Marks, Fault>
        ensures { IfOk result (λ rows. (rows.tags.items ≡ tags.items)
            × (rows.targets.items ≡ targets.items)) }
    {
        Ok(Marks {
            tags: in_order(tags)?,
            targets,
        })
    }
}

/// The numbers of roles, statuses and what is granted.
#[derive(Drop)]
pub(crate) struct Grades {
    /// Those of roles.
    pub(crate) roles: Vec<RoleRow>,
    /// Those of statuses.
    pub(crate) statuses: Vec<StatusRow>,
    /// Those of what is granted.
    pub(crate) levels: Vec<LevelRow>,
}

/// The numbers of moments.
#[derive(Drop)]
pub(crate) struct Times {
    /// Those of live versions.
    pub(crate) moments: Vec<MomentRow>,
    /// Those of withdrawn versions.
    pub(crate) spent: Vec<SpentRow>,
}

/// All rows.
#[derive(Drop)]
pub(crate) struct Tables {
    /// Users, tokens and organisations.
    pub(crate) accounts: Accounts,
    /// Who is in which organisation and team.
    pub(crate) groups: Groups,
    /// What was published.
    pub(crate) packages: Packages,
    /// The live versions.
    pub(crate) versions: Versions,
    /// Their tags.
    pub(crate) marks: Marks,
    /// The numbers of roles, statuses and what is granted.
    pub(crate) grades: Grades,
    /// The numbers of moments.
    pub(crate) times: Times,
    /// What is counted.
    pub(crate) counter: Counter,
}
