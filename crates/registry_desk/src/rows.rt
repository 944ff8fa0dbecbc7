//! The rows that answer an action which nothing refuses. Nothing is changed.

ghost use Rattle.std.specs.Prelude.{◌≡◌, List, map, option_map, IfOk, IfSome};
ghost use Rattle.registry_access.specs.declared.caller.Caller.{Caller};
ghost use Rattle.registry_laws_history.specs.Answers as answers;
ghost use Rattle.registry_laws_history.specs.Answers.{asked_release};
ghost use Rattle.registry_names.specs.Maps.{of, seen};
ghost use Rattle.registry_names.specs.Texts.{Text as SpecText};
ghost use Rattle.registry_packument.specs.Heads.{time_entry};
ghost use Rattle.registry_ranges.specs.Selectors.{Condition};
ghost use Rattle.registry_tables.specs.Contents.{live_of, registry_of};
ghost use Rattle.registry_tables.specs.Inside.{Finds, Knows};
ghost use Rattle.registry_tables.specs.Spelled.{document, document_entry, published};
ghost use Rattle.registry_tables.specs.Teams.{AreTeamsSound};
ghost use Rattle.registry_cache.specs.Caches.{kept};
ghost use Rattle.registry_desk.specs.Found.{AreRowsOf, AreTimesOf};
ghost use Rattle.registry_desk.specs.Caches.{AreArchives, IsSoundFor};
ghost use Rattle.registry_desk.specs.Sending.{IsAnyPackument};
ghost use Rattle.registry_rules.specs.declared.request.Action.TheVariants as asked;
ghost use Rattle.registry_rules.specs.declared.request.Asked.TheVariants as which;

use crate::cache::{Caches, cached_archive};
use registry_access::Caller;
use registry_cache::{BlobCache, Shared, SharedBlob, SharedText, TextCache};
use registry_names::{Blob, DistTag, Fault, Ident, LATEST, Name, Text, Ver};
use registry_packument::{
    Granted, Member, Overview, PackTimes, PackageLevel, TokenCount, VersionTime,
};
use registry_publish::TokenDigest;
use registry_rules::{Action, Asked};
use registry_tables::{
    DocumentRow, load_archive, load_document, load_last_withdrawal, load_live, load_maintainers,
    load_members, load_organisations, load_own_packages, load_packages, load_scope_packages,
    load_spent_publications, load_tag, load_tags, load_team_packages, load_team_users, load_teams,
    load_user_tokens, load_users,
};
use sqlite::{Alter, Transaction};
use std::alloc::{AllocError, Global};

/// The rows that answer an action.
#[derive(Drop)]
pub(crate) enum Rows {
    /// None: a command needs none.
    Nothing,
    /// The digests of a user's tokens, which end, in byte order.
    Digests(Vec<TokenDigest>),
    /// The live versions of a package that are deprecated, or all withdrawn, in byte order of their
    /// texts.
    Live(Vec<Ver>),
    /// The manifest and the message of a version, if that lives.
    Document(Option<DocumentRow>),
    /// The archive of a version, if that lives.
    Archive(Option<Blob>),
    /// The archive of a version, which was loaded before.
    KnownArchive(SharedBlob),
    /// The tags of a package, in byte order.
    Tags(Vec<DistTag>),
    /// The members of an organisation, in byte order of their names.
    Members(Vec<Member>),
    /// The teams of an organisation, the members of a team, the maintainers of a package, or all
    /// organisations, in byte order.
    Names(Vec<Text>),
    /// What a team is granted, in byte order of the packages: only of those that the caller reads.
    Grants(Vec<Granted>),
    /// Packages that the caller reads, each with their level, in byte order.
    Levels(Vec<PackageLevel>),
    /// The name of the user who asks.
    OwnName(Text),
    /// All users, in byte order.
    Users(Vec<TokenCount>),
    /// All packages that were published, now or once, in byte order.
    Packages(Vec<Overview>),
}

/// Loads what answers a caller's action.
pub(crate) fn rows_for<S: Alter>(
    alloc: Global,
    tx: &mut Transaction<'_, S>,
    caches: &Caches,
    caller: &Caller,
    what: &Action,
) -> Result<Rows, Fault>
    requires other { ¬ IsAnyPackument what.now }
    ensures { Knows S.Store tx.old tx.new result (λ rows c. IsSoundFor what.now c caches.now
        → AreRowsOf rows (registry_of c) caller.now what.now) }
{
    match what {
        Action::UserAdd { .. }
        | Action::TokenAdd { .. }
        | Action::TokenRemove { .. }
        | Action::OrgCreate { .. }
        | Action::OrgSet { .. }
        | Action::OrgRemove { .. }
        | Action::TeamCreate { .. }
        | Action::TeamDestroy { .. }
        | Action::TeamAdd { .. }
        | Action::TeamRemove { .. }
        | Action::Grant { .. }
        | Action::Revoke { .. }
        | Action::SetAccess { .. }
        | Action::OwnerAdd { .. }
        | Action::OwnerRemove { .. }
        | Action::Publish { .. }
        | Action::TagSet { .. }
        | Action::TagRemove { .. }
        | Action::Withdraw { .. } => Ok(Rows::Nothing),
        Action::TokensRemove { user } => Ok(Rows::Digests(load_user_tokens(alloc, tx, user)?)),
        Action::Deprecate { package, .. } => Ok(Rows::Live(load_live(alloc, tx, package)?)),
        Action::WithdrawAll { package } => Ok(Rows::Live(load_live(alloc, tx, package)?)),
        // Such a query doesn't come here: `queried` and `sent` answer it.
        Action::Packument { .. }
        | Action::AbbreviatedPackument { .. }
        | Action::RevisedPackument { .. } => unreachable!(),
        Action::VersionDoc { package, version } => {
            Ok(Rows::Document(load_asked(tx, package, version)?))
        }
        Action::Archive { package, version } => {
            archive_row(alloc, tx, &caches.archives, package, version)
        }
        Action::Tags { package } => Ok(Rows::Tags(load_tags(alloc, tx, package)?)),
        Action::Members { organisation } => {
            Ok(Rows::Members(load_members(alloc, tx, organisation)?))
        }
        Action::Teams { organisation } => Ok(Rows::Names(load_teams(alloc, tx, organisation)?)),
        Action::TeamMembers { organisation, team } => {
            Ok(Rows::Names(load_team_users(alloc, tx, organisation, team)?))
        }
        Action::TeamPackages { organisation, team } => {
            Ok(Rows::Grants(load_team_packages(alloc, tx, caller, organisation, team)?))
        }
        Action::WhoAmI => Ok(Rows::OwnName(own_name(alloc, caller)?)),
        Action::Maintainers { package } => {
            Ok(Rows::Names(load_maintainers(alloc, tx, package)?))
        }
        Action::OrgPackages { organisation } => {
            Ok(Rows::Levels(load_scope_packages(alloc, tx, caller, organisation)?))
        }
        Action::MyPackages => Ok(Rows::Levels(load_own_packages(alloc, tx, caller)?)),
        Action::Users => Ok(Rows::Users(load_users(alloc, tx)?)),
        Action::Organisations => Ok(Rows::Names(load_organisations(alloc, tx)?)),
        Action::Packages => Ok(Rows::Packages(load_packages(alloc, tx)?)),
    }
}

// The name of the caller. It is empty if the caller isn't a user.
fn own_name(alloc: Global, caller: &Caller) -> Result<Text, AllocError>
    ensures { IfOk result (λ name. name ≡ answers.own_name caller.now) }
{
    match caller {
        Caller::User(name) => Text::from_str(alloc, name.text()),
        Caller::Operator | Caller::Anonymous => Text::from_str(alloc, ""),
    }
}

/// The text that is kept of a packument. `None` where it can't be shared.
pub(crate) fn cached_text(cache: &TextCache, name: &Name) -> Option<SharedText>
    ensures { IfSome result (λ text. kept cache.now name.now ≡ Some text) }
{
    cache.peek(name.text())?.share().ok()
}

/// The moments of a package of which a version was published, where its live versions are these.
pub(crate) fn pack_times<S: Alter>(
    alloc: Global,
    tx: &mut Transaction<'_, S>,
    name: &Name,
    live: Vec<VersionTime>,
) -> Result<PackTimes, Fault>
    ensures { Finds S.Store tx.old tx.new result (λ times c.
        map time_entry live.items ≡ map (seen published) (of (live_of c) name.now)
        → AreTimesOf times (registry_of c) name.now) }
{
    let withdrawn = load_spent_publications(alloc, tx, name)?;
    let last = load_last_withdrawal(tx, name)?;
    let Some(times) = PackTimes::new(live, &withdrawn, last) else {
        return Err(Fault::Database);
    };
    Ok(times)
}

// The manifest and the message of the version that is asked for, if it lives.
fn load_asked<S: Alter>(
    tx: &mut Transaction<'_, S>,
    name: &Name,
    version: &Asked,
) -> Result<Option<DocumentRow>, Fault>
    ensures { Finds S.Store tx.old tx.new result (λ found c. option_map document_entry found
        ≡ option_map document (asked_release (registry_of c) name.now version.now)) }
{
    match version {
        Asked::Exact(version) => load_document(tx, name, version.text()),
        Asked::Latest => load_latest(tx, name),
    }
}

// The manifest and the message of the version that `latest` names, if it exists.
fn load_latest<S: Alter>(
    tx: &mut Transaction<'_, S>,
    name: &Name,
) -> Result<Option<DocumentRow>, Fault>
    ensures { Finds S.Store tx.old tx.new result (λ found c. option_map document_entry found
        ≡ option_map document (asked_release (registry_of c) name.now which.Latest)) }
{
    match load_tag(tx, name, LATEST)? {
        Some(version) => {
            let document = load_document(tx, name, version.as_str())?;
            Ok(document)
        }
        None => Ok(None),
    }
}

fn archive_row<S: Alter>(
    alloc: Global,
    tx: &mut Transaction<'_, S>,
    cache: &BlobCache,
    name: &Name,
    version: &Ver,
) -> Result<Rows, Fault>
    ensures { Knows S.Store tx.old tx.new result (λ rows c. (who : Caller)
        → AreArchives c cache.now
        → AreRowsOf rows (registry_of c) who (asked.Archive name.now version.now)) }
{
    match cached_archive(alloc, cache, name, version) {
        Some(archive) => Ok(Rows::KnownArchive(archive)),
        None => {
            let archive = load_archive(tx, name, version.text())?;
            Ok(Rows::Archive(archive))
        }
    }
}
