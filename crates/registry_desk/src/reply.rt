//! The reply to a request that isn't refused.

ghost use Rattle.std.specs.Prelude.{◌≡◌, ℕ, true, List as Sequence, Some, Ok, IfOk, filter, length, map};
ghost use Rattle.registry_names.specs.Maps.{of, pairs_of, parts};
ghost use Rattle.registry_names.specs.Versions.{text_of_version};
ghost use Rattle.registry_packument.specs.Documents.{document_text};
ghost use Rattle.registry_access.specs.Levels.{reads};
ghost use Rattle.registry_access.specs.Positions.{level_in};
ghost use Rattle.registry_access.specs.declared.caller.Caller.{Caller};
ghost use Rattle.registry_access.specs.declared.grant.Grant.{Grant as Right};
ghost use Rattle.registry_rules.specs.State.{State};
ghost use Rattle.registry_rules.specs.Withdrawals as definitions;
ghost use Rattle.registry_rules.specs.Withdrawals.{selected};
ghost use Rattle.registry_tables.specs.Spelled.{member_entry, tag_entry};
ghost use Rattle.registry_tables.specs.Teams.{granted_entry};
ghost use Rattle.registry_laws_history.specs.Answers as answers;
ghost use Rattle.registry_laws_history.specs.Answers.{members_in, tags_in, team_packages_in};
ghost use Rattle.registry_laws_history.specs.Runs.{accepts};
ghost use Rattle.registry_desk.specs.Found.{AreRowsOf};

use crate::rows::Rows;
use registry_cache::{SharedBlob, SharedText};
use registry_names::{Blob, DistTag, Fault, Text, Ver};
use registry_packument::{Granted, List, Member, list_text, version_text};
use registry_ranges::Selector;
use registry_rules::{Action, Reply};
use registry_tables::DocumentRow;
use std::alloc::Global;

/// The reply to a caller's action, of the rows that answer it. An archive keeps its digest if it is
/// to.
pub(crate) fn reply_from_rows(
    alloc: Global,
    what: &Action,
    rows: Rows,
    keeps_digest: bool,
) -> Result<Reply, Fault>
    ensures is { IfOk result (λ told. (S : State) (who : Caller) → AreRowsOf rows S who what.now
        → told ≡ answers.reply S who what.now) }
    ensures accepts { IfOk result (λ told. accepts (Ok told) ≡ true) }
{
    match what {
        Action::Publish { .. } => Ok(Reply::Created),
        Action::UserAdd { .. }
        | Action::TokenAdd { .. }
        | Action::TokenRemove { .. }
        | Action::OrgCreate { .. }
        | Action::OrgSet { .. }
        | Action::OrgRemove { .. }
        | Action::TeamCreate { .. }
        | Action::TeamDestroy { .. }
        | Action::TeamAdd { .. }
        | Action::TeamRemove { .. }
        | Action::Grant { .. }
        | Action::Revoke { .. }
        | Action::SetAccess { .. }
        | Action::OwnerAdd { .. }
        | Action::OwnerRemove { .. }
        | Action::TagSet { .. }
        | Action::TagRemove { .. }
        | Action::Withdraw { .. } => Ok(Reply::Done),
        Action::TokensRemove { .. }
        | Action::WithdrawAll { .. }
        | Action::Deprecate { .. }
        | Action::Archive { .. } => reply_of(alloc, what, rows, keeps_digest),
        _ => doc(text_of(alloc, what, rows)?),
    }
}

// The reply to the end of a user's tokens, to the withdrawal of all, to a deprecation, and to a query
// for an archive.
fn reply_of(alloc: Global, what: &Action, rows: Rows, keeps_digest: bool) -> Result<Reply, Fault>
    ensures is { IfOk result (λ told. (S : State) (who : Caller) → AreRowsOf rows S who what.now
        → told ≡ answers.reply S who what.now) }
    ensures accepts { IfOk result (λ told. accepts (Ok told) ≡ true) }
{
    match (what, rows) {
        (Action::TokensRemove { .. }, Rows::Digests(digests)) => {
            Ok(Reply::Count(digests.len() as u64))
        }
        (Action::Deprecate { selector, .. }, Rows::Live(live)) => {
            Ok(Reply::Count(count(selector, &live)))
        }
        (Action::WithdrawAll { .. }, Rows::Live(live)) => Ok(Reply::Count(number_of(live))),
        (Action::Archive { .. }, Rows::Archive(Some(archive))) => {
            bytes(alloc, archive, keeps_digest)
        }
        (Action::Archive { .. }, Rows::KnownArchive(archive)) => Ok(Reply::Bytes(archive)),
        _ => Err(Fault::Database),
    }
}

// The reply that is this text, which others may share.
fn doc(text: Text) -> Result<Reply, Fault>
    ensures { IfOk result (λ told. told ≡ Reply.Doc text) }
{
    Ok(Reply::Doc(SharedText::from_text(text)?))
}

// The reply that is this archive, which others may share.
fn bytes(alloc: Global, archive: Blob, keeps_digest: bool) -> Result<Reply, Fault>
    ensures { IfOk result (λ told. told ≡ Reply.Bytes archive) }
{
    let archive = SharedBlob::from_blob(alloc, archive)?;
    Ok(Reply::Bytes(digested(archive, keeps_digest)))
}

// The same archive, which keeps its digest if it is to.
fn digested(archive: SharedBlob, keeps_digest: bool) -> SharedBlob
    ensures { result ≡ archive }
{
    if keeps_digest {
        archive.with_digest()
    } else {
        archive
    }
}

// The text that is the reply to another query.
fn text_of(alloc: Global, what: &Action, rows: Rows) -> Result<Text, Fault>
    ensures { IfOk result (λ text. (S : State) (who : Caller) → AreRowsOf rows S who what.now
        → Reply.Doc text ≡ answers.reply S who what.now) }
{
    match (what, rows) {
        (Action::VersionDoc { .. }, Rows::Document(Some(row))) => document(alloc, &row),
        (Action::Tags { .. }, Rows::Tags(tags)) => tags_of(alloc, tags),
        (Action::Members { .. }, Rows::Members(members)) => members_of(alloc, members),
        (
            Action::Teams { .. }
            | Action::TeamMembers { .. }
            | Action::Maintainers { .. }
            | Action::Organisations,
            Rows::Names(names),
        ) => list_text(alloc, &List::Names(names)),
        (Action::TeamPackages { .. }, Rows::Grants(granted)) => grants_of(alloc, granted),
        (Action::OrgPackages { .. } | Action::MyPackages, Rows::Levels(levels)) => {
            list_text(alloc, &List::Levels(levels))
        }
        (Action::WhoAmI, Rows::OwnName(name)) => list_text(alloc, &List::Username(name)),
        (Action::Users, Rows::Users(users)) => list_text(alloc, &List::Users(users)),
        (Action::Packages, Rows::Packages(packages)) => {
            list_text(alloc, &List::Packages(packages))
        }
        _ => Err(Fault::Database),
    }
}

// How many versions there are.
fn number_of(live: Vec<Ver>) -> u64
    ensures { result ≡ length live.items }
{
    live.len() as u64
}

// How many of the versions the selector selects.
fn count(selector: &Selector, live: &[Ver]) -> u64
    ensures { result ≡ length (selected (map text_of_version live.now) selector.now) }
{
    let mut count = 0;
    for version in live {
        if selects(selector, version) {
            count += 1;
        }
    }
    count
}

fn selects(selector: &Selector, version: &Ver) -> bool
    ensures { result ≡ definitions.selects selector.now (text_of_version version.now) }
{
    // Reading the text tells the prover that the version is in form.
    version.text();
    selector.selects(version)
}

// The document of a version, with its message where it has one.
fn document(alloc: Global, row: &DocumentRow) -> Result<Text, Fault>
    ensures { IfOk result (λ text. document_text row.now.manifest row.now.message ≡ Some text) }
{
    version_text(alloc, row.manifest.as_str(), row.message.as_str())
}

// The text of a package's tags.
fn tags_of(alloc: Global, tags: Vec<DistTag>) -> Result<Text, Fault>
    ensures { IfOk result (λ text. (S : State) (p : Sequence ℕ)
        → map tag_entry tags.items ≡ of S.tags p
        → text ≡ tags_in S p) }
{
    list_text(alloc, &List::Tags(tags))
}

// The text of an organisation's members.
fn members_of(alloc: Global, members: Vec<Member>) -> Result<Text, Fault>
    ensures { IfOk result (λ text. (S : State) (o : Sequence ℕ)
        → map member_entry members.items ≡ of S.access.roles o
        → text ≡ members_in S o) }
{
    list_text(alloc, &List::Members(members))
}

// The text of what a team is granted, on packages that the caller reads.
fn grants_of(alloc: Global, granted: Vec<Granted>) -> Result<Text, Fault>
    ensures { IfOk result (λ text. (S : State) (who : Caller) (o t : Sequence ℕ)
        → map granted_entry granted.items
        ≡ filter (λ (e : Sequence ℕ × Right). reads (level_in S.access who e.0))
        (parts (pairs_of S.access.grants o) t)
        → text ≡ team_packages_in S who o t) }
{
    list_text(alloc, &List::Grants(granted))
}
