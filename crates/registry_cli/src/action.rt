//! The action that a line asks for.

ghost use Rattle.std.specs.Prelude.{◌≡◌, [], is_some, false, true};
ghost use Rattle.std.specs.Io.BufRead.{strip_last};
ghost use Rattle.registry_cli.specs.Asked as spec;
ghost use Rattle.registry_cli.specs.Lines.{IsWhole, asks_to_serve, argument_at};
ghost use Rattle.registry_cli.specs.Readings.{reads_token};
ghost use Rattle.registry_cli.specs.declared.action.Verb.TheVariants as verbs;

use crate::argument_values::{argument_at, four, one, says_input, three, two};
use crate::from_argument::FromArgument;
use crate::meaning::{Line, Who};
use registry_names::{Ident, Refusal, Stop, Text};
use registry_publish::{PublishForm, TokenDigest};
use registry_rules::{Action, Credential};
use std::alloc::Global;

/// What a subcommand asks for.
#[derive(Clone, Copy)]
pub(crate) enum Verb {
    UserAdd,
    TokenAdd,
    TokenRemove,
    TokensRemove,
    OrgCreate,
    OrgSet,
    OrgRemove,
    TeamCreate,
    TeamDestroy,
    TeamAdd,
    TeamRemove,
    Grant,
    Revoke,
    SetAccess,
    OwnerAdd,
    OwnerRemove,
    Publish,
    TagSet,
    TagRemove,
    Deprecate,
    Withdraw,
    WithdrawAll,
    Packument,
    AbbreviatedPackument,
    VersionDoc,
    Archive,
    Tags,
    Maintainers,
    Members,
    Teams,
    TeamMembers,
    TeamPackages,
    OrgPackages,
    WhoAmI,
    MyPackages,
    Users,
    Organisations,
    Packages,
}

/// The credential and the action that a line asks for. `body` is the content of the file that the
/// line names, which only `publish` reads, or of standard input, which only `token-rm -` reads.
/// `serve` asks for no action.
///
/// The texts are read from left to right, the user's name first, and the first that isn't in form
/// gives its refusal. `Memory` is returned where no memory is left, and never for a text that isn't
/// in form, except a version or the body.
pub fn action_of(alloc: Global, line: &Line, body: &[u8]) -> Result<(Credential, Action), Stop>
    requires whole { IsWhole line.now.what }
    requires asks { asks_to_serve line.now.what ≡ false }
    ensures { spec.reads_line line.now body.now result }
{
    let who = credential(alloc, &line.who)?;
    let what = action(alloc, line.what.as_slice(), body)?;
    Ok((who, what))
}

fn credential(alloc: Global, who: &Who) -> Result<Credential, Stop>
    ensures { spec.reads_who who.now result }
{
    match who {
        Who::Operator => Ok(Credential::Operator),
        Who::User(name) => Ok(Credential::User(Ident::read(alloc, name.as_str())?)),
        Who::Anonymous => Ok(Credential::Anonymous),
    }
}

fn action(alloc: Global, arguments: &[Text], body: &[u8]) -> Result<Action, Stop>
    requires { is_some (spec.verb_of (argument_at arguments.now 0)) ≡ true }
    ensures { spec.reads_action arguments.now body.now result }
{
    match verb_of(argument_at(arguments, 0)) {
        Some(verb) => asked(alloc, verb, arguments, body),
        None => unreachable!(),
    }
}

fn verb_of(name: &str) -> Option<Verb>
    ensures { result ≡ spec.verb_of name.now }
{
    organisation_verb(name)
        .or(team_verb(name))
        .or(package_verb(name))
        .or(query_verb(name))
}

fn organisation_verb(name: &str) -> Option<Verb>
    ensures { result ≡ spec.organisation_verb name.now }
{
    match name {
        "user-add" => Some(Verb::UserAdd),
        "token-add" => Some(Verb::TokenAdd),
        "token-rm" => Some(Verb::TokenRemove),
        "tokens-rm" => Some(Verb::TokensRemove),
        "org-create" => Some(Verb::OrgCreate),
        "org-set" => Some(Verb::OrgSet),
        "org-rm" => Some(Verb::OrgRemove),
        _ => None,
    }
}

fn team_verb(name: &str) -> Option<Verb>
    ensures { result ≡ spec.team_verb name.now }
{
    match name {
        "team-create" => Some(Verb::TeamCreate),
        "team-destroy" => Some(Verb::TeamDestroy),
        "team-add" => Some(Verb::TeamAdd),
        "team-rm" => Some(Verb::TeamRemove),
        "grant" => Some(Verb::Grant),
        "revoke" => Some(Verb::Revoke),
        _ => None,
    }
}

fn package_verb(name: &str) -> Option<Verb>
    ensures { result ≡ spec.package_verb name.now }
{
    match name {
        "access" => Some(Verb::SetAccess),
        "owner-add" => Some(Verb::OwnerAdd),
        "owner-rm" => Some(Verb::OwnerRemove),
        "publish" => Some(Verb::Publish),
        "tag-set" => Some(Verb::TagSet),
        "tag-rm" => Some(Verb::TagRemove),
        "deprecate" => Some(Verb::Deprecate),
        "withdraw" => Some(Verb::Withdraw),
        "withdraw-all" => Some(Verb::WithdrawAll),
        _ => None,
    }
}

fn query_verb(name: &str) -> Option<Verb>
    ensures { result ≡ spec.query_verb name.now }
{
    match name {
        "packument" => Some(Verb::Packument),
        "abbreviated-packument" => Some(Verb::AbbreviatedPackument),
        "version-doc" => Some(Verb::VersionDoc),
        "archive" => Some(Verb::Archive),
        "tags" => Some(Verb::Tags),
        "maintainers" => Some(Verb::Maintainers),
        "members" => Some(Verb::Members),
        "teams" => Some(Verb::Teams),
        "team-members" => Some(Verb::TeamMembers),
        "team-packages" => Some(Verb::TeamPackages),
        "org-packages" => Some(Verb::OrgPackages),
        "whoami" => Some(Verb::WhoAmI),
        "my-packages" => Some(Verb::MyPackages),
        "users" => Some(Verb::Users),
        "organisations" => Some(Verb::Organisations),
        "packages" => Some(Verb::Packages),
        _ => None,
    }
}

fn asked(alloc: Global, verb: Verb, arguments: &[Text], body: &[u8]) -> Result<Action, Stop>
    ensures { spec.asked verb arguments.now body.now result }
{
    match verb {
        Verb::UserAdd => user_add(alloc, arguments),
        Verb::TokenAdd => token_add(alloc, arguments),
        Verb::TokenRemove => token_remove(arguments, body),
        Verb::TokensRemove => tokens_remove(alloc, arguments),
        Verb::OrgCreate => org_create(alloc, arguments),
        Verb::OrgSet => org_set(alloc, arguments),
        Verb::OrgRemove => org_remove(alloc, arguments),
        Verb::TeamCreate => team_create(alloc, arguments),
        Verb::TeamDestroy => team_destroy(alloc, arguments),
        Verb::TeamAdd => team_add(alloc, arguments),
        Verb::TeamRemove => team_remove(alloc, arguments),
        Verb::Grant => grant(alloc, arguments),
        Verb::Revoke => revoke(alloc, arguments),
        Verb::SetAccess => set_access(alloc, arguments),
        Verb::OwnerAdd => owner_add(alloc, arguments),
        Verb::OwnerRemove => owner_remove(alloc, arguments),
        Verb::Publish => publish(alloc, body),
        Verb::TagSet => tag_set(alloc, arguments),
        Verb::TagRemove => tag_remove(alloc, arguments),
        Verb::Deprecate => deprecate(alloc, arguments),
        Verb::Withdraw => withdraw(alloc, arguments),
        Verb::WithdrawAll => withdraw_all(alloc, arguments),
        Verb::Packument => packument(alloc, arguments),
        Verb::AbbreviatedPackument => abbreviated_packument(alloc, arguments),
        Verb::VersionDoc => version_doc(alloc, arguments),
        Verb::Archive => archive(alloc, arguments),
        Verb::Tags => tags(alloc, arguments),
        Verb::Maintainers => maintainers(alloc, arguments),
        Verb::Members => members(alloc, arguments),
        Verb::Teams => teams(alloc, arguments),
        Verb::TeamMembers => team_members(alloc, arguments),
        Verb::TeamPackages => team_packages(alloc, arguments),
        Verb::OrgPackages => org_packages(alloc, arguments),
        Verb::WhoAmI => Ok(Action::WhoAmI),
        Verb::MyPackages => Ok(Action::MyPackages),
        Verb::Users => Ok(Action::Users),
        Verb::Organisations => Ok(Action::Organisations),
        Verb::Packages => Ok(Action::Packages),
    }
}

fn user_add(alloc: Global, arguments: &[Text]) -> Result<Action, Stop>
    ensures { spec.asked verbs.UserAdd arguments.now [] result }
{
    let user = one(alloc, arguments)?;
    Ok(Action::UserAdd { user })
}

fn token_add(alloc: Global, arguments: &[Text]) -> Result<Action, Stop>
    ensures { spec.asked verbs.TokenAdd arguments.now [] result }
{
    let (user, digest) = two(alloc, arguments)?;
    Ok(Action::TokenAdd { user, digest })
}

fn token_remove(arguments: &[Text], body: &[u8]) -> Result<Action, Stop>
    ensures { spec.asked verbs.TokenRemove arguments.now body.now result }
{
    let digest = digest_of(said_token(arguments, body))?;
    Ok(Action::TokenRemove { digest })
}

// The digest of a token with this text.
fn digest_of(text: &[u8]) -> Result<TokenDigest, Stop>
    ensures { reads_token text.now result }
{
    match TokenDigest::of_bytes(text) {
        Some(digest) => Ok(digest),
        None => Err(Stop::Refused(Refusal::BadBody)),
    }
}

// The text of the token to end, which is an argument or was read of standard input.
fn said_token<'a>(arguments: &'a [Text], body: &'a [u8]) -> &'a [u8]
    ensures { result.now ≡ spec.said_token arguments.now body.now }
{
    if says_input(arguments) {
        without_newline(body)
    } else {
        argument_at(arguments, 1).as_bytes()
    }
}

// The bytes without a newline at their end.
fn without_newline(bytes: &[u8]) -> &[u8]
    ensures { result.now ≡ strip_last 10 bytes.now }
{
    if !bytes.is_empty() && bytes[bytes.len() - 1] == b'\n' {
        &bytes[..bytes.len() - 1]
    } else {
        bytes
    }
}

fn tokens_remove(alloc: Global, arguments: &[Text]) -> Result<Action, Stop>
    ensures { spec.asked verbs.TokensRemove arguments.now [] result }
{
    let user = one(alloc, arguments)?;
    Ok(Action::TokensRemove { user })
}

fn org_create(alloc: Global, arguments: &[Text]) -> Result<Action, Stop>
    ensures { spec.asked verbs.OrgCreate arguments.now [] result }
{
    let (organisation, owner) = two(alloc, arguments)?;
    Ok(Action::OrgCreate {
        organisation,
        owner,
    })
}

fn org_set(alloc: Global, arguments: &[Text]) -> Result<Action, Stop>
    ensures { spec.asked verbs.OrgSet arguments.now [] result }
{
    let (organisation, user, role) = three(alloc, arguments)?;
    Ok(Action::OrgSet {
        organisation,
        user,
        role,
    })
}

fn org_remove(alloc: Global, arguments: &[Text]) -> Result<Action, Stop>
    ensures { spec.asked verbs.OrgRemove arguments.now [] result }
{
    let (organisation, user) = two(alloc, arguments)?;
    Ok(Action::OrgRemove { organisation, user })
}

fn team_create(alloc: Global, arguments: &[Text]) -> Result<Action, Stop>
    ensures { spec.asked verbs.TeamCreate arguments.now [] result }
{
    let (organisation, team) = two(alloc, arguments)?;
    Ok(Action::TeamCreate { organisation, team })
}

fn team_destroy(alloc: Global, arguments: &[Text]) -> Result<Action, Stop>
    ensures { spec.asked verbs.TeamDestroy arguments.now [] result }
{
    let (organisation, team) = two(alloc, arguments)?;
    Ok(Action::TeamDestroy { organisation, team })
}

fn team_add(alloc: Global, arguments: &[Text]) -> Result<Action, Stop>
    ensures { spec.asked verbs.TeamAdd arguments.now [] result }
{
    let (organisation, team, user) = three(alloc, arguments)?;
    Ok(Action::TeamAdd {
        organisation,
        team,
        user,
    })
}

fn team_remove(alloc: Global, arguments: &[Text]) -> Result<Action, Stop>
    ensures { spec.asked verbs.TeamRemove arguments.now [] result }
{
    let (organisation, team, user) = three(alloc, arguments)?;
    Ok(Action::TeamRemove {
        organisation,
        team,
        user,
    })
}

fn grant(alloc: Global, arguments: &[Text]) -> Result<Action, Stop>
    ensures { spec.asked verbs.Grant arguments.now [] result }
{
    let (organisation, team, package, grant) = four(alloc, arguments)?;
    Ok(Action::Grant {
        organisation,
        team,
        package,
        grant,
    })
}

fn revoke(alloc: Global, arguments: &[Text]) -> Result<Action, Stop>
    ensures { spec.asked verbs.Revoke arguments.now [] result }
{
    let (organisation, team, package) = three(alloc, arguments)?;
    Ok(Action::Revoke {
        organisation,
        team,
        package,
    })
}

fn set_access(alloc: Global, arguments: &[Text]) -> Result<Action, Stop>
    ensures { spec.asked verbs.SetAccess arguments.now [] result }
{
    let (package, status) = two(alloc, arguments)?;
    Ok(Action::SetAccess { package, status })
}

fn owner_add(alloc: Global, arguments: &[Text]) -> Result<Action, Stop>
    ensures { spec.asked verbs.OwnerAdd arguments.now [] result }
{
    let (package, user) = two(alloc, arguments)?;
    Ok(Action::OwnerAdd { package, user })
}

fn owner_remove(alloc: Global, arguments: &[Text]) -> Result<Action, Stop>
    ensures { spec.asked verbs.OwnerRemove arguments.now [] result }
{
    let (package, user) = two(alloc, arguments)?;
    Ok(Action::OwnerRemove { package, user })
}

fn publish(alloc: Global, body: &[u8]) -> Result<Action, Stop>
    ensures { spec.asked verbs.Publish [] body.now result }
{
    let form = PublishForm::read(alloc, body)?;
    Ok(Action::Publish { form })
}

fn tag_set(alloc: Global, arguments: &[Text]) -> Result<Action, Stop>
    ensures { spec.asked verbs.TagSet arguments.now [] result }
{
    let (package, tag, version) = three(alloc, arguments)?;
    Ok(Action::TagSet {
        package,
        tag,
        version,
    })
}

fn tag_remove(alloc: Global, arguments: &[Text]) -> Result<Action, Stop>
    ensures { spec.asked verbs.TagRemove arguments.now [] result }
{
    let (package, tag) = two(alloc, arguments)?;
    Ok(Action::TagRemove { package, tag })
}

fn deprecate(alloc: Global, arguments: &[Text]) -> Result<Action, Stop>
    ensures { spec.asked verbs.Deprecate arguments.now [] result }
{
    let (package, selector, message) = three(alloc, arguments)?;
    Ok(Action::Deprecate {
        package,
        selector,
        message,
    })
}

fn withdraw(alloc: Global, arguments: &[Text]) -> Result<Action, Stop>
    ensures { spec.asked verbs.Withdraw arguments.now [] result }
{
    let (package, version) = two(alloc, arguments)?;
    Ok(Action::Withdraw { package, version })
}

fn withdraw_all(alloc: Global, arguments: &[Text]) -> Result<Action, Stop>
    ensures { spec.asked verbs.WithdrawAll arguments.now [] result }
{
    let package = one(alloc, arguments)?;
    Ok(Action::WithdrawAll { package })
}

fn packument(alloc: Global, arguments: &[Text]) -> Result<Action, Stop>
    ensures { spec.asked verbs.Packument arguments.now [] result }
{
    let package = one(alloc, arguments)?;
    Ok(Action::Packument { package })
}

fn abbreviated_packument(alloc: Global, arguments: &[Text]) -> Result<Action, Stop>
    ensures { spec.asked verbs.AbbreviatedPackument arguments.now [] result }
{
    let package = one(alloc, arguments)?;
    Ok(Action::AbbreviatedPackument { package })
}

fn version_doc(alloc: Global, arguments: &[Text]) -> Result<Action, Stop>
    ensures { spec.asked verbs.VersionDoc arguments.now [] result }
{
    let (package, version) = two(alloc, arguments)?;
    Ok(Action::VersionDoc { package, version })
}

fn archive(alloc: Global, arguments: &[Text]) -> Result<Action, Stop>
    ensures { spec.asked verbs.Archive arguments.now [] result }
{
    let (package, version) = two(alloc, arguments)?;
    Ok(Action::Archive { package, version })
}

fn tags(alloc: Global, arguments: &[Text]) -> Result<Action, Stop>
    ensures { spec.asked verbs.Tags arguments.now [] result }
{
    let package = one(alloc, arguments)?;
    Ok(Action::Tags { package })
}

fn maintainers(alloc: Global, arguments: &[Text]) -> Result<Action, Stop>
    ensures { spec.asked verbs.Maintainers arguments.now [] result }
{
    let package = one(alloc, arguments)?;
    Ok(Action::Maintainers { package })
}

fn members(alloc: Global, arguments: &[Text]) -> Result<Action, Stop>
    ensures { spec.asked verbs.Members arguments.now [] result }
{
    let organisation = one(alloc, arguments)?;
    Ok(Action::Members { organisation })
}

fn teams(alloc: Global, arguments: &[Text]) -> Result<Action, Stop>
    ensures { spec.asked verbs.Teams arguments.now [] result }
{
    let organisation = one(alloc, arguments)?;
    Ok(Action::Teams { organisation })
}

fn team_members(alloc: Global, arguments: &[Text]) -> Result<Action, Stop>
    ensures { spec.asked verbs.TeamMembers arguments.now [] result }
{
    let (organisation, team) = two(alloc, arguments)?;
    Ok(Action::TeamMembers { organisation, team })
}

fn team_packages(alloc: Global, arguments: &[Text]) -> Result<Action, Stop>
    ensures { spec.asked verbs.TeamPackages arguments.now [] result }
{
    let (organisation, team) = two(alloc, arguments)?;
    Ok(Action::TeamPackages { organisation, team })
}

fn org_packages(alloc: Global, arguments: &[Text]) -> Result<Action, Stop>
    ensures { spec.asked verbs.OrgPackages arguments.now [] result }
{
    let organisation = one(alloc, arguments)?;
    Ok(Action::OrgPackages { organisation })
}
