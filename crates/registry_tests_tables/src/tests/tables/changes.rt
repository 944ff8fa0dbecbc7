//! Changes that lines ask for.

use super::asked::Asked;
use registry_access::Role;
use registry_rules::Change;
use std::process::Abort;

/// The change that a line asks for, if it asks for one.
pub fn change_of<'a>(rt: &impl Abort, asked: &'a Asked<'a>) -> Option<Change<'a>> {
    let [_, organisation, team, _, _, _] = asked.words;
    let change = match asked.verb {
        "user" => Change::AddUser {
            user: asked.user(rt),
        },
        "organisation" => Change::AddOrg { organisation },
        "member" => Change::PutMember {
            organisation,
            user: asked.user(rt),
            role: Role::Developer,
        },
        "team" => Change::AddTeam { organisation, team },
        "team-member" => Change::PutTeamMember {
            organisation,
            team,
            user: asked.user(rt),
        },
        "token" => Change::AddToken {
            digest: &asked.digest,
            user: asked.user(rt),
        },
        "drop-token" => Change::DropToken {
            digest: &asked.digest,
        },
        _ => return change_of_package(rt, asked),
    };
    Some(change)
}

fn change_of_package<'a>(rt: &impl Abort, asked: &'a Asked<'a>) -> Option<Change<'a>> {
    let [_, _, organisation, team, _, _] = asked.words;
    let change = match asked.verb {
        "status" => Change::PutStatus {
            package: asked.name(rt),
            status: asked.status(rt),
        },
        "grant" => Change::PutGrant {
            organisation,
            team,
            package: asked.name(rt),
            grant: asked.grant(rt),
        },
        "drop-grant" => Change::DropGrant {
            organisation,
            team,
            package: asked.name(rt),
        },
        "maintainer" => Change::PutOwner {
            package: asked.name(rt),
            user: asked.user(rt),
        },
        "drop-maintainer" => Change::DropOwner {
            package: asked.name(rt),
            user: asked.user(rt),
        },
        _ => return change_of_versions(rt, asked),
    };
    Some(change)
}

fn change_of_versions<'a>(rt: &impl Abort, asked: &'a Asked<'a>) -> Option<Change<'a>> {
    let [_, _, third, fourth, _, _] = asked.words;
    let change = match asked.verb {
        "add" => Change::AddVersion {
            form: asked.form(rt),
            at: &asked.at,
        },
        "retire" => Change::RetireVersion {
            package: asked.name(rt),
            version: asked.version(rt),
            published: &asked.at,
            withdrawn: &asked.until,
        },
        "deprecate" => Change::PutDeprecation {
            package: asked.name(rt),
            version: asked.version(rt),
            message: asked.message(rt),
        },
        "tag" => Change::PutTag {
            package: asked.name(rt),
            tag: fourth,
            version: asked.version(rt),
        },
        "drop-tag" => Change::DropTag {
            package: asked.name(rt),
            tag: third,
        },
        _ => return None,
    };
    Some(change)
}
