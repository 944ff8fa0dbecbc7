//! The rows of the registry of these tests.

use crate::parts::{field, text};
use registry_access::{
    AccessRows, Grant, GrantRow, MaintainerRow, MemberRow, PackageRow, Role, TeamMemberRow,
};
use registry_names::Status;
use std::alloc::Global;
use std::process::Abort;

// What the rows say: there is an organisation; a user is a member of an organisation, or in a team of
// one; a team of `lab` is granted something on a package; a package was published; and a user
// maintains one.
const FACTS: &str = "organisation inc
organisation lab
member inc eve owner
member lab amy admin
member lab ann owner
member lab bob developer
member lab dan developer
team inc ops eve
team lab developers bob
team lab ops bob
granted developers @lab/app read-only
granted developers @lab/kit read-write
granted ops @lab/app read-write
granted ops @lab/kit read-only
package @lab/app public
package @lab/kit restricted
package tool public
maintainer tool bob";

// Each of these adds a row in a function of its own, so that `add` owns none.
fn add_organisation(rt: &impl Abort, alloc: Global, rows: &mut AccessRows, name: &str) {
    let row = text(rt, alloc, name);
    rows.organisations.push(row).expect(rt, "memory");
}

fn add_member(rt: &impl Abort, alloc: Global, rows: &mut AccessRows, words: [&str; 3]) {
    let [organisation, user, role] = words;
    let row = MemberRow {
        organisation: text(rt, alloc, organisation),
        user: text(rt, alloc, user),
        role: Role::parse(role).expect(rt, role),
    };
    rows.members.push(row).expect(rt, "memory");
}

fn add_team_member(rt: &impl Abort, alloc: Global, rows: &mut AccessRows, words: [&str; 3]) {
    let [organisation, team, user] = words;
    let row = TeamMemberRow {
        organisation: text(rt, alloc, organisation),
        team: text(rt, alloc, team),
        user: text(rt, alloc, user),
    };
    rows.team_members.push(row).expect(rt, "memory");
}

fn add_grant(rt: &impl Abort, alloc: Global, rows: &mut AccessRows, words: [&str; 3]) {
    let [team, package, grant] = words;
    let row = GrantRow {
        organisation: text(rt, alloc, "lab"),
        team: text(rt, alloc, team),
        package: text(rt, alloc, package),
        grant: Grant::parse(grant).expect(rt, grant),
    };
    rows.grants.push(row).expect(rt, "memory");
}

fn add_package(rt: &impl Abort, alloc: Global, rows: &mut AccessRows, name: &str, status: &str) {
    let row = PackageRow {
        package: text(rt, alloc, name),
        status: Status::parse(status).expect(rt, status),
    };
    rows.packages.push(row).expect(rt, "memory");
}

fn add_maintainer(rt: &impl Abort, alloc: Global, rows: &mut AccessRows, name: &str, user: &str) {
    let row = MaintainerRow {
        package: text(rt, alloc, name),
        user: text(rt, alloc, user),
    };
    rows.maintainers.push(row).expect(rt, "memory");
}

fn add(rt: &impl Abort, alloc: Global, rows: &mut AccessRows, line: &str) {
    let first = field(line, ' ', 1);
    let second = field(line, ' ', 2);
    let third = field(line, ' ', 3);
    match field(line, ' ', 0) {
        "organisation" => add_organisation(rt, alloc, rows, first),
        "member" => add_member(rt, alloc, rows, [first, second, third]),
        "team" => add_team_member(rt, alloc, rows, [first, second, third]),
        "granted" => add_grant(rt, alloc, rows, [first, second, third]),
        "package" => add_package(rt, alloc, rows, first, second),
        _ => add_maintainer(rt, alloc, rows, first, second),
    }
}

pub(super) fn registry(rt: &impl Abort, alloc: Global) -> AccessRows {
    let mut rows = AccessRows {
        organisations: Vec::new(alloc),
        members: Vec::new(alloc),
        teams: Vec::new(alloc),
        team_members: Vec::new(alloc),
        grants: Vec::new(alloc),
        packages: Vec::new(alloc),
        maintainers: Vec::new(alloc),
    };
    for line in FACTS.lines() {
        add(rt, alloc, &mut rows, line);
    }
    rows
}
