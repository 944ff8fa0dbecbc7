//! A check of a registry whose rows something else changed.

use super::{DONE, begin, end, leaves};
use crate::tests::at_path::change;

/// An organisation that nobody owns, and that has no team.
const CHANGE: &str = "INSERT INTO orgs (name) VALUES ('lab')";

/// The team `developers` of lab is granted reading on a package without a scope, so that the file
/// doesn't open any more.
const GRANTED: &str =
    "INSERT INTO teams (org, team) VALUES ('lab', 'developers'); INSERT INTO packages (name, status) VALUES ('kit', 1); INSERT INTO grants (org, team, package, level) VALUES ('lab', 'developers', 'kit', 1)";

/// What a check prints of the first.
const BROKEN: &str =
    "wrong: organisation lab has no owner\nwrong: organisation lab has no team developers\n";

/// What it prints of both.
const EXPLAINED: &str =
    "wrong: organisation lab has no owner\nwrong: package kit has no scope and no maintainer\nwrong: grant of kit to team developers of lab is on a package of another scope\n";

const FOREIGN: &str =
    "fault: Database\nthe file holds no registry, or was changed by another hand\n";

const PATH: &str = "files_of_checks/registry.db";

const CHECK: &str = "--db files_of_checks/registry.db check";

const ADD_ANN: &str = "--db files_of_checks/registry.db --operator user-add ann";

const ADD_BOB: &str = "--db files_of_checks/registry.db --operator user-add bob";

#[test]
fn what_is_wrong_has_a_line(rt: HostRuntime) {
    begin(&rt, &rt, "files_of_checks");
    leaves(&rt, &rt, ADD_ANN, DONE);
    leaves(&rt, &rt, CHECK, DONE);
    change(&rt, &rt, PATH, CHANGE);
    leaves(&rt, &rt, CHECK, (1, "", BROKEN));
    change(&rt, &rt, PATH, GRANTED);
    leaves(&rt, &rt, ADD_BOB, (3, "", FOREIGN));
    leaves(&rt, &rt, CHECK, (1, "", EXPLAINED));
    end(&rt, "files_of_checks");
}
