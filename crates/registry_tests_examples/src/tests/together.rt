//! Commands that are answered together in groups: each has the outcome that it has alone, and all leave
//! the same rows.

use crate::outcome::same;
use crate::tests::asking::requests;
use crate::tests::both_ways::{are_wanted, push_told};
use crate::tests::lists::{ACTIONS, LAB_KIT, SHARED};
use registry_desk::Registry;
use registry_rules::Request;
use registry_service::is_command;
use registry_tests_requests::{Outcome, outcomes_of, outcomes_together};
use sqlite::{Alter, Connection};
use std::alloc::Global;
use std::process::Abort;

/// How many commands a group has. The greatest number is more than any test asks.
const SIZES: [usize; 4] = [1, 2, 7, 1_000_000];

/// The rows of all tables.
const ROWS: [&str; 18] = [
    "SELECT * FROM meta ORDER BY name",
    "SELECT * FROM users ORDER BY name",
    "SELECT * FROM tokens ORDER BY digest",
    "SELECT * FROM orgs ORDER BY name",
    "SELECT * FROM members ORDER BY org, user",
    "SELECT * FROM teams ORDER BY org, team",
    "SELECT * FROM team_members ORDER BY org, team, user",
    "SELECT * FROM packages ORDER BY name",
    "SELECT * FROM grants ORDER BY org, team, package",
    "SELECT * FROM owners ORDER BY package, user",
    "SELECT * FROM versions ORDER BY package, version",
    "SELECT * FROM spent ORDER BY package, version",
    "SELECT * FROM tags ORDER BY package, tag",
    "SELECT * FROM needs ORDER BY package, version, target",
    "SELECT * FROM need_ranges ORDER BY package, version, target, range",
    "SELECT * FROM held ORDER BY package, version",
    "SELECT * FROM archives ORDER BY id",
    "SELECT * FROM sqlite_sequence ORDER BY name",
];

/// What is asked one by one first, and then in groups.
#[derive(Drop)]
struct Asked {
    first: Vec<Request>,
    commands: Vec<Request>,
}

// Commands that find what earlier ones of their group made.
#[test]
fn each_command_of_a_group_is_answered_in_its_turn(rt: HostRuntime) {
    let mut asked = Asked {
        first: Vec::new(rt.alloc()),
        commands: Vec::new(rt.alloc()),
    };
    let mut wanted = Vec::new(rt.alloc());
    push_told(&rt, rt.alloc(), &mut asked.commands, &mut wanted, SHARED);
    let outcomes = in_all_groups(&rt, rt.alloc(), &asked);
    are_wanted(&rt, &outcomes, &wanted);
}

// Each caller asks for each command, after a package was published.
#[test]
fn every_command_is_answered_in_groups(rt: HostRuntime) {
    let mut asked = Asked {
        first: requests(&rt, rt.alloc(), LAB_KIT),
        commands: Vec::new(rt.alloc()),
    };
    for action in ACTIONS.lines() {
        push_commands(&rt, rt.alloc(), &mut asked.commands, action);
    }
    let _outcomes = in_all_groups(&rt, rt.alloc(), &asked);
}

// Adds the requests by which callers ask for an action, if it is a command.
fn push_commands(ends: &impl Abort, alloc: Global, commands: &mut Vec<Request>, action: &str) {
    let lines = format!(in alloc;
        "--at 300 --operator {action}\n--at 300 --as ann {action}\n--at 300 --as bob {action}\n--at 300 --as eve {action}\n--at 300 {action}\n"
    );
    let lines = lines.expect(ends, "memory");
    for request in requests(ends, alloc, lines.as_str()) {
        if is_command(&request.what) {
            commands.push(request).expect(ends, "memory");
        }
    }
}

// The outcomes of commands one by one, which are the same in groups of each size, as are the rows that
// they leave.
fn in_all_groups(ends: &impl Abort, alloc: Global, asked: &Asked) -> Vec<Outcome> {
    let (alone, rows) = answered(ends, alloc, asked, None);
    for size in SIZES {
        let (outcomes, left) = answered(ends, alloc, asked, Some(size));
        same(ends, ("how many", size), outcomes.len(), alone.len());
        for (place, (outcome, other)) in outcomes.iter().zip(&alone).enumerate() {
            same(ends, (size, place), outcome, other);
        }
        same(ends, ("the rows", size), left.as_str(), rows.as_str());
    }
    alone
}

// The outcomes of commands on a new registry, and its rows then. They are asked one by one, or in groups
// of a size.
fn answered(
    ends: &impl Abort,
    alloc: Global,
    asked: &Asked,
    size: Option<usize>,
) -> (Vec<Outcome>, String) {
    let mut registry = Registry::in_memory(alloc).expect(ends, "a registry");
    let _first = outcomes_of(alloc, &mut registry, &asked.first).expect(ends, "memory");
    let outcomes = match size {
        None => outcomes_of(alloc, &mut registry, &asked.commands).expect(ends, "memory"),
        Some(size) => in_groups(ends, alloc, &mut registry, &asked.commands, size),
    };
    (outcomes, rows_of(ends, alloc, &mut registry.release()))
}

fn in_groups<S: Alter>(
    ends: &impl Abort,
    alloc: Global,
    registry: &mut Registry<S>,
    commands: &[Request],
    size: usize,
) -> Vec<Outcome> {
    let mut outcomes = Vec::new(alloc);
    for group in commands.chunks(size.max(1)) {
        match outcomes_together(alloc, registry, group) {
            Ok(more) => outcomes.extend(more).expect(ends, "memory"),
            Err(_) => panic!(ends; "a group is not answered"),
        }
    }
    outcomes
}

// All rows, as text.
fn rows_of<S: Alter>(ends: &impl Abort, alloc: Global, connection: &mut Connection<S>) -> String {
    let mut text = String::new(alloc);
    for query in ROWS {
        let rows = connection.query_all(query, &[]).expect(ends, query);
        let shown = format!(in alloc; "{rows:?}\n").expect(ends, "memory");
        text.push_str(shown.as_str()).expect(ends, "memory");
    }
    text
}
