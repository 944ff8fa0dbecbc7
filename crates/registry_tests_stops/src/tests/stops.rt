//! A stop at each call of the database file, and at each of its log, while commands are answered one
//! after another, and while groups of them are answered together. After some of them the open that
//! follows stops at each of its calls, too.

use crate::asking::{Asks, First, answered, requests};
use crate::disks::{Kept, Leaves, NEVER, Stop, Stopping, Visit, visited};
use crate::outcome::same;
use crate::requests::COMMANDS;
use registry_desk::Registry;
use registry_rules::{Reply, Request};
use registry_tests_requests::{Outcome, QUERIES, outcome_of, outcomes_of};
use sqlite::Alter;
use std::alloc::Global;
use std::env;
use std::process::Abort;

/// More calls than any run makes of one file.
const MOST_CALLS: u64 = 10_000;

/// After one of this many stops the next open also stops where commands are asked one by one, unless
/// the environment says otherwise.
const EVERY: u64 = 32;

/// How many commands are answered together, so that there are seven groups of them.
const TOGETHER: usize = 4;

/// What is asked, and what a registry in memory answers, which never stops and is asked one command
/// after another.
struct Story {
    commands: Vec<Request>,
    queries: Vec<Request>,
    /// How many commands are answered together: a group. It is 1 where each is asked alone.
    group: usize,
    /// The outcome of each command.
    replies: Vec<Outcome>,
    /// The outcome of each command where its group is asked again. After that the registry is as
    /// before.
    again: Vec<Outcome>,
    /// What the queries show before the first command, and after each.
    shown: Vec<Vec<Outcome>>,
}

// Written out, so that dropping one is one call, not one for each part.
impl Drop for Story {
    fn drop(self) {
        let Story {
            commands: _,
            queries: _,
            group: _,
            replies: _,
            again: _,
            shown: _,
        } = self;
    }
}

impl Story {
    // What is asked after this many commands.
    fn rest(&self, commands: usize) -> Asks<'_> {
        let rest = self.commands.get(commands..).unwrap_or(&[]);
        match self.group {
            1 => Asks::InTurn(rest),
            count => Asks::Together(count, rest),
        }
    }

    // How many commands are answered once this many are, and one more group.
    fn next(&self, commands: usize) -> usize {
        commands.saturating_add(self.group).min(self.commands.len())
    }

    // Whether these are what the queries show after this many commands.
    fn shows(&self, commands: usize, outcomes: &[Outcome]) -> bool {
        match self.shown.get(commands) {
            Some(shown) => shown.as_slice() == outcomes,
            None => false,
        }
    }

    // Whether the stopped group is answered as in memory: as for the first time where it wasn't
    // done, and as when it is asked again where it was. After the last command there is none.
    fn is_told_again(&self, answered: usize, shown: (bool, bool), replies: &[Outcome]) -> bool {
        let (is_before, is_after) = shown;
        let next = self.next(answered);
        let is_first = self.replies.get(answered..next) == Some(replies);
        let is_again = self.again.get(answered..next) == Some(replies);
        (is_before && is_first) || (is_after && is_again)
    }
}

/// The stops that were made.
#[derive(Drop)]
struct Made {
    /// For each stop, how many commands were answered before it.
    stopped: Vec<usize>,
    /// How many stops came in the open after one of these.
    in_opens: u64,
}

#[test]
fn a_lost_database_file_loses_no_answer(rt: HostRuntime) {
    no_stop_loses_an_answer(&rt, &rt, 1, Stopping::Database, Leaves::Synced);
}

#[test]
fn a_lost_log_loses_no_answer(rt: HostRuntime) {
    no_stop_loses_an_answer(&rt, &rt, 1, Stopping::Log, Leaves::Synced);
}

#[test]
fn a_loss_of_both_files_loses_no_answer(rt: HostRuntime) {
    no_stop_loses_an_answer(&rt, &rt, 1, Stopping::Both, Leaves::Synced);
}

#[test]
fn a_kill_loses_no_answer(rt: HostRuntime) {
    no_stop_loses_an_answer(&rt, &rt, 1, Stopping::Both, Leaves::Written);
}

#[test]
fn a_kill_at_the_database_file_loses_no_answer(rt: HostRuntime) {
    no_stop_loses_an_answer(&rt, &rt, 1, Stopping::Database, Leaves::Written);
}

#[test]
fn a_kill_at_the_log_loses_no_answer(rt: HostRuntime) {
    no_stop_loses_an_answer(&rt, &rt, 1, Stopping::Log, Leaves::Written);
}

#[test]
fn a_lost_database_file_loses_no_group(rt: HostRuntime) {
    no_stop_loses_an_answer(&rt, &rt, TOGETHER, Stopping::Database, Leaves::Synced);
}

#[test]
fn a_loss_of_both_files_loses_no_group(rt: HostRuntime) {
    no_stop_loses_an_answer(&rt, &rt, TOGETHER, Stopping::Both, Leaves::Synced);
}

#[test]
fn a_kill_loses_no_group(rt: HostRuntime) {
    no_stop_loses_an_answer(&rt, &rt, TOGETHER, Stopping::Both, Leaves::Written);
}

// Lets a file stop at its first call, at its second, and so on, until a run ends without a stop,
// and prints how many stops there were. So many commands are answered together. Each group of which
// one command isn't refused writes the log, so where the log stops, some run stops each of them.
fn no_stop_loses_an_answer(
    rt: &HostRuntime,
    ends: &impl Abort,
    group: usize,
    stopping: Stopping,
    leaves: Leaves,
) {
    let story = story_in_memory(ends, rt.alloc(), group);
    let stop = Stop {
        stopping,
        calls: 0,
        leaves,
    };
    let made = stops_made(ends, rt.alloc(), &story, every(rt, group), stop);
    let (count, in_opens) = (made.stopped.len(), made.in_opens);
    let _ = eprintln!(rt; "{count} stops, and {in_opens} of opens after a stop");
    are_wanted(ends, &story, stopping, &made.stopped);
}

// After one of this many stops the next open also stops. In `make stops`, `STOPS_EVERY` gives the
// number. Otherwise it is greater for groups, since their opens have more calls.
fn every(rt: &HostRuntime, group: usize) -> u64 {
    let usual = EVERY.saturating_mul(group as u64);
    match env::var(rt, "STOPS_EVERY") {
        Ok(text) => text.as_str().parse::<u64>().unwrap_or(usual),
        Err(_) => usual,
    }
}

// Makes all stops.
fn stops_made(ends: &impl Abort, alloc: Global, story: &Story, every: u64, stop: Stop) -> Made {
    let mut made = Made {
        stopped: Vec::new(alloc),
        in_opens: 0,
    };
    for calls in 0..MOST_CALLS {
        let stop = Stop { calls, ..stop };
        if !is_stopped(ends, alloc, story, every, stop, &mut made) {
            return made;
        }
    }
    panic!(ends; "it stops after {MOST_CALLS} calls, too")
}

// Whether a run is stopped. A registry goes on from what it leaves. If the next open is to stop as well,
// it stops first.
fn is_stopped(
    ends: &impl Abort,
    alloc: Global,
    story: &Story,
    every: u64,
    stop: Stop,
    made: &mut Made,
) -> bool {
    let lists = [story.rest(0)];
    let visit = Visit::Asks(First::Nothing, &lists);
    let (came, left) = visited(ends, alloc, &Kept::nothing(alloc), stop, visit);
    let answered = answered(&came.outcomes);
    let is_stopped = !came.is_whole || answered < story.commands.len();
    if is_stopped {
        made.stopped.push(answered).expect(ends, "memory");
        if stop.calls.checked_rem(every) == Some(0) {
            let count = stops_of_open(ends, alloc, story, stop, answered, &left);
            made.in_opens = made.in_opens.saturating_add(count);
        }
    }
    goes_on(ends, alloc, story, stop.calls, answered, &left);
    is_stopped
}

// How many stops an open of what a stop left has. After each of them, and where there is none, the
// registry shows what the first stop left.
fn stops_of_open(
    ends: &impl Abort,
    alloc: Global,
    story: &Story,
    stop: Stop,
    answered: usize,
    left: &Kept,
) -> u64 {
    for calls in 0..MOST_CALLS {
        let stop = Stop { calls, ..stop };
        let (is_open, left) = shows_left(ends, alloc, story, stop, answered, left);
        if is_open {
            return calls;
        }
        let (is_open, _) = shows_left(ends, alloc, story, NEVER, answered, &left);
        same(ends, (calls, "opens after a second stop"), is_open, true);
    }
    panic!(ends; "an open stops after {MOST_CALLS} calls, too")
}

// Whether a registry opens from the files, and then shows what this many answered commands made, or one
// more group; and what a stop leaves of them.
fn shows_left(
    ends: &impl Abort,
    alloc: Global,
    story: &Story,
    stop: Stop,
    answered: usize,
    kept: &Kept,
) -> (bool, Kept) {
    let lists = [Asks::InTurn(story.queries.as_slice())];
    let visit = Visit::Asks(First::Checked, &lists);
    let (came, left) = visited(ends, alloc, kept, stop, visit);
    let is_open = came.unopened.is_none();
    if is_open {
        let _shown = seen(ends, stop.calls, story, answered, &came.outcomes);
    }
    (is_open, left)
}

// What is shown: what this many commands made, or one more group, and nothing between.
fn seen(
    ends: &impl Abort,
    calls: u64,
    story: &Story,
    answered: usize,
    outcomes: &[Outcome],
) -> (bool, bool) {
    let is_before = story.shows(answered, outcomes);
    let is_after = story.shows(story.next(answered), outcomes);
    same(ends, (calls, "what is shown"), is_before || is_after, true);
    (is_before, is_after)
}

// A registry opens from the files. It shows what this many answered commands made, or one more group,
// and answers the commands that follow as in memory.
fn goes_on(
    ends: &impl Abort,
    alloc: Global,
    story: &Story,
    calls: u64,
    answered: usize,
    left: &Kept,
) {
    let queries = Asks::InTurn(story.queries.as_slice());
    let lists = [queries, story.rest(answered), queries];
    let visit = Visit::Asks(First::Checked, &lists);
    let (came, _) = visited(ends, alloc, left, NEVER, visit);
    same(ends, (calls, "opens"), came.unopened.is_none(), true);
    went_on(ends, calls, story, answered, &came.outcomes);
}

// Checks the outcomes of the queries, of the stopped group and those that follow, and of the
// queries again.
fn went_on(ends: &impl Abort, calls: u64, story: &Story, answered: usize, outcomes: &[Outcome]) {
    let count = story.queries.len();
    let (first, rest) = outcomes.split_at_checked(count).expect(ends, "queries");
    let shown = seen(ends, calls, story, answered, first);
    let middle = rest.len().saturating_sub(count);
    let (replies, last) = rest.split_at_checked(middle).expect(ends, "queries");
    let next = story.next(answered);
    let stopped = next.saturating_sub(answered);
    let (again, follow) = replies.split_at_checked(stopped).expect(ends, "replies");
    let is_told = story.is_told_again(answered, shown, again);
    same(ends, (calls, "the stopped group"), is_told, true);
    let are_told = story.replies.get(next..) == Some(follow);
    same(ends, (calls, "the commands that follow"), are_told, true);
    let is_end = story.shows(story.commands.len(), last);
    same(ends, (calls, "the end"), is_end, true);
}

// Checks that the stops came where they are wanted. A group writes the log, and only a checkpoint
// writes the database file: there some run is stopped between the first and the last of its commands.
fn are_wanted(ends: &impl Abort, story: &Story, stopping: Stopping, stopped: &[usize]) {
    match stopping {
        Stopping::Database => {
            let is_between = is_one_between(story.commands.len(), stopped);
            same(ends, "a stop is between two commands", is_between, true);
        }
        Stopping::Log | Stopping::Both => are_all_stopped(ends, story, stopped),
    }
}

fn is_one_between(commands: usize, stopped: &[usize]) -> bool {
    for answered in stopped {
        if 0 < *answered && *answered < commands {
            return true;
        }
    }
    false
}

// Each group of which one command isn't refused was stopped in some run.
fn are_all_stopped(ends: &impl Abort, story: &Story, stopped: &[usize]) {
    let mut first = 0;
    for group in story.replies.chunks(story.group.max(1)) {
        let is_stopped = are_refused(group) || stopped.contains(&first);
        same(ends, (first, "stopped"), is_stopped, true);
        first = story.next(first);
    }
}

fn are_refused(group: &[Outcome]) -> bool {
    for reply in group {
        if !matches!(reply, Ok(Reply::Refused(_))) {
            return false;
        }
    }
    true
}

// What is asked, in groups of so many commands, and what a registry in memory answers.
fn story_in_memory(ends: &impl Abort, alloc: Global, group: usize) -> Story {
    let mut registry = Registry::in_memory(alloc).expect(ends, "a registry");
    let mut story = Story {
        commands: requests(ends, alloc, COMMANDS),
        queries: requests(ends, alloc, QUERIES),
        group,
        replies: Vec::new(alloc),
        again: Vec::new(alloc),
        shown: Vec::new(alloc),
    };
    let commands = requests(ends, alloc, COMMANDS);
    push_all(ends, alloc, &mut registry, &commands, &mut story);
    story
}

fn push_all<S: Alter>(
    ends: &impl Abort,
    alloc: Global,
    registry: &mut Registry<S>,
    commands: &[Request],
    story: &mut Story,
) {
    push_shown(ends, alloc, registry, story);
    for group in commands.chunks(story.group.max(1)) {
        push_answers(ends, alloc, registry, group, story);
        let again = outcomes_of(alloc, registry, group).expect(ends, "memory");
        story.again.extend(again).expect(ends, "memory");
    }
}

// Adds the outcome of each command of a group, and what the queries show after it.
fn push_answers<S: Alter>(
    ends: &impl Abort,
    alloc: Global,
    registry: &mut Registry<S>,
    commands: &[Request],
    story: &mut Story,
) {
    for command in commands {
        let outcome = outcome_of(alloc, registry, command);
        story.replies.push(outcome).expect(ends, "memory");
        push_shown(ends, alloc, registry, story);
    }
}

fn push_shown<S: Alter>(
    ends: &impl Abort,
    alloc: Global,
    registry: &mut Registry<S>,
    story: &mut Story,
) {
    let outcomes = outcomes_of(alloc, registry, &story.queries).expect(ends, "memory");
    story.shown.push(outcomes).expect(ends, "memory");
}
