//! Command lines that no story calls: those that ask to serve, and the line without arguments, for
//! which the program reads standard input instead.

use crate::outcome::same;
use crate::parts::words;
use registry_cli::{Line, Usage, Who, line};
use registry_names::Moment;
use std::alloc::Global;
use std::process::Abort;

// Arguments; ` => ` and what they mean: the file, whether it has to be there, who asks, when, and what.
const LINES: &str = "serve => registry.db; false; nobody; None; serve 8080 1000000
--existing serve => registry.db; true; nobody; None; serve 8080 1000000
--existing --db serve serve => serve; true; nobody; None; serve 8080 1000000
--db=--existing serve => --existing; false; nobody; None; serve 8080 1000000
serve --port 1 => registry.db; false; nobody; None; serve 1 1000000
serve --connections 1000000 --port 65535 => registry.db; false; nobody; None; serve 65535 1000000
serve --connections=1 => registry.db; false; nobody; None; serve 8080 1
--operator --at 5 serve => registry.db; false; the operator; Some(5); serve 8080 1000000";

fn means(rt: &impl Abort, alloc: Global, line: &Line, wanted: &str) {
    let who = match &line.who {
        Who::Operator => "the operator",
        Who::User(name) => name.as_str(),
        Who::Anonymous => "nobody",
    };
    let (db, at) = (line.db.as_str(), line.at.map(Moment::seconds));
    let existing = line.existing;
    let mut meant = format!(in alloc; "{db}; {existing}; {who}; {at:?};").expect(rt, "memory");
    for argument in line.what.as_slice() {
        meant.push(' ').expect(rt, "memory");
        meant.push_str(argument.as_str()).expect(rt, "memory");
    }
    same(rt, wanted, meant.as_str(), wanted);
    same(rt, wanted, line.asks_to_serve(), true);
}

#[test]
fn lines_that_ask_to_serve(rt: HostRuntime) {
    for told in LINES.lines() {
        let (arguments, wanted) = told.split_once(" => ").expect(&rt, told);
        match line(rt.alloc(), &words(&rt, rt.alloc(), arguments)) {
            Ok(line) => means(&rt, rt.alloc(), &line, wanted),
            Err(_) => panic!(rt; "{arguments:?} means nothing"),
        }
    }
}

const NO_SUBCOMMAND: &str = "error: 'registry' requires a subcommand but one was not provided";

#[test]
fn a_line_without_arguments(rt: HostRuntime) {
    match line(rt.alloc(), &Vec::new(rt.alloc())) {
        Err(Usage::Words(said)) => {
            let said = said.as_str();
            let is_said = said.starts_with(NO_SUBCOMMAND) && said.ends_with('\n');
            assert!(rt; is_said, "{said:?} doesn't begin as {NO_SUBCOMMAND:?}");
        }
        _ => panic!(rt; "nothing is said of a line without arguments"),
    }
}
