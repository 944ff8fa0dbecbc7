//! What whoever runs the registry asks for beside requests.

use crate::outcome::same;
use crate::parts::{shown, text, words};
use registry_cli::{Errand, errand_of, line};

// Arguments; ` => ` and what `Debug` shows of what they ask for, or how that begins. Lines, and arguments
// that are wrong as requests, are no errands: `Ok(None)`.
const READ: &str =
    r#"--db r.db --at 7 --operator token-new ann => Ok(Some(TokenNew(NewToken { db: Text { string: "r.db" }, existing: false, who: Operator, at: Some(Moment { seconds: 7 }), user: Text { string: "ann" } })))
--existing token-new ann => Ok(Some(TokenNew(NewToken { db: Text { string: "registry.db" }, existing: true, who: Anonymous, at: None, user: Text { string: "ann" } })))
--db r.db init => Ok(Some(Init { db: Text { string: "r.db" } }))
--existing --db r.db init => Ok(Some(Init { db: Text { string: "r.db" } }))
check => Ok(Some(Check { db: Text { string: "registry.db" } }))
--db r.db backup copy.db => Ok(Some(Backup { db: Text { string: "r.db" }, copy: Text { string: "copy.db" }, checks: true }))
--db r.db backup copy.db --no-check => Ok(Some(Backup { db: Text { string: "r.db" }, copy: Text { string: "copy.db" }, checks: false }))
--db r.db restore copy.db => Ok(Some(Restore { db: Text { string: "r.db" }, copy: Text { string: "copy.db" }, checks: true }))
--db r.db restore copy.db --no-check => Ok(Some(Restore { db: Text { string: "r.db" }, copy: Text { string: "copy.db" }, checks: false }))
--db r.db stop => Ok(Some(Stop { db: Text { string: "r.db" } }))
--db r.db serve --port 81 --log l => Ok(Some(Serve(Serving { line: Line { db: Text { string: "r.db" }, existing: false, who: Anonymous, at: None, what: Arguments { texts: [Text { string: "serve" }, Text { string: "81" }, Text { string: "1000000" }] } }, has_port: true, socket: None, log: Some(Text { string: "l" }), answers_npm: false })))
serve --socket s => Ok(Some(Serve(Serving { line: Line { db: Text { string: "registry.db" }, existing: false, who: Anonymous, at: None, what: Arguments { texts: [Text { string: "serve" }, Text { string: "8080" }, Text { string: "1000000" }] } }, has_port: false, socket: Some(Text { string: "s" }), log: None, answers_npm: false })))
serve --socket s --log l => Ok(Some(Serve(Serving { line: Line { db: Text { string: "registry.db" }, existing: false, who: Anonymous, at: None, what: Arguments { texts: [Text { string: "serve" }, Text { string: "8080" }, Text { string: "1000000" }] } }, has_port: false, socket: Some(Text { string: "s" }), log: Some(Text { string: "l" }), answers_npm: false })))
serve --port 81 --socket s => Ok(Some(Serve(Serving { line: Line { db: Text { string: "registry.db" }, existing: false, who: Anonymous, at: None, what: Arguments { texts: [Text { string: "serve" }, Text { string: "81" }, Text { string: "1000000" }] } }, has_port: true, socket: Some(Text { string: "s" }), log: None, answers_npm: false })))
serve --log l => Ok(Some(Serve(Serving { line: Line { db: Text { string: "registry.db" }, existing: false, who: Anonymous, at: None, what: Arguments { texts: [Text { string: "serve" }, Text { string: "8080" }, Text { string: "1000000" }] } }, has_port: true, socket: None, log: Some(Text { string: "l" }), answers_npm: false })))
serve --npm => Ok(Some(Serve(Serving { line: Line { db: Text { string: "registry.db" }, existing: false, who: Anonymous, at: None, what: Arguments { texts: [Text { string: "serve" }, Text { string: "8080" }, Text { string: "1000000" }] } }, has_port: true, socket: None, log: None, answers_npm: true })))
serve --npm --port 81 --log l => Ok(Some(Serve(Serving { line: Line { db: Text { string: "registry.db" }, existing: false, who: Anonymous, at: None, what: Arguments { texts: [Text { string: "serve" }, Text { string: "81" }, Text { string: "1000000" }] } }, has_port: true, socket: None, log: Some(Text { string: "l" }), answers_npm: true })))
--db r.db --existing serve --npm => Ok(Some(Serve(Serving { line: Line { db: Text { string: "r.db" }, existing: true, who: Anonymous, at: None, what: Arguments { texts: [Text { string: "serve" }, Text { string: "8080" }, Text { string: "1000000" }] } }, has_port: true, socket: None, log: None, answers_npm: true })))
tags kit => Ok(None)
serve => Ok(None)
serve 8080 => Ok(None)
serve --port 0 => Ok(None)
tags kit --log l => Ok(None)
tags kit --npm => Ok(None)
--existing tags kit => Ok(None)
tags --existing kit => Ok(None)
--existing serve => Ok(None)
tags => Ok(None)
--help => Ok(None)
checks => Ok(None)
check more => Err(Words(Text { string: "error: unexpected argument 'more' found
backup => Err(Words(Text { string: "error: the following required arguments
init r.db => Err(Words(Text { string: "error: unexpected argument 'r.db' found
init --existing => Err(Words(Text { string: "error: unexpected argument '--existing' found
stop now => Err(Words(Text { string: "error: unexpected argument 'now' found
check --help => Err(Words(Text { string: "Check that all that the file holds
--at x check => Err(Words(Text { string: "error: invalid value 'x' for '--at <SECONDS>'
--as ann --operator check => Err(Words(Text { string: "--as excludes --operator
serve --log => Err(Words(Text { string: "error: a value is required for '--log <LOG>'
serve --log l --port 0 => Err(Words(Text { string: "error: invalid value '0' for '--port <PORT>'
serve --log l --help => Err(Words(Text { string: "Serve npm over HTTP at a Unix socket, with a log of the requests,
serve --log --npm => Err(Words(Text { string: "error: a value is required for '--log <LOG>'
serve --npm=yes => Err(Words(Text { string: "error: unexpected value 'yes' for '--npm' found"#;

#[test]
fn errands_are_read(rt: HostRuntime) {
    for told in READ.lines() {
        let (arguments, wanted) = told.split_once(" => ").expect(&rt, told);
        let errand = errand_of(rt.alloc(), &words(&rt, rt.alloc(), arguments));
        let came_out = shown(&rt, rt.alloc(), &errand);
        let front = came_out.as_str().get(..wanted.len());
        same(&rt, told, front, Some(wanted));
    }
}

const TOKEN: &str = "npm_000102030405060708090a0b0c0d0e0f7f80abff";

// Tokens that are made, whoever asks, for any user and at any moment. Two of the arguments of the fourth
// line are empty.
const MADE: &str = "--operator token-new ann
--at 253402300799 --as ann token-new bob
--as=-x=y --at=0 token-new -- -a
--as  token-new 
token-new -- --";

#[test]
fn a_server_is_asked_for_the_same_line(rt: HostRuntime) {
    let alloc = rt.alloc();
    for arguments in MADE.lines() {
        let Ok(Some(Errand::TokenNew(new))) = errand_of(alloc, &words(&rt, alloc, arguments)) else {
            panic!(rt; "{arguments:?} make no token");
        };
        let words = new.arguments(alloc, TOKEN).expect(&rt, "memory");
        let Ok(asked) = line(alloc, &words) else {
            panic!(rt; "{words:?} mean nothing");
        };
        let wanted = new
            .line(alloc, text(&rt, alloc, TOKEN))
            .expect(&rt, "memory");
        let asked = shown(&rt, alloc, &asked);
        let wanted = shown(&rt, alloc, &wanted);
        same(&rt, arguments, asked.as_str(), wanted.as_str());
    }
}
