//! What is asked for by documents that npm made of a packument, and by others.

use crate::outcome::same;
use crate::parts::{concat, string, texts};
use registry_cache::ContentDigest;
use registry_documents::{Asked, Document, Present, Revision, front, judge};
use registry_names::{Stop, Text};
use std::alloc::Global;
use std::process::Abort;

/// A packument.
pub const TOOL: &str =
    r#"{"_id":"tool","dist-tags":{"latest":"1.2.0","next":"2.0.0-beta.1"},"name":"tool","time":{"1.0.0":"1970-01-01T00:00:01.000Z","1.1.0":"1970-01-01T00:00:02.000Z","1.2.0":"1970-01-01T00:00:03.000Z","2.0.0-beta.1":"1970-01-01T00:00:04.000Z","created":"1970-01-01T00:00:01.000Z","modified":"1970-01-01T00:00:04.000Z"},"versions":{"1.0.0":{"dist":{"size":9007199254740993,"tarball":"http://h/tool-1.0.0.tgz"},"name":"tool"},"1.1.0":{"deprecated":"old","name":"tool"},"1.2.0":{"files":["a",{"b":[]}],"name":"tool"},"2.0.0-beta.1":{"name":"tool"}}}"#;

/// The names of its maintainers.
const OWNERS: [&str; 2] = ["bob", "eve"];

// What documents ask for. The first line has the revision that the path names, and what the document
// shows. A line with `->` replaces a text in what npm read, once, by another one, or by nothing. The last
// line is what it asks for.

const SAME: &str = r#"Nothing, what there is
=> AlreadySo

Present, what there is
=> AlreadySo

Another, what there is, late
"_rev":" -> "_rev":"1-
=> AlreadySo

Nothing, another address of an archive
http://h/ -> https://front/
"_rev":" -> "_rev":"1-
=> AlreadySo

Nothing, no address of an archive
,"tarball":"http://h/tool-1.0.0.tgz" ->
=> AlreadySo

Another, another moment of a change, and that of a version that isn't there
"modified":"1970 -> "modified":"1971
"time":{ -> "time":{"0.9.0":"1970-01-01T00:00:00.000Z",
=> AlreadySo

Another, an empty message where there is none
"1.2.0":{ -> "1.2.0":{"deprecated":"",
=> AlreadySo

Another, other spaces, other orders and other addresses of people
"name":"tool","time" -> "time"
"_id" ->  "name" : "tool" , "_id"
[{"email":"","name":"bob"},{"email":"","name":"eve"}] -> [{"name":"eve"},{"name":"bob","email":"b@o.b"}]
=> AlreadySo"#;

const DEPRECATIONS: &str = r#"Nothing, a message
"1.0.0":{ -> "1.0.0":{"deprecated":"use 1.2",
=> 1.0.0: use 1.2

Present, a message, by a path
"1.0.0":{ -> "1.0.0":{"deprecated":"use 1.2",
=> 1.0.0: use 1.2

Nothing, a message through a front
"1.0.0":{ -> "1.0.0":{"deprecated":"use 1.2",
http://h/ -> https://front/
=> 1.0.0: use 1.2

Nothing, a message for two
"1.0.0":{ -> "1.0.0":{"deprecated":"use 1.2",
"2.0.0-beta.1":{ -> "2.0.0-beta.1":{"deprecated":"use 1.2",
=> 1.0.0 || 2.0.0-beta.1: use 1.2

Nothing, one message for all
"1.0.0":{ -> "1.0.0":{"deprecated":"old",
"1.2.0":{ -> "1.2.0":{"deprecated":"old",
"2.0.0-beta.1":{ -> "2.0.0-beta.1":{"deprecated":"old",
=> *: old

Nothing, a message for all but one
"1.0.0":{ -> "1.0.0":{"deprecated":"use 1.2",
"1.2.0":{ -> "1.2.0":{"deprecated":"use 1.2",
"2.0.0-beta.1":{ -> "2.0.0-beta.1":{"deprecated":"use 1.2",
=> 1.0.0 || 1.2.0 || 2.0.0-beta.1: use 1.2

Nothing, the message that another has
"1.0.0":{ -> "1.0.0":{"deprecated":"old",
=> 1.0.0: old

Nothing, another message
"deprecated":"old" -> "deprecated":"older"
=> 1.1.0: older

Nothing, an empty message
"deprecated":"old" -> "deprecated":""
=> *: 

Nothing, no message any more
"deprecated":"old", ->
=> *: 

Nothing, of equal keys the last one
"1.0.0":{ -> "1.0.0":{"deprecated":"use 1.2",
"dist":{ -> "deprecated":"b","dist":{
=> 1.0.0: b"#;

const WITHDRAWALS: &str = r#"Present, a version less
"1.0.0":{"dist":{"size":9007199254740993,"tarball":"http://h/tool-1.0.0.tgz"},"name":"tool"}, ->
=> - 1.0.0

Present, a version less, and its moment
"1.0.0":{"dist":{"size":9007199254740993,"tarball":"http://h/tool-1.0.0.tgz"},"name":"tool"}, ->
"1.0.0":"1970-01-01T00:00:01.000Z", ->
=> - 1.0.0

Present, the latest less, and the tag on the greatest
"1.2.0":{"files":["a",{"b":[]}],"name":"tool"}, ->
"latest":"1.2.0" -> "latest":"2.0.0-beta.1"
=> - 1.2.0

Present, a version with a tag less
,"2.0.0-beta.1":{"name":"tool"} ->
,"next":"2.0.0-beta.1" ->
=> - 2.0.0-beta.1

Nothing, a version less, by the document alone
"1.0.0":{"dist":{"size":9007199254740993,"tarball":"http://h/tool-1.0.0.tgz"},"name":"tool"}, ->
=> - 1.0.0"#;

const STALE: &str = r#"Nothing, a message, late
"1.0.0":{ -> "1.0.0":{"deprecated":"use 1.2",
"_rev":" -> "_rev":"1-
=> Stale

Another, a message, on a late path
"1.0.0":{ -> "1.0.0":{"deprecated":"use 1.2",
=> Stale

Nothing, a message, and no revision
"1.0.0":{ -> "1.0.0":{"deprecated":"use 1.2",
"_rev": -> "rev":
=> Stale

Present, a version less, late
"1.0.0":{"dist":{"size":9007199254740993,"tarball":"http://h/tool-1.0.0.tgz"},"name":"tool"}, ->
"_rev":" -> "_rev":"1-
=> Stale

Another, a version less, on a late path
"1.0.0":{"dist":{"size":9007199254740993,"tarball":"http://h/tool-1.0.0.tgz"},"name":"tool"}, ->
=> Stale

Another, several things, late
"1.0.0":{"dist":{"size":9007199254740993,"tarball":"http://h/tool-1.0.0.tgz"},"name":"tool"}, ->
"deprecated":"old" -> "deprecated":null
=> Stale

Another, another package
"_id":"tool" -> "_id":"kit"
=> Stale"#;

const OTHERS: &str = r#"Nothing, two messages
"1.0.0":{ -> "1.0.0":{"deprecated":"use 1.2",
"deprecated":"old" -> "deprecated":"older"
=> BadBody

Nothing, a message, and a manifest
"1.0.0":{ -> "1.0.0":{"deprecated":"use 1.2",
"files":["a", -> "files":["b",
=> BadBody

Nothing, a message, and a member of a manifest more
"1.0.0":{ -> "1.0.0":{"deprecated":"use 1.2",
"files":[ -> "main":"a","files":[
=> BadBody

Nothing, a message, and a member of a manifest less
"1.0.0":{ -> "1.0.0":{"deprecated":"use 1.2",
"files":["a",{"b":[]}], ->
=> BadBody

Nothing, a message, and another size
"1.0.0":{ -> "1.0.0":{"deprecated":"use 1.2",
9007199254740993 -> 9007199254740994
=> BadBody

Nothing, a message, and a number that npm has rounded
"1.0.0":{ -> "1.0.0":{"deprecated":"use 1.2",
9007199254740993 -> 9007199254740992
=> BadBody

Nothing, a message, and no `dist`
"1.0.0":{ -> "1.0.0":{"deprecated":"use 1.2",
"dist":{"size":9007199254740993,"tarball":"http://h/tool-1.0.0.tgz"}, ->
=> BadBody

Nothing, a message, and a tag
"1.0.0":{ -> "1.0.0":{"deprecated":"use 1.2",
"latest":"1.2.0" -> "latest":"1.1.0"
=> BadBody

Nothing, a message, and a tag more
"1.0.0":{ -> "1.0.0":{"deprecated":"use 1.2",
"latest":"1.2.0" -> "latest":"1.2.0","x":"1.0.0"
=> BadBody

Present, a message, and a version less
,"2.0.0-beta.1":{"name":"tool"} ->
,"next":"2.0.0-beta.1" ->
"1.0.0":{ -> "1.0.0":{"deprecated":"use 1.2",
=> BadBody

Nothing, a message, and a maintainer more
"1.0.0":{ -> "1.0.0":{"deprecated":"use 1.2",
"name":"eve"} -> "name":"eve"},{"name":"dan"}
=> BadBody

Nothing, a message, and a maintainer less
"1.0.0":{ -> "1.0.0":{"deprecated":"use 1.2",
,{"email":"","name":"eve"} ->
=> BadBody

Nothing, a message, and another name
"1.0.0":{ -> "1.0.0":{"deprecated":"use 1.2",
"name":"tool","time" -> "name":"kit","time"
=> BadBody

Nothing, a message, and another moment
"1.0.0":{ -> "1.0.0":{"deprecated":"use 1.2",
"1.2.0":"1970 -> "1.2.0":"1971
=> BadBody

Nothing, a message, and a member more
"1.0.0":{ -> "1.0.0":{"deprecated":"use 1.2",
"_id": -> "readme":"","_id":
=> BadBody

Nothing, no text for a message
"deprecated":"old" -> "deprecated":null
=> BadBody

Present, a version more
"versions":{ -> "versions":{"0.9.0":{"name":"tool"},
=> BadBody

Present, two versions less
"1.0.0":{"dist":{"size":9007199254740993,"tarball":"http://h/tool-1.0.0.tgz"},"name":"tool"}, ->
"1.2.0":{"files":["a",{"b":[]}],"name":"tool"}, ->
=> BadBody

Present, the latest less, and the tag as it was
"1.2.0":{"files":["a",{"b":[]}],"name":"tool"}, ->
=> BadBody

Present, the latest less, and the tag on another than the greatest
"1.2.0":{"files":["a",{"b":[]}],"name":"tool"}, ->
"latest":"1.2.0" -> "latest":"1.1.0"
=> BadBody

Present, the latest less, and no such tag
"1.2.0":{"files":["a",{"b":[]}],"name":"tool"}, ->
"latest":"1.2.0", ->
=> BadBody

Present, a version less, and its tag as it was
,"2.0.0-beta.1":{"name":"tool"} ->
=> BadBody

Present, a version less, and a tag of another
"1.0.0":{"dist":{"size":9007199254740993,"tarball":"http://h/tool-1.0.0.tgz"},"name":"tool"}, ->
,"next":"2.0.0-beta.1" ->
=> BadBody

Present, versions that are no object
"versions":{ -> "versions":null,"x":{
=> BadBody

Nothing, maintainers that are no array
"1.0.0":{ -> "1.0.0":{"deprecated":"use 1.2",
"maintainers":[ -> "maintainers":null,"x":[
=> BadBody"#;

// The revision that the path names; what a document of maintainers says before their revision, with names
// behind; and what it asks for.
const NAMED: &str = r#"Present "_id":"tool", {"name":"bob","email":""},{"name":"eve"} => AlreadySo
Another "_id":"tool", {"name":"eve"},{"name":"bob"} => AlreadySo
Present "_id":"tool", {"name":"bob"},{"name":"eve"},{"name":"dan","email":""} => + dan
Nothing "_id":"tool", {"name":"dan"},{"name":"eve"},{"name":"bob"} => + dan
Present "_id":"tool", {"name":"bob"} => less eve
Present "_id":"tool", {"name":"eve"} => less bob
Another "_id":"tool", {"name":"eve"} => Stale
Another "_id":"tool", {"name":"bob"},{"name":"eve"},{"name":"dan"} => Stale
Another "users":{}, {"name":"eve"},{"name":"bob"} => Stale
Another "readme":"new", {"name":"eve"},{"name":"bob"} => Stale
Present "_id":"tool", => BadBody
Present "_id":"tool", {"name":"bob"},{"name":"eve"},{"name":"dan"},{"name":"ann"} => BadBody
Present "_id":"tool", {"name":"bob"},{"name":"dan"} => BadBody
Present "_id":"tool", {"name":"dan"} => BadBody
Present "_id":"tool", {"name":"bob"},{} => BadBody
Present "_id":"tool", {"name":"bob"},{"name":null} => BadBody
Present "_id":"tool", {"name":"bob"},"eve" => BadBody
Present "_id":"kit", {"name":"bob"},{"name":"eve"},{"name":"dan"} => BadBody
Present "name":"tool", {"name":"bob"},{"name":"eve"},{"name":"dan"} => + dan
Present "name":"kit", {"name":"bob"},{"name":"eve"},{"name":"dan"} => BadBody
Present "users":{}, {"name":"bob"},{"name":"eve"},{"name":"dan"} => BadBody
Present  {"name":"bob"},{"name":"eve"},{"name":"dan"} => + dan"#;

// The text with a text in it, the first such one, replaced as the line says.
fn edited(rt: &impl Abort, alloc: Global, whole: &str, line: &str) -> String {
    let (old, new) = line.split_once(" ->").expect(rt, line);
    let new = new.strip_prefix(' ').unwrap_or("");
    let (before, after) = whole.split_once(old).expect(rt, line);
    format!(in alloc; "{before}{new}{after}").expect(rt, "memory")
}

// What is shown of what a document asks for.
fn shown(rt: &impl Abort, alloc: Global, asked: &Result<Asked, Stop>) -> String {
    match asked {
        Ok(Asked::AlreadySo) => string(rt, alloc, "AlreadySo"),
        Ok(Asked::Deprecation { selector, message }) => {
            concat(rt, alloc, &[selector.as_str(), ": ", message.as_str()])
        }
        Ok(Asked::Withdrawal { version }) => concat(rt, alloc, &["- ", version.as_str()]),
        Ok(Asked::OwnerAdd { user }) => concat(rt, alloc, &["+ ", user.as_str()]),
        Ok(Asked::OwnerRemove { user }) => concat(rt, alloc, &["less ", user.as_str()]),
        Err(stop) => string(rt, alloc, stop.text()),
    }
}

fn revision(rt: &impl Abort, alloc: Global, maintainers: &[Text]) -> Revision {
    Revision::of(alloc, &ContentDigest::of(TOOL.as_bytes()), maintainers).expect(rt, "memory")
}

// What a body asks for, where the packument is there, and the path names this revision.
fn asked(rt: &impl Abort, alloc: Global, body: &str, path: &str, maintainers: &[Text]) -> String {
    let revision = revision(rt, alloc, maintainers);
    let present = Present {
        packument: TOOL,
        maintainers,
        revision: &revision,
    };
    let path = match path {
        "Nothing" => None,
        "Present" => Some(revision.text()),
        _ => Some("undefined"),
    };
    let document = Document::read(alloc, body.as_bytes()).expect(rt, "a document");
    shown(rt, alloc, &judge(alloc, &document, path, present))
}

// What npm read.
fn read(rt: &impl Abort, alloc: Global, maintainers: &[Text]) -> String {
    let revision = revision(rt, alloc, maintainers);
    let front = front(alloc, &revision, maintainers).expect(rt, "memory");
    let members = TOOL.strip_prefix('{').expect(rt, "a brace");
    concat(rt, alloc, &[front.as_str(), members])
}

fn asks(rt: &impl Abort, alloc: Global, case: &str, maintainers: &[Text]) {
    let (head, rest) = case.split_once('\n').expect(rt, case);
    let (path, _shows) = head.split_once(", ").expect(rt, case);
    let mut whole = read(rt, alloc, maintainers);
    for line in rest.lines() {
        match line.strip_prefix("=> ") {
            Some(wanted) => {
                let came_out = asked(rt, alloc, whole.as_str(), path, maintainers);
                same(rt, case, came_out.as_str(), wanted);
            }
            None => whole = edited(rt, alloc, whole.as_str(), line),
        }
    }
}

#[test]
fn documents_are_judged(rt: HostRuntime) {
    let maintainers = texts(&rt, rt.alloc(), &OWNERS);
    for cases in [SAME, DEPRECATIONS, WITHDRAWALS, STALE, OTHERS] {
        for case in cases.split("\n\n") {
            asks(&rt, rt.alloc(), case, &maintainers);
        }
    }
}

#[test]
fn documents_of_maintainers(rt: HostRuntime) {
    let maintainers = texts(&rt, rt.alloc(), &OWNERS);
    for line in NAMED.lines() {
        asks_of(&rt, rt.alloc(), line, &maintainers);
    }
}

fn asks_of(rt: &impl Abort, alloc: Global, line: &str, maintainers: &[Text]) {
    let (path, rest) = line.split_once(' ').expect(rt, line);
    let (front, rest) = rest.split_once(' ').expect(rt, line);
    let (names, wanted) = rest.split_once("=> ").expect(rt, line);
    let revision = revision(rt, alloc, maintainers);
    let (text, names) = (revision.text(), names.trim_end());
    let body = format!(in alloc; "{{{front}\"_rev\":\"{text}\",\"maintainers\":[{names}]}}");
    let body = body.expect(rt, "memory");
    let came_out = asked(rt, alloc, body.as_str(), path, maintainers);
    same(rt, line, came_out.as_str(), wanted);
}
