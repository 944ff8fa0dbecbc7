//! Abbreviated packuments, from npm's description of package metadata.

use crate::outcome::same;
use crate::packument::sending::{Counted, narrow};
use crate::packument::{TagCase, VersionCase, source, tags, times};
use crate::parts::{as_text, text};
use registry_names::{Fault, Moment, ToWrite};
use registry_packument::{
    PackForm, PackHead, PackTimes, PackumentWithin, Sent, packument_len, packument_text,
    packument_within, send_counted, write_packument,
};
use std::alloc::Global;
use std::process::Abort;

/// A package, and its abbreviated packument.
struct Case {
    name: &'static str,
    modified: i64,
    tags: &'static [TagCase],
    versions: &'static [VersionCase],
    text: &'static str,
}

/// The example of npm's description, to the second, with the keys in byte order. The manifest has
/// members that an install doesn't read.
const TINY_TARBALL: Case = Case {
    name: "tiny-tarball",
    modified: 1431815274,
    tags: &[("latest", "1.0.0")],
    versions: &[(
        "1.0.0",
        r#"{"_from":".","_hasShrinkwrap":false,"_id":"tiny-tarball@1.0.0","author":{"name":"Ben Coe"},"description":"tiny tarball used for health checks","directories":{},"dist":{"shasum":"bbf102d5ae73afe2c553295e0fb02230216f65b1","tarball":"https://registry.npmjs.org/tiny-tarball/-/tiny-tarball-1.0.0.tgz"},"license":"MIT","main":"index.js","name":"tiny-tarball","scripts":{"test":"echo ok"},"version":"1.0.0"}"#,
        "",
    )],
    text: r#"{"dist-tags":{"latest":"1.0.0"},"modified":"2015-05-16T22:27:54.000Z","name":"tiny-tarball","versions":{"1.0.0":{"_hasShrinkwrap":false,"directories":{},"dist":{"shasum":"bbf102d5ae73afe2c553295e0fb02230216f65b1","tarball":"https://registry.npmjs.org/tiny-tarball/-/tiny-tarball-1.0.0.tgz"},"name":"tiny-tarball","version":"1.0.0"}}}"#,
};

/// Every member that an install reads, with others between them.
const ALL_MEMBERS: Case = Case {
    name: "kit",
    modified: 0,
    tags: &[],
    versions: &[(
        "1.0.0",
        r#"{"_hasShrinkwrap":true,"_id":"kit@1.0.0","acceptDependencies":{"a":"2"},"bin":{"kit":"k.js"},"binary":1,"bundleDependencies":["b"],"cpu":["x64"],"dependencies":{"a":"1"},"deprecated":"mine","devDependencies":{"d":"2"},"directories":{"lib":"l"},"dist":{"shasum":"00"},"engines":{"node":">=4"},"funding":{"url":"https://kit.test"},"gitHead":"0","hasInstallScript":false,"libc":["glibc"],"license":"MIT","name":"kit","optionalDependencies":{"o":"3"},"os":["linux"],"peerDependencies":{"p":"4"},"peerDependenciesMeta":{"p":{"optional":true}},"readme":"long","scripts":{"install":"make"},"types":"k.d.ts","version":"1.0.0"}"#,
        "",
    )],
    text: r#"{"dist-tags":{},"modified":"1970-01-01T00:00:00.000Z","name":"kit","versions":{"1.0.0":{"_hasShrinkwrap":true,"acceptDependencies":{"a":"2"},"bin":{"kit":"k.js"},"bundleDependencies":["b"],"cpu":["x64"],"dependencies":{"a":"1"},"deprecated":"mine","devDependencies":{"d":"2"},"directories":{"lib":"l"},"dist":{"shasum":"00"},"engines":{"node":">=4"},"funding":{"url":"https://kit.test"},"hasInstallScript":false,"libc":["glibc"],"name":"kit","optionalDependencies":{"o":"3"},"os":["linux"],"peerDependencies":{"p":"4"},"peerDependenciesMeta":{"p":{"optional":true}},"version":"1.0.0"}}}"#,
};

/// Scripts that an install runs, and others.
const SCRIPTS: Case = Case {
    name: "kit",
    modified: 100,
    tags: &[("it's", "1.0.0"), ("next", "1.0.6")],
    versions: &[
        (
            "1.0.0",
            r#"{"name":"kit","scripts":{"preinstall":"a"}}"#,
            "",
        ),
        (
            "1.0.1",
            r#"{"name":"kit","scripts":{"install":"a","test":"b"}}"#,
            "old",
        ),
        (
            "1.0.2",
            r#"{"funding":1,"scripts":{"build":"a","postinstall":""}}"#,
            "",
        ),
        (
            "1.0.3",
            r#"{"scripts":{"Install":"a","installs":"b","prepare":"c","preinstall ":"d"}}"#,
            "",
        ),
        ("1.0.4", r#"{"scripts":["install"]}"#, ""),
        ("1.0.5", r#"{"install":"a","script":{"install":"a"}}"#, ""),
        (
            "1.0.6",
            r#"{"hasInstallScript":null,"scripts":{"install":"a"}}"#,
            "",
        ),
    ],
    text: r#"{"dist-tags":{"it's":"1.0.0","next":"1.0.6"},"modified":"1970-01-01T00:01:40.000Z","name":"kit","versions":{"1.0.0":{"hasInstallScript":true,"name":"kit"},"1.0.1":{"deprecated":"old","hasInstallScript":true,"name":"kit"},"1.0.2":{"funding":1,"hasInstallScript":true},"1.0.3":{},"1.0.4":{},"1.0.5":{},"1.0.6":{"hasInstallScript":null}}}"#,
};

const NOTHING: Case = Case {
    name: "kit",
    modified: 100,
    tags: &[("latest", "1.0.0")],
    versions: &[],
    text: r#"{"dist-tags":{"latest":"1.0.0"},"modified":"1970-01-01T00:01:40.000Z","name":"kit","versions":{}}"#,
};

const NO_MANIFEST: Case = Case {
    name: "kit",
    modified: 100,
    tags: &[],
    versions: &[("1.0.0", "[1]", "")],
    text: "",
};

// The head of an abbreviated packument.
fn short_head(rt: &impl Abort, alloc: Global, case: &Case) -> PackHead {
    let times = PackTimes {
        versions: times(rt, alloc, case.versions),
        created: Moment::clamped(0),
        modified: Moment::clamped(case.modified),
    };
    let head = PackHead::new(
        text(rt, alloc, case.name),
        tags(rt, alloc, case.tags),
        times,
    );
    head.expect(rt, "tags and versions in their order")
        .in_form(PackForm::Abbreviated)
}

// Checks the text, how long it is, and what is given of it within a limit.
fn is_made(rt: &impl Abort, alloc: Global, case: &Case, head: &PackHead) {
    let text = packument_text(alloc, head, &mut source(rt, alloc, case.versions));
    let text = text.expect(rt, "a packument");
    same(rt, case.name, text.as_str(), case.text);
    let len = packument_len(alloc, head, &mut source(rt, alloc, case.versions));
    let wanted = case.text.len() as u64;
    same(rt, case.name, len, Ok(wanted));
    for limit in [wanted, wanted.saturating_sub(1)] {
        let mut rows = source(rt, alloc, case.versions);
        match packument_within(alloc, head, &mut rows, limit).expect(rt, "a packument") {
            PackumentWithin::Text(came_out) => same(rt, limit, came_out.as_str(), case.text),
            PackumentWithin::Longer(len) => same(rt, limit, len, limit.saturating_add(1)),
        }
    }
}

// Checks what is written version by version, and what is sent where its length is known.
fn is_sent(rt: &impl Abort, alloc: Global, case: &Case, head: &PackHead) {
    let mut rows = source(rt, alloc, case.versions);
    let mut out = narrow(alloc, usize::MAX);
    let end = write_packument(alloc, head, &mut rows, &mut ToWrite::new(&mut out));
    same(rt, case.name, end, Ok(()));
    same(rt, case.name, as_text(&out.taken), case.text);
    let mut rows = source(rt, alloc, case.versions);
    let mut out = narrow(alloc, usize::MAX);
    let len = case.text.len() as u64;
    let opener = Counted { len };
    let mut writer = ToWrite::new(&mut out);
    let sent = send_counted(alloc, head, &mut rows, len, &mut writer, &opener);
    same(rt, case.name, &sent, &Sent::Whole);
    let is_behind = as_text(&out.taken).ends_with(case.text);
    same(rt, case.name, is_behind, true);
}

fn is_abbreviated(rt: &impl Abort, alloc: Global, case: &Case) {
    let head = short_head(rt, alloc, case);
    is_made(rt, alloc, case, &head);
    is_sent(rt, alloc, case, &head);
}

// Where a version has no manifest, there is no packument.
#[test]
fn packuments_are_abbreviated(rt: HostRuntime) {
    let alloc = rt.alloc();
    is_abbreviated(&rt, alloc, &TINY_TARBALL);
    is_abbreviated(&rt, alloc, &ALL_MEMBERS);
    is_abbreviated(&rt, alloc, &SCRIPTS);
    is_abbreviated(&rt, alloc, &NOTHING);
    let case = &NO_MANIFEST;
    let head = short_head(&rt, alloc, case);
    let mut rows = source(&rt, alloc, case.versions);
    let told = packument_text(alloc, &head, &mut rows);
    same(&rt, "no manifest", told.err(), Some(Fault::Database));
}
