//! The decision on a publication to a package that has a live version but no tag `latest`. No
//! request leads there, so no story has these cases.

use crate::outcome::same;
use crate::parts::{ident, string};
use registry_access::{Caller, Role, Standing};
use registry_names::{LATEST, Moment, Status};
use registry_publish::PublishForm;
use registry_rules::{
    About, Action, Change, Credential, Facts, PublishFacts, Request, decide, may_ask,
};
use std::alloc::Global;
use std::process::Abort;

// A body; ` => ` and the changes that its publication makes, each with `; ` behind it.
const CASES: &str =
    r#"{"name":"@lab/kit","versions":{"1.0.0":{"name":"@lab/kit","version":"1.0.0"}},"_attachments":{"kit.tgz":{"data":"YWJj"}}} => AddVersion @lab/kit 1.0.0 100; PutTag @lab/kit latest 1.0.0; 
{"name":"@lab/kit","versions":{"1.0.0":{"name":"@lab/kit","version":"1.0.0"}},"dist-tags":{"next":"1.0.0"},"_attachments":{"kit.tgz":{"data":"YWJj"}}} => AddVersion @lab/kit 1.0.0 100; PutTag @lab/kit latest 1.0.0; PutTag @lab/kit next 1.0.0; "#;

#[test]
fn publications_without_a_latest(rt: HostRuntime) {
    for line in CASES.lines() {
        let (body, wanted) = line.split_once(" => ").expect(&rt, line);
        is_decided(&rt, rt.alloc(), body, wanted);
    }
}

fn is_decided(rt: &impl Abort, alloc: Global, body: &str, wanted: &str) {
    let form = PublishForm::read(alloc, body.as_bytes()).expect(rt, "a body in form");
    let facts = Facts {
        caller: Some(Caller::User(ident(rt, alloc, "ann"))),
        about: About::Publish(without_latest(alloc, &form)),
    };
    let request = Request {
        at: Moment::clamped(100),
        who: Credential::Anonymous,
        what: Action::Publish { form },
    };
    same(rt, body, &may_ask(&facts, &request).err(), &None);
    let changes = decide(alloc, &facts, &request).expect(rt, "changes");
    let mut told = String::new(alloc);
    for change in &changes {
        let one = described(rt, alloc, change);
        told.push_str(one.as_str()).expect(rt, "memory");
    }
    same(rt, body, told.as_str(), wanted);
}

// What is known where an owner publishes another version: `latest` is there only as the form's tag.
fn without_latest(alloc: Global, form: &PublishForm) -> PublishFacts {
    PublishFacts {
        standing: Standing {
            organisation: true,
            role: Some(Role::Owner),
            status: Some(Status::Restricted),
            maintainer: false,
            grants: Vec::new(alloc),
        },
        version_lives: false,
        version_spent: false,
        latest_stands: form.tag().text() == LATEST,
        gone_since: None,
    }
}

// A change as a text: its kind, and its fields in their order.
fn described(rt: &impl Abort, alloc: Global, change: &Change<'_>) -> String {
    match change {
        Change::PutTag {
            package,
            tag,
            version,
        } => {
            let (name, version) = (package.text(), version.text());
            let text = format!(in alloc; "PutTag {name} {tag} {version}; ");
            text.expect(rt, "memory")
        }
        Change::AddVersion { form, at } => {
            let (name, version, at) = (form.name().text(), form.version().text(), at.seconds());
            let text = format!(in alloc; "AddVersion {name} {version} {at}; ");
            text.expect(rt, "memory")
        }
        _ => string(rt, alloc, "another change"),
    }
}
