//! What an install reads of the documents of versions.

ghost use Rattle.std.specs.Prelude.{◌≡◌, IfErr, IfOk, OnOk, bytes_eq, codes, string_bytes};
ghost use Rattle.std.specs.List.{list_any};
ghost use Rattle.json.specs.Value.{value_view, members_view};
ghost use Rattle.registry_packument.specs.Abbreviated as definitions;
ghost use Rattle.registry_packument.specs.Documents.{manifest_members};
ghost use Rattle.registry_packument.specs.Writing.{IsFaultOf};

use crate::document::{Member, is_same, members_of, place, put_message, text_of};
use json::{Scratch, Value};
use registry_names::Fault;
use std::alloc::{AllocError, Global};

const SCRIPTS: &str = "scripts";

const HAS_INSTALL_SCRIPT: &str = "hasInstallScript";

// Whether an install reads the member under this key.
fn is_install_key(key: &str) -> bool
    ensures { result ≡ definitions.is_install_key key.now }
{
    matches!(
        key,
        "_hasShrinkwrap"
            | "acceptDependencies"
            | "bin"
            | "bundleDependencies"
            | "cpu"
            | "dependencies"
            | "deprecated"
            | "devDependencies"
            | "directories"
            | "dist"
            | "engines"
            | "funding"
            | "hasInstallScript"
            | "libc"
            | "name"
            | "optionalDependencies"
            | "os"
            | "peerDependencies"
            | "peerDependenciesMeta"
            | "version"
    )
}

// Whether an install runs the script of this name.
fn is_install_script(name: &str) -> bool
    ensures { result ≡ definitions.is_install_script name.now }
{
    matches!(name, "preinstall" | "install" | "postinstall")
}

// Whether an install runs a script of one of these names.
fn has_script_in(scripts: &[Member<'_>]) -> bool
    ensures { result ≡ list_any (λ script. definitions.is_install_script script.0.now)
        scripts.now }
{
    scripts.iter().any(|script| is_install_script(script.0))
}

// Whether the value is an object with a script that an install runs.
fn has_install_script(scripts: &Value<'_>) -> bool
    ensures { result ≡ definitions.has_install_script (value_view scripts.now) }
{
    match scripts {
        Value::Object(members) => has_script_in(members),
        _other => false,
    }
}

// Whether a member has the scripts of a version, and one of them is run by an install.
fn is_of_scripts(key: &str, value: &Value<'_>) -> bool
    ensures { result ≡ definitions.is_of_scripts key.now (value_view value.now) }
{
    is_same(key, SCRIPTS) && has_install_script(value)
}

// Whether a member has such scripts.
fn has_scripts(members: &[Member<'_>]) -> bool
    ensures { result ≡ list_any (λ member.
        definitions.is_of_scripts member.0.now (value_view member.1)) members.now }
{
    members
        .iter()
        .any(|member| is_of_scripts(member.0, &member.1))
}

// Whether the document says itself whether it has such scripts.
fn says_script(members: &[Member<'_>]) -> bool
    ensures { result ≡ list_any (λ member.
        bytes_eq member.0.now (codes "hasInstallScript")) members.now }
{
    members
        .iter()
        .any(|member| is_same(member.0, HAS_INSTALL_SCRIPT))
}

// Whether the document has a script that an install runs, and doesn't say itself whether it has.
fn has_unsaid_script(members: &[Member<'_>]) -> bool
    ensures { result ≡ definitions.has_unsaid_script (members_view members.now) }
{
    has_scripts(members) && !says_script(members)
}

// Adds what the registry finds of the document's scripts.
fn add_script(members: &mut Vec<Member<'_>>) -> Result<(), AllocError>
    ensures { OnOk result (members_view members.new.items
        ≡ definitions.with_script (members_view members.old.items)) }
{
    if has_unsaid_script(members) {
        place(members, HAS_INSTALL_SCRIPT, Value::Bool(true))?;
    }
    Ok(())
}

/// What an install reads of the document of a version.
pub(crate) fn abbreviated(alloc: Global, manifest: &str, message: &str) -> Result<String, Fault>
    ensures ok { IfOk result (λ text.
        string_bytes text ≡ definitions.abbreviated manifest.now message.now) }
    ensures err { IfErr result (IsFaultOf (manifest_members manifest.now)) }
{
    let mut scratch = Scratch::new(alloc);
    let mut members = members_of(alloc, manifest, &mut scratch)?;
    put_message(&mut members, message)?;
    add_script(&mut members)?;
    members.retain(|member| is_install_key(member.0));
    Ok(text_of(alloc, &Value::Object(members))?)
}
