//! What bodies are read as, and the name of an archive's file.

ghost use Rattle.std.specs.Prelude.{◌≡◌, ◌↔◌, IsTrue};
ghost use Rattle.registry_names.specs.Spellings.{status_named};
ghost use Rattle.registry_access.specs.Spellings.{grant_named, role_named};
ghost use Rattle.registry_service.specs.Bodies as spec;

use registry_access::{Grant, Role};
use registry_names::{Name, Refusal, Status, Stop, Ver};
use registry_publish::PublishForm;
use registry_routes::{
    Deprecation, deprecation_of_body, grant_of_body, role_of_body, status_of_body, version_of_body,
    version_of_file,
};
use std::alloc::Global;

fn is_of(form: &PublishForm, name: &Name) -> bool
    ensures { IsTrue result ↔ (form.now.name ≡ name.now) }
{
    form.name().text() == name.text()
}

/// The form of a publish of this package.
#[tactic(auto, unfolding(crate::specs::Bodies::reads_form))]
pub(crate) fn form(alloc: Global, name: &Name, body: &[u8]) -> Result<PublishForm, Stop>
    ensures { spec.reads_form name.now body.now result }
{
    let form = PublishForm::read(alloc, body)?;
    if is_of(&form, name) {
        Ok(form)
    } else {
        Err(Stop::Refused(Refusal::BadBody))
    }
}

#[tactic(auto, unfolding(crate::specs::Bodies::reads_version_in))]
pub(crate) fn version(alloc: Global, body: &[u8]) -> Result<Ver, Stop>
    ensures { spec.reads_version_in body.now result }
{
    version_of_body(alloc, body)
}

#[tactic(auto, unfolding(crate::specs::Bodies::reads_word))]
pub(crate) fn status(alloc: Global, body: &[u8]) -> Result<Status, Stop>
    ensures { spec.reads_word status_named body.now result }
{
    status_of_body(alloc, body)
}

#[tactic(auto, unfolding(crate::specs::Bodies::reads_word))]
pub(crate) fn role(alloc: Global, body: &[u8]) -> Result<Role, Stop>
    ensures { spec.reads_word role_named body.now result }
{
    role_of_body(alloc, body)
}

#[tactic(auto, unfolding(crate::specs::Bodies::reads_word))]
pub(crate) fn grant(alloc: Global, body: &[u8]) -> Result<Grant, Stop>
    ensures { spec.reads_word grant_named body.now result }
{
    grant_of_body(alloc, body)
}

#[tactic(auto, unfolding(crate::specs::Bodies::reads_deprecation))]
pub(crate) fn deprecation(alloc: Global, body: &[u8]) -> Result<Deprecation, Stop>
    ensures { spec.reads_deprecation body.now result }
{
    deprecation_of_body(alloc, body)
}

/// The version of this package whose archive has the file name that is written in a path.
#[tactic(auto, unfolding(crate::specs::Bodies::reads_file))]
pub(crate) fn file_version(alloc: Global, name: &Name, written: &[u8]) -> Result<Ver, Stop>
    ensures { spec.reads_file name.now written.now result }
{
    version_of_file(alloc, name, written)
}
