//! What a packument says of the package as a whole.

ghost use Rattle.std.specs.Prelude.{◌≡◌, ◌↔◌, IsSome, IfSome, IsTrue};
ghost use Rattle.std.specs.Ordering.{is_lt};
ghost use Rattle.registry_names.specs.Texts.{text_cmp};
ghost use Rattle.registry_packument.specs.Heads.{AreTagsInOrder, AreTimesInOrder};
ghost use Rattle.registry_packument.specs.declared.form.PackForm.TheVariants.{Full};

use crate::form::PackForm;
use crate::times::{PackTimes, VersionTime};
use registry_names::{DistTag, Moment, Text};
use std::marker::Model;

/// The head of a packument: what it has beside its versions. Contracts see the package's name, its
/// dist-tags and the moments of its versions, both in byte order, each once, and the moments at
/// which it was created and modified.
#[derive(Drop)]
pub struct PackHead {
    form: PackForm,
    name: Text,
    tags: Vec<DistTag>,
    times: PackTimes,
}

impl Model for PackHead {
    ghost use Rattle.registry_packument.specs.Heads.{HeadParts, AreTagsInOrder, AreTimesInOrder};

    ghost Value = { HeadParts };

    ghost view = { λ head. record {
      form = head.form;
      name = head.name;
      tags = head.tags.items;
      times = head.times.versions.items;
      created = head.times.created;
      modified = head.times.modified;
    } };

    ghost invariant = { λ head. AreTagsInOrder head.tags.items
        × AreTimesInOrder head.times.versions.items };
}

impl PackHead {
    /// The head of a full packument, with the package's name, its dist-tags and its moments. `None`
    /// is returned exactly where the tags or the versions aren't in byte order, each once.
    pub fn new(name: Text, tags: Vec<DistTag>, times: PackTimes) -> Option<PackHead>
        ensures order { IsSome result
            ↔ (AreTagsInOrder tags.items × AreTimesInOrder times.versions.items) }
        ensures parts { IfSome result (λ head. head ≡ record {
          form = Full;
          name = name;
          tags = tags.items;
          times = times.versions.items;
          created = times.created;
          modified = times.modified;
        }) }
    {
        if are_in_order(&tags) && are_times_in_order(&times.versions) {
            Some(PackHead {
                form: PackForm::Full,
                name,
                tags,
                times,
            })
        } else {
            None
        }
    }

    /// The head of a packument of this form, which is otherwise the same.
    pub fn in_form(self, form: PackForm) -> PackHead
        ensures { result ≡ record {
          form = form;
          name = self.name;
          tags = self.tags;
          times = self.times;
          created = self.created;
          modified = self.modified;
        } }
    {
        let PackHead {
            form: _,
            name,
            tags,
            times,
        } = self;
        PackHead {
            form,
            name,
            tags,
            times,
        }
    }

    /// Whether the packument is a full or an abbreviated one.
    pub fn form(&self) -> PackForm
        ensures { result ≡ self.now.form }
    {
        self.form
    }

    /// The package's name.
    pub fn name(&self) -> &str
        ensures { result.now ≡ self.now.name }
    {
        self.name.as_str()
    }

    /// The package's dist-tags, in byte order of the tags, each once.
    pub fn tags(&self) -> &[DistTag]
        ensures value { result.now ≡ self.now.tags }
        ensures order { AreTagsInOrder self.now.tags }
    {
        &self.tags
    }

    /// The live versions, each with the moment of its publication, in byte order of their texts,
    /// each once.
    pub fn times(&self) -> &[VersionTime]
        ensures value { result.now ≡ self.now.times }
        ensures order { AreTimesInOrder self.now.times }
    {
        &self.times.versions
    }

    /// When the package was created.
    pub fn created(&self) -> Moment
        ensures { result ≡ self.now.created }
    {
        self.times.created
    }

    /// When the package was modified last.
    pub fn modified(&self) -> Moment
        ensures { result ≡ self.now.modified }
    {
        self.times.modified
    }
}

// Whether the tags are in byte order, each once.
fn are_in_order(tags: &[DistTag]) -> bool
    ensures { IsTrue result ↔ AreTagsInOrder tags.now }
{
    tags.is_sorted_by(|tag, next| is_before(tag, next))
}

fn is_before(tag: &DistTag, next: &DistTag) -> bool
    ensures { result ≡ is_lt (text_cmp tag.now.tag next.now.tag) }
{
    tag.tag.as_str() < next.tag.as_str()
}

// Whether the versions are in byte order, each once.
fn are_times_in_order(times: &[VersionTime]) -> bool
    ensures { IsTrue result ↔ AreTimesInOrder times.now }
{
    times.is_sorted_by(|time, next| comes_before(time, next))
}

fn comes_before(time: &VersionTime, next: &VersionTime) -> bool
    ensures { result ≡ is_lt (text_cmp time.now.version next.now.version) }
{
    time.version.as_str() < next.version.as_str()
}
