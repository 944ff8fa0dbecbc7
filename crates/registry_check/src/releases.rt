//! The texts of versions, of tags and of what an older schema had.

ghost use Rattle.std.specs.Prelude.{◌≡◌, ◌&&◌, ℤ, IfOk};
ghost use Rattle.registry_names.specs.Keys.{Pair, Triple};
ghost use Rattle.registry_names.specs.Texts.{Text as Bytes};
ghost use Rattle.registry_tables.specs.Contents.{LiveVersion};
ghost use Rattle.registry_tables.specs.Numbers as numbers;
ghost use Rattle.registry_check.specs.FormRules as rules;
ghost use Rattle.registry_check.specs.FormRules.{spent_forms, tag_forms, target_forms, version_forms};
ghost use Rattle.registry_check.specs.Problems as spec;
ghost use Rattle.registry_check.specs.Rows.{live_entry, rows_of, spent_entry, tag_entry, target_entry};
ghost use Rattle.registry_check.specs.Spelled.{spent_spelled, tag_spelled, triple_spelled};

use crate::checked::Checked;
use crate::forms::{is_message, is_moment, is_range_text, is_tag, is_version};
use crate::manifest::{is_manifest_text, states};
use crate::people::copied;
use crate::problem::{Test, Thing};
use crate::rule::Rule;
use crate::tables::{LiveRow, SpentRow, Tables, TagRow, TargetRow};
use registry_names::{Fault, Text};
use registry_rows::RowKind;
use sqlite::{Error, Row};
use std::alloc::Global;

/// What live versions are called, and their manifests and messages.
pub(crate) struct VersionForms;

impl Checked for VersionForms {
    type Row = LiveRow;

    ghost Entry = { Pair × LiveVersion };

    ghost entry = { live_entry };

    ghost about = { spec.version };

    ghost tried = { version_forms };

    fn thing(alloc: Global, row: &LiveRow) -> Result<Thing, Fault> {
        Ok(Thing::Version {
            package: copied(alloc, &row.package)?,
            version: copied(alloc, &row.version)?,
        })
    }

    fn tests(alloc: Global, row: &LiveRow, all: &Tables) -> Result<Vec<Test>, Fault> {
        let (package, version) = (row.package.as_str(), row.version.as_str());
        let is_spelled = is_version(alloc, version)?;
        let has_manifest = is_manifest_text(alloc, package, version, row.manifest.as_str())?;
        let has_stated = states_held(alloc, row, all)?;
        let has_message = is_message(alloc, row.message.as_str())?;
        Ok(vec![in alloc;
            Test {
                rule: Rule::HasPackage,
                holds: all.has_package(package)
            },
            Test {
                rule: Rule::IsSpelled,
                holds: is_spelled
            },
            Test {
                rule: Rule::HasManifest,
                holds: has_manifest
            },
            Test {
                rule: Rule::HasStated,
                holds: has_stated
            },
            Test {
                rule: Rule::HasMessage,
                holds: has_message
            },
        ]?)
    }
}

// Whether the archive that is stored of the version has the integrity that its manifest states.
fn states_held(alloc: Global, row: &LiveRow, all: &Tables) -> Result<bool, Fault>
    ensures { IfOk result (λ states. states ≡ rules.states_held (rules.held_integrity
        (rows_of all.now) (row.now.package, row.now.version)) row.now.manifest) }
{
    match all.held_integrity(row.package.as_str(), row.version.as_str()) {
        Some(integrity) => states(alloc, integrity.as_str(), row.manifest.as_str()),
        None => Ok(true),
    }
}

/// Versions that were withdrawn.
pub(crate) struct Withdrawn;

impl Checked for Withdrawn {
    type Row = SpentRow;

    ghost Entry = { Pair × (ℤ × ℤ) };

    ghost entry = { spent_entry };

    ghost about = { spec.withdrawn };

    ghost tried = { spent_forms };

    fn thing(alloc: Global, row: &SpentRow) -> Result<Thing, Fault> {
        Ok(Thing::Withdrawn {
            package: copied(alloc, &row.package)?,
            version: copied(alloc, &row.version)?,
        })
    }

    fn tests(alloc: Global, row: &SpentRow, all: &Tables) -> Result<Vec<Test>, Fault> {
        let is_spelled = is_version(alloc, row.version.as_str())?;
        Ok(vec![in alloc;
            Test {
                rule: Rule::HasPackage,
                holds: all.has_package(row.package.as_str())
            },
            Test {
                rule: Rule::IsSpelled,
                holds: is_spelled
            },
            Test {
                rule: Rule::IsGone,
                holds: !all.lives(row.package.as_str(), row.version.as_str())
            },
            Test {
                rule: Rule::HasMoment,
                holds: are_moments(row.published, row.withdrawn)
            },
        ]?)
    }
}

impl RowKind for Withdrawn {
    type Value = SpentRow;

    ghost Seen = { Pair × (ℤ × ℤ) };

    ghost seen = { spent_entry };

    ghost spelled = { spent_spelled };

    fn read(row: &Row) -> Result<SpentRow, Error> {
        let package: String = row.get(0)?;
        let version: String = row.get(1)?;
        let published = row.get(2)?;
        let withdrawn = row.get(3)?;
        Ok(SpentRow {
            package: Text::from(package),
            version: Text::from(version),
            published,
            withdrawn,
        })
    }
}

// Whether both are the numbers of seconds of moments.
fn are_moments(published: i64, withdrawn: i64) -> bool
    ensures { result ≡ (numbers.is_moment published && numbers.is_moment withdrawn) }
{
    is_moment(published) && is_moment(withdrawn)
}

/// Tags of packages.
pub(crate) struct Tags;

impl Checked for Tags {
    type Row = TagRow;

    ghost Entry = { Pair × Bytes };

    ghost entry = { tag_entry };

    ghost about = { spec.tag };

    ghost tried = { tag_forms };

    fn thing(alloc: Global, row: &TagRow) -> Result<Thing, Fault> {
        Ok(Thing::Tag {
            package: copied(alloc, &row.package)?,
            tag: copied(alloc, &row.tag)?,
        })
    }

    fn tests(alloc: Global, row: &TagRow, all: &Tables) -> Result<Vec<Test>, Fault> {
        let is_spelled = is_tag(alloc, row.tag.as_str())?;
        Ok(vec![in alloc;
            Test {
                rule: Rule::IsSpelled,
                holds: is_spelled
            },
            Test {
                rule: Rule::IsNoRange,
                holds: !is_range_text(row.tag.as_str())
            },
            Test {
                rule: Rule::NamesLive,
                holds: all.lives(row.package.as_str(), row.version.as_str())
            },
        ]?)
    }
}

impl RowKind for Tags {
    type Value = TagRow;

    ghost Seen = { Pair × Bytes };

    ghost seen = { tag_entry };

    ghost spelled = { tag_spelled };

    fn read(row: &Row) -> Result<TagRow, Error> {
        let package: String = row.get(0)?;
        let tag: String = row.get(1)?;
        let version: String = row.get(2)?;
        Ok(TagRow {
            package: Text::from(package),
            tag: Text::from(tag),
            version: Text::from(version),
        })
    }
}

/// The rows of the table `needs`.
pub(crate) struct Targets;

impl Checked for Targets {
    type Row = TargetRow;

    ghost Entry = { Triple × Unit {0} };

    ghost entry = { target_entry };

    ghost about = { spec.target };

    ghost tried = { target_forms };

    fn thing(alloc: Global, row: &TargetRow) -> Result<Thing, Fault> {
        Ok(Thing::Target {
            package: copied(alloc, &row.package)?,
            version: copied(alloc, &row.version)?,
            target: copied(alloc, &row.target)?,
        })
    }

    fn tests(alloc: Global, _row: &TargetRow, _all: &Tables) -> Result<Vec<Test>, Fault> {
        Ok(vec![in alloc;
            Test {
                rule: Rule::IsUnused,
                holds: false
            },
        ]?)
    }
}

impl RowKind for Targets {
    type Value = TargetRow;

    ghost Seen = { Triple × Unit {0} };

    ghost seen = { target_entry };

    ghost spelled = { triple_spelled };

    fn read(row: &Row) -> Result<TargetRow, Error> {
        let package: String = row.get(0)?;
        let version: String = row.get(1)?;
        let target: String = row.get(2)?;
        Ok(TargetRow {
            package: Text::from(package),
            version: Text::from(version),
            target: Text::from(target),
        })
    }
}
