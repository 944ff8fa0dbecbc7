//! The table `tags`: the dist-tags of every package. A tag names a live version.

ghost use Rattle.std.specs.Prelude.{⊤, ◌≡◌, is_some, map};
ghost use Rattle.registry_names.specs.Maps.{at, erase, of, put};
ghost use Rattle.registry_names.specs.Texts.{Text as Bytes};
ghost use Rattle.registry_rules.specs.Withdrawals.{tags_of};
ghost use Rattle.registry_tables.specs.Contents.{registry_of};
ghost use Rattle.registry_tables.specs.Inside.{Finds, Makes};
ghost use Rattle.registry_tables.specs.Spelled.{tag_entry, tag_spelled};

use crate::queries::{find, has, list, texts};
use crate::texts::TextRow;
use registry_names::{DistTag, Fault, Name, Text};
use registry_rows::{RowKind, write};
use sqlite::{Alter, Error, Row, Transaction, params};
use std::alloc::Global;

/// Whether the package has this tag.
pub fn has_tag<S: Alter>(tx: &mut Transaction<'_, S>, name: &Name, tag: &str) -> Result<bool, Fault>
    ensures { Finds S.Store tx.old tx.new result
        (λ has c. has ≡ is_some (at c.tags (name.now, tag.now))) }
{
    has(
        tx,
        "SELECT version FROM tags WHERE package = ?1 AND tag = ?2",
        params![name.text(), tag],
    )
}

/// The version that a tag of a package names. `None` where the tag doesn't exist.
pub fn load_tag<S: Alter>(
    tx: &mut Transaction<'_, S>,
    name: &Name,
    tag: &str,
) -> Result<Option<Text>, Fault>
    ensures { Finds S.Store tx.old tx.new result
        (λ named c. named ≡ at c.tags (name.now, tag.now)) }
{
    find::<TextRow, S>(
        tx,
        "SELECT version FROM tags WHERE package = ?1 AND tag = ?2",
        params![name.text(), tag],
    )
}

/// The tags of a package, in byte order.
pub fn load_tags<S: Alter>(
    alloc: Global,
    tx: &mut Transaction<'_, S>,
    name: &Name,
) -> Result<Vec<DistTag>, Fault>
    ensures { Finds S.Store tx.old tx.new result
        (λ tags c. map tag_entry tags.items ≡ of c.tags name.now) }
{
    list::<ListedTag, S>(
        alloc,
        tx,
        "SELECT tag, version FROM tags WHERE package = ?1 ORDER BY tag",
        params![name.text()],
    )
}

/// The tags of a package that name this version, in byte order.
pub fn load_version_tags<S: Alter>(
    alloc: Global,
    tx: &mut Transaction<'_, S>,
    name: &Name,
    version: &str,
) -> Result<Vec<Text>, Fault>
    ensures { Finds S.Store tx.old tx.new result
        (λ tags c. tags.items ≡ tags_of (registry_of c) name.now version.now) }
{
    texts(
        alloc,
        tx,
        "SELECT tag FROM tags WHERE package = ?1 AND version = ?2 ORDER BY package, tag",
        params![name.text(), version],
    )
}

/// Lets a tag of a package name this version, whatever it named before.
pub(crate) fn put_tag<S: Alter>(
    tx: &mut Transaction<'_, S>,
    name: &str,
    tag: &str,
    version: &str,
) -> Result<(), Fault>
    ensures { Makes S.Store tx.old tx.new result
        (λ _ _. ⊤)
        (λ c. record c { tags = put c.tags (name.now, tag.now) version.now }) }
{
    write(
        tx,
        "INSERT INTO tags VALUES (?1, ?2, ?3) ON CONFLICT (package, tag) DO UPDATE SET version = ?3",
        params![name, tag, version],
    )
}

/// Drops a tag of a package, if it is there.
pub(crate) fn drop_tag<S: Alter>(
    tx: &mut Transaction<'_, S>,
    name: &str,
    tag: &str,
) -> Result<(), Fault>
    ensures { Makes S.Store tx.old tx.new result
        (λ _ _. ⊤)
        (λ c. record c { tags = erase c.tags (name.now, tag.now) }) }
{
    write(
        tx,
        "DELETE FROM tags WHERE package = ?1 AND tag = ?2",
        params![name, tag],
    )
}

// A tag and the version that it names.
struct ListedTag;

impl RowKind for ListedTag {
    type Value = DistTag;

    ghost Seen = { Bytes × Bytes };

    ghost seen = { tag_entry };

    ghost spelled = { tag_spelled };

    fn read(row: &Row) -> Result<DistTag, Error> {
        let tag: String = row.get(0)?;
        let version: String = row.get(1)?;
        Ok(DistTag {
            tag: Text::from(tag),
            version: Text::from(version),
        })
    }
}
