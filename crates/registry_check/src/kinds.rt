//! How the rows of each table are read.

ghost use Rattle.std.specs.Prelude.{◌≡◌, ℕ, ℤ, List};
ghost use Rattle.registry_access.specs.RowMaps.{grant_entry, maintainer_entry, member_entry, organisation_entry, package_entry, team_entry, team_member_entry};
ghost use Rattle.registry_access.specs.declared.grant.Grant.{Grant as Right};
ghost use Rattle.registry_access.specs.declared.role.Role.{Role as Rank};
ghost use Rattle.registry_names.specs.Keys.{Pair, Triple};
ghost use Rattle.registry_names.specs.Texts.{Text as Bytes};
ghost use Rattle.registry_names.specs.declared.status.Status.{Status as Readers};
ghost use Rattle.registry_tables.specs.Contents.{LiveVersion};
ghost use Rattle.registry_tables.specs.Numbers as numbers;
ghost use Rattle.registry_check.specs.Rows.{NeedKey, archive_entry, held_entry, like_entry, live_entry, need_entry, token_entry, user_entry};
ghost use Rattle.registry_check.specs.Spelled.{archive_spelled, grant_spelled, held_spelled, like_spelled, live_spelled, member_spelled, name_spelled, need_spelled, package_spelled, pair_spelled, token_spelled, triple_spelled};

use crate::archives::{Archives, Held, Likes};
use crate::packages::{Grants, Maintainers, Published};
use crate::people::{Members, Organisations, TeamMembers, Teams, Tokens, Users};
use crate::tables::{ArchiveRow, HeldRow, LikeRow, LiveRow, NeedRow, TokenRow};
use crate::versions::{Live, Needs};
use registry_access::{
    Grant, GrantRow, MaintainerRow, MemberRow, PackageRow, Role, TeamMemberRow, TeamRow,
};
use registry_names::{Blob, Status, Text};
use registry_rows::RowKind;
use sqlite::{Error, Row};

impl RowKind for Users {
    type Value = Text;

    ghost Seen = { Bytes × Unit {0} };

    ghost seen = { user_entry };

    ghost spelled = { name_spelled };

    fn read(row: &Row) -> Result<Text, Error> {
        let name: String = row.get(0)?;
        Ok(Text::from(name))
    }
}

impl RowKind for Tokens {
    type Value = TokenRow;

    ghost Seen = { Bytes × Bytes };

    ghost seen = { token_entry };

    ghost spelled = { token_spelled };

    fn read(row: &Row) -> Result<TokenRow, Error> {
        let digest: Vec<u8> = row.get(0)?;
        let user: String = row.get(1)?;
        Ok(TokenRow {
            digest: Blob::from(digest),
            user: Text::from(user),
        })
    }
}

impl RowKind for Organisations {
    type Value = Text;

    ghost Seen = { Bytes × Unit {0} };

    ghost seen = { organisation_entry };

    ghost spelled = { name_spelled };

    fn read(row: &Row) -> Result<Text, Error> {
        let name: String = row.get(0)?;
        Ok(Text::from(name))
    }
}

impl RowKind for Members {
    type Value = MemberRow;

    ghost Seen = { Pair × Rank };

    ghost seen = { member_entry };

    ghost spelled = { member_spelled };

    fn read(row: &Row) -> Result<MemberRow, Error> {
        let organisation: String = row.get(0)?;
        let user: String = row.get(1)?;
        let role = role_of(row.get(2)?);
        Ok(MemberRow {
            organisation: Text::from(organisation),
            user: Text::from(user),
            role,
        })
    }
}

impl RowKind for Teams {
    type Value = TeamRow;

    ghost Seen = { Pair × Unit {0} };

    ghost seen = { team_entry };

    ghost spelled = { pair_spelled };

    fn read(row: &Row) -> Result<TeamRow, Error> {
        let organisation: String = row.get(0)?;
        let team: String = row.get(1)?;
        Ok(TeamRow {
            organisation: Text::from(organisation),
            team: Text::from(team),
        })
    }
}

impl RowKind for TeamMembers {
    type Value = TeamMemberRow;

    ghost Seen = { Triple × Unit {0} };

    ghost seen = { team_member_entry };

    ghost spelled = { triple_spelled };

    fn read(row: &Row) -> Result<TeamMemberRow, Error> {
        let organisation: String = row.get(0)?;
        let team: String = row.get(1)?;
        let user: String = row.get(2)?;
        Ok(TeamMemberRow {
            organisation: Text::from(organisation),
            team: Text::from(team),
            user: Text::from(user),
        })
    }
}

impl RowKind for Published {
    type Value = PackageRow;

    ghost Seen = { Bytes × Readers };

    ghost seen = { package_entry };

    ghost spelled = { package_spelled };

    fn read(row: &Row) -> Result<PackageRow, Error> {
        let name: String = row.get(0)?;
        let status = status_of(row.get(1)?);
        Ok(PackageRow {
            package: Text::from(name),
            status,
        })
    }
}

impl RowKind for Grants {
    type Value = GrantRow;

    ghost Seen = { Triple × Right };

    ghost seen = { grant_entry };

    ghost spelled = { grant_spelled };

    fn read(row: &Row) -> Result<GrantRow, Error> {
        let organisation: String = row.get(0)?;
        let team: String = row.get(1)?;
        let name: String = row.get(2)?;
        let grant = grant_of(row.get(3)?);
        Ok(GrantRow {
            organisation: Text::from(organisation),
            team: Text::from(team),
            package: Text::from(name),
            grant,
        })
    }
}

impl RowKind for Maintainers {
    type Value = MaintainerRow;

    ghost Seen = { Pair × Unit {0} };

    ghost seen = { maintainer_entry };

    ghost spelled = { pair_spelled };

    fn read(row: &Row) -> Result<MaintainerRow, Error> {
        let name: String = row.get(0)?;
        let user: String = row.get(1)?;
        Ok(MaintainerRow {
            package: Text::from(name),
            user: Text::from(user),
        })
    }
}

impl RowKind for Live {
    type Value = LiveRow;

    ghost Seen = { Pair × LiveVersion };

    ghost seen = { live_entry };

    ghost spelled = { live_spelled };

    fn read(row: &Row) -> Result<LiveRow, Error> {
        let name: String = row.get(0)?;
        let version: String = row.get(1)?;
        let published = row.get(2)?;
        let manifest: String = row.get(3)?;
        let message: String = row.get(4)?;
        let archive: Vec<u8> = row.get(5)?;
        Ok(LiveRow {
            package: Text::from(name),
            version: Text::from(version),
            published,
            manifest: Text::from(manifest),
            archive: Blob::from(archive),
            message: Text::from(message),
        })
    }
}

impl RowKind for Needs {
    type Value = NeedRow;

    ghost Seen = { NeedKey × Unit {0} };

    ghost seen = { need_entry };

    ghost spelled = { need_spelled };

    fn read(row: &Row) -> Result<NeedRow, Error> {
        let name: String = row.get(0)?;
        let version: String = row.get(1)?;
        let target: String = row.get(2)?;
        let range: String = row.get(3)?;
        Ok(NeedRow {
            package: Text::from(name),
            version: Text::from(version),
            target: Text::from(target),
            range: Text::from(range),
        })
    }
}

impl RowKind for Held {
    type Value = HeldRow;

    ghost Seen = { Pair × ℤ };

    ghost seen = { held_entry };

    ghost spelled = { held_spelled };

    fn read(row: &Row) -> Result<HeldRow, Error> {
        let name: String = row.get(0)?;
        let version: String = row.get(1)?;
        let archive = row.get(2)?;
        Ok(HeldRow {
            package: Text::from(name),
            version: Text::from(version),
            archive,
        })
    }
}

impl RowKind for Archives {
    type Value = ArchiveRow;

    ghost Seen = { ℤ × Bytes };

    ghost seen = { archive_entry };

    ghost spelled = { archive_spelled };

    fn read(row: &Row) -> Result<ArchiveRow, Error> {
        let number = row.get(0)?;
        let integrity: String = row.get(1)?;
        Ok(ArchiveRow {
            number,
            integrity: Text::from(integrity),
        })
    }
}

impl RowKind for Likes {
    type Value = LikeRow;

    ghost Seen = { ℤ × List ℕ };

    ghost seen = { like_entry };

    ghost spelled = { like_spelled };

    fn read(row: &Row) -> Result<LikeRow, Error> {
        let number = row.get(0)?;
        let bytes: Vec<u8> = row.get(1)?;
        Ok(LikeRow {
            number,
            bytes: Blob::from(bytes),
        })
    }
}

// What the registry reads the number of a role as.
fn role_of(number: i64) -> Role
    ensures { result ≡ numbers.role_of number }
{
    if number == 2 {
        Role::Owner
    } else if number == 1 {
        Role::Admin
    } else {
        Role::Developer
    }
}

fn status_of(number: i64) -> Status
    ensures { result ≡ numbers.status_of number }
{
    if number == 1 {
        Status::Public
    } else {
        Status::Restricted
    }
}

fn grant_of(number: i64) -> Grant
    ensures { result ≡ numbers.grant_of number }
{
    if number == 2 {
        Grant::ReadWrite
    } else {
        Grant::ReadOnly
    }
}
