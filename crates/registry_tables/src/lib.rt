//! What the registry holds, kept in the tables of an SQL database.
//!
//! Each call runs fixed texts with parameters, each over one table or a join of two, inside the
//! caller's transaction: it changes what the transaction sees, and nothing is kept until that is
//! committed. The fault `Memory` is returned for a statement that runs out of memory, and
//! `Database` for every other error.
#![tactic(auto)]

mod access;
mod archives;
mod callers;
mod change;
mod counters;
mod dependents;
mod grants;
pub mod laws;
mod levels;
mod maintainers;
mod members;
mod meta;
mod moments;
mod needs;
mod numbers;
mod organisations;
mod packages;
mod passing;
mod queries;
mod schema;
mod scopes;
mod spent;
mod standing;
mod statuses;
mod tags;
mod team_members;
mod team_packages;
mod teams;
mod texts;
mod tokens;
mod users;
mod versions;
mod walk;
mod withdrawals;

pub use crate::access::load_access;
pub use crate::archives::{hold_archive, load_archive, store_archive};
pub use crate::callers::load_caller;
pub use crate::change::make;
pub use crate::counters::counts_archives_alone;
pub use crate::dependents::{is_any_depended, is_depended};
pub use crate::grants::{has_grant, load_grants};
pub use crate::levels::{load_own_packages, load_scope_packages};
pub use crate::maintainers::{has_other_maintainer, is_maintainer, load_maintainers};
pub use crate::members::{has_other_owner, load_members, load_role};
pub use crate::meta::opened;
pub use crate::needs::put_needs;
pub use crate::numbers::numbers_are_in_range;
pub use crate::organisations::{has_organisation, load_organisations};
pub use crate::packages::load_packages;
pub use crate::schema::{TABLES, create};
pub use crate::scopes::are_grants_in_scope;
pub use crate::spent::{is_spent, load_last_withdrawal, load_spent_publications};
pub use crate::standing::load_standing;
pub use crate::statuses::load_status;
pub use crate::tags::{has_tag, load_tag, load_tags, load_version_tags};
pub use crate::team_members::{is_in_team, load_team_users};
pub use crate::team_packages::load_team_packages;
pub use crate::teams::{has_team, load_teams};
pub use crate::tokens::{load_token_user, load_user_tokens};
pub use crate::users::{has_nameless_user, has_user, load_users};
pub use crate::versions::{
    DocumentRow, has_live, has_version, load_document, load_live, load_live_since, load_published,
    load_times, put_version,
};
pub use crate::walk::{LiveRows, VersionWalk, walk_versions};
