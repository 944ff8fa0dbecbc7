//! Who may do what: roles, levels, and the policy.
//!
//! A caller has a level on each package: nothing, read or write. What they ask is allowed by one of
//! the rules A1 to A10, or refused. Both follow from the rows of members, teams and grants, and take
//! no memory. Contracts say so of the registry's whole state: a package that a caller may not read
//! looks as if it had never been published, except to a member of its scope who publishes it.
#![tactic(auto)]

mod access;
mod ask;
mod caller;
mod grant;
pub mod laws;
mod levels;
mod lookup;
mod policy;
mod position;
mod role;
mod rows;
mod search;
mod standing;

pub use crate::access::{allowed, allowed_by, level, level_of};
pub use crate::ask::Ask;
pub use crate::caller::Caller;
pub use crate::grant::Grant;
pub use crate::levels::Level;
pub use crate::policy::{may_end_token, may_operate};
pub use crate::role::Role;
pub use crate::rows::{
    AccessRows, GrantRow, MaintainerRow, MemberRow, PackageRow, TeamMemberRow, TeamRow,
};
pub use crate::standing::Standing;
