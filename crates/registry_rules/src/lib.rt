//! The rules of the registry, apart from where its packages are kept: what can be asked, what is
//! answered, and the decision on a request from the facts that it rests on.
//!
//! A decision changes nothing itself. [`may_ask`] answers whether a request is refused, and
//! [`decide`] what one that isn't changes: a list of changes, each of which says all that it does,
//! and which is empty for a query.
#![tactic(auto)]

mod change;
mod decision;
mod facts;
mod grants;
pub mod laws;
mod organisations;
mod policy;
mod publish;
mod reply;
mod request;
mod tags;
mod teams;
mod users;
mod withdrawals;

pub use crate::change::{Change, Changes};
pub use crate::decision::{decide, may_ask};
pub use crate::facts::{About, Facts, LiveVersion, PublishFacts};
pub use crate::organisations::DEVELOPERS;
pub use crate::reply::Reply;
pub use crate::request::{Action, Asked, Credential, Request};
