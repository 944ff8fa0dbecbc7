//! The file of a registry, and the server that has it: what is asked of either, checks, copies and
//! what is made of them, and why there is no answer.
#![tactic(auto)]

mod asking;
mod begins;
mod beside;
mod checking;
mod checking_beside;
mod copying;
mod ending;
mod held;
mod lines;
mod making;
mod opening;
mod parts;
mod progress;
mod registries;
mod reporting;
mod restoring;
mod stopping;

pub use crate::asking::{Answer, Question, answer_to};
pub use crate::begins::Begins;
pub use crate::beside::{print_sent, print_sent_token};
pub use crate::checking::print_check;
pub use crate::copying::{back_up, write_copy};
pub use crate::ending::{Blockage, Ending, Failure, Obstacle, Snag, Trouble};
pub use crate::lines::{DONE, print_done, print_wrong};
pub use crate::making::{make_new, settle_new};
pub use crate::opening::{close_files, open_once, open_soon};
pub use crate::registries::Registries;
pub use crate::reporting::report;
pub use crate::restoring::{restore, settle_copy};
pub use crate::stopping::stop;
