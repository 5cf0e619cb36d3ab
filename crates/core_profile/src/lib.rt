//! The parameters of a core: how wide its parts are, how much room they have, how long each kind of instruction
//! takes, and by which policies it fetches and issues.
#![tactic(auto)]

mod fault;
mod fields;
mod key;
mod policy;
mod profile;
mod ranges;
mod table;
mod wrong;

pub use fault::ProfileFault;
pub use fields::ProfileFields;
pub use key::Key;
pub use policy::{FetchPolicy, IssuePolicy};
pub use profile::Profile;
