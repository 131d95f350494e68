// The profile of a replay: stream models and configuration as in the Rust, the limits of document 01, the work that a
// replay needs, and whose packets a PID carries.
#![tactic(auto)]

pub mod config;
pub mod limits;
pub mod model;
pub mod owner;
mod range;
pub mod work;

pub use config::{TStdConfig, TStdStream};
pub use limits::{Limits, in_limits};
pub use model::{TStdBranch, TStdStreamModel};
pub use owner::{Owner, Pids};
pub use work::{WorkSize, check};
