//! The administrator's worker: it runs the administrator's lines of a session over a coordinator, whatever its managers are.
//! Each manager's turns grow by those that a walk of the lines gives it, and the versions noticed are explained by the lines.
#![tactic(auto)]

mod lines;
mod walk;

pub use walk::{run_admin, run_admin_lines};
