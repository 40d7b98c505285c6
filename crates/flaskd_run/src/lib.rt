//! The program: reads a session, runs its lines on the managers, and prints what they answer.
#![tactic(auto)]

mod path_texts;
mod paths;
mod reading;
mod said;
mod status;
mod task;
mod texts;
mod threads;
mod top;

pub use reading::INPUT_LIMIT;
pub use run_stops::{NoStops, Stops};
pub use said::status_text;
pub use status::Status;
pub use top::flaskd;
