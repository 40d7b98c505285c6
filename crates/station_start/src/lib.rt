//! The three stations of a session are opened, and its clients get their seats there.
#![tactic(auto)]

mod opening;
mod seating;
mod started;

pub use opening::start;
pub use seating::{seat_all, seat_client};
pub use started::{Admins, ClientSeats, Limits, Started, ThreeStations};
