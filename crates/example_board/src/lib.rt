//! One notice board, an example of a manager: a number that clients read and post through slots.
//!
//! `specs/Plain.antt` is the definition, by which every answer of the code is judged: a slot gives nothing by itself, and each
//! use asks anew. The code (`BoardCore`) keeps for each slot the bits of its mode that are usable, and asks nobody where they
//! follow the call's policy number. `docs/MANAGERS.md` walks through it.
#![tactic(auto)]

mod board;
mod board_core;
mod call;
mod opening;
mod replies;
mod rows;
mod slots;

pub use board_core::{BoardCore, new};
pub use call::{BoardCall, BoardReply};
pub use opening::BoardOpening;
