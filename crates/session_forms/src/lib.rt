//! What the words of a session text say by themselves: its session lines, and the arguments and the names of calls.
#![tactic(auto)]

mod argument_types;
mod arguments;
pub mod call_names;
mod first_faults;
mod parts;
mod path_index;
mod ranges;
mod run_forms;
mod setup_forms;

pub use argument_types::{
    bind_mode_of, code_of, connect_mode_of, datum_of, entry_of, length_of, mode_of, offset_of,
    path_of, pid_of, port_of, signal_of, skip_of, slot_of, value_of, version_of,
};
pub use arguments::{is_end, one_word, three_words, two_words};
pub use first_faults::{both, both_made, first_kind, judged};
pub use parts::{Parts, path_form};
pub use path_index::PathIndex;
pub use ranges::{is_long_data, is_past_place};
pub use run_forms::{Manager, manager_of};
pub use setup_forms::{Initial, SetupForm, setup_form};
