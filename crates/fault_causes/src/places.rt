//! In which part of a text a line stands.

use crate::lines::word_at;

/// The part of a text in which a line stands: the policy, down to the line `session`; what is there at the start, down to the line
/// `run`; or the lines that run.
#[derive(Clone, Copy, PartialEq, Eq)]
pub(crate) enum Place {
    Policy,
    Setup,
    Run,
}

/// The place of the line below these.
pub(crate) fn place_below(lines: &[(u32, &[u8])]) -> Place {
    let mut place = Place::Policy;
    'lines: for line in lines {
        place = after(place, word_at(line.1, 0));
    }
    place
}

fn after(place: Place, first: &str) -> Place {
    match place {
        Place::Policy => if first == "session" {
            Place::Setup
        } else {
            Place::Policy
        },
        Place::Setup => if first == "run" {
            Place::Run
        } else {
            Place::Setup
        },
        Place::Run => Place::Run,
    }
}
