//! First words that begin no line of the place where they stand.

use crate::declared::Sought;
use crate::forms::{begins_in, forms_in, part_at};
use crate::misfits::has_capital;
use crate::mistake::Piece::{Before, Here, Name, Names, Number, Said, Words};
use crate::mistake::{Known, Mistake, Piece};
use crate::places::Place;
use crate::scene::Scene;
use flask_sid::Word;

impl Scene<'_> {
    /// What is wrong with a line of no known form.
    pub(crate) fn head_mistake(&self) -> Mistake {
        match self.place {
            Place::Policy => self.misplaced_in_policy(),
            Place::Setup => self.misplaced_in_setup(),
            Place::Run => self.run_head_mistake(),
        }
    }

    fn no_head(&self, of: &'static str) -> Mistake {
        let what: &'static [Piece] = if has_capital(self.word(0)) {
            &[
                Said("'"),
                Here,
                Said("' begins no line of "),
                Name,
                Said(": it has a capital letter, and first words have small letters alone"),
            ]
        } else {
            &[Said("'"), Here, Said("' begins no line of "), Name]
        };
        self.told(0, what).with_name(of).with_known(Known::Heads)
    }

    /// A line in the policy that would stand in another part of a text, or in none.
    fn misplaced_in_policy(&self) -> Mistake {
        if self.is_run_line() {
            return self.above_run(
                "a line that runs stands above any line session: the lines session and run are missing above it",
            );
        }
        if !self.is_of(Place::Setup) {
            return self.no_head("a policy");
        }
        match self.line_below(Sought::Head("session")) {
            None => self.told(
                0,
                &[Said(
                    "a line of a session stands in a policy: the line session is missing above it",
                )],
            ),
            Some(line) => self.by_line(
                "a line of a session stands in the policy: it belongs below the line session, which is line ",
                line,
            ),
        }
    }

    /// A line of a session's start that would stand in another part of a text, or in none.
    fn misplaced_in_setup(&self) -> Mistake {
        if self.is_run_line() {
            return self.above_run("a line that runs stands above the line run, which is missing");
        }
        if !self.is_of(Place::Policy) {
            return self.no_head("a session above its line run");
        }
        let what = if self.word(0) == "session" {
            "there is a line session above, which is line "
        } else {
            "a line of a policy stands below the line session, which is line "
        };
        self.by_line(what, self.line_above(Sought::Head("session")).unwrap_or(0))
    }

    /// A line that runs above the line `run`, which may be missing.
    fn above_run(&self, missing: &'static str) -> Mistake {
        match self.line_below(Sought::Head("run")) {
            None => self.told(0, &[Name]).with_name(missing),
            Some(line) => self.by_line(
                "a line that runs stands too early: it belongs below the line run, which is line ",
                line,
            ),
        }
    }

    /// A mistake at the first word, with the number of a line at the end of the sentence.
    pub(crate) fn by_line(&self, what: &'static str, line: u32) -> Mistake {
        self.told(0, &[Name, Number])
            .with_name(what)
            .with_line(line)
    }

    /// Whether the first word begins a line of a place.
    fn is_of(&self, place: Place) -> bool {
        begins_in(place, self.word(0))
    }

    /// Whether it looks like a line that runs.
    fn is_run_line(&self) -> bool {
        if self.word(0) == "admin" {
            return true;
        }
        !self.is_of(Place::Setup) && !self.is_of(Place::Policy) && self.has_manager()
    }

    /// What is wrong with a line below `run` that has no form.
    fn run_head_mistake(&self) -> Mistake {
        let first = self.word(0);
        if first == "admin" {
            return self.call_mistake(0);
        }
        if self.is_declared("client", first) {
            return self.client_mistake();
        }
        if self.has_manager() && Word::new(first.as_bytes()).is_name_form() {
            return self.call_mistake(1);
        }
        if self.is_of(Place::Setup) || self.is_of(Place::Policy) {
            return self.below_run();
        }
        self.nobody().with_known(Known::Callers)
    }

    fn client_mistake(&self) -> Mistake {
        if self.has_manager() {
            self.call_mistake(1)
        } else {
            self.manager_mistake()
        }
    }

    fn below_run(&self) -> Mistake {
        let what = if self.word(0) == "run" {
            "there is a line run above, which is line "
        } else {
            "a line of the policy or of the start stands below the line run, which is line "
        };
        self.by_line(what, self.line_above(Sought::Head("run")).unwrap_or(0))
    }

    /// The first word is whose line it is, and names nobody.
    fn nobody(&self) -> Mistake {
        match self.word(0) {
            "notify" | "update" | "ack" | "force" => self.told(
                0,
                &[
                    Said("'"),
                    Here,
                    Said("' is neither a client nor admin; the administrator says admin "),
                    Words,
                ],
            ),
            _ => self.told(
                0,
                &[
                    Said("'"),
                    Here,
                    Said(
                        "' is neither a client nor admin, and a line that runs begins with one of them",
                    ),
                ],
            ),
        }
    }

    fn has_manager(&self) -> bool {
        match self.word(1) {
            "file" | "process" | "port" => true,
            _ => false,
        }
    }

    /// What is wrong with the second word of a client's line, which should be a manager.
    fn manager_mistake(&self) -> Mistake {
        if self.words.len() < 2 {
            return self.told(
                1,
                &[Said("a word is missing: a manager, which is file, process or port")],
            );
        }
        match form_of_call(self.word(1)) {
            Some(form) => self.no_manager_before(form),
            None => self
                .told(
                    1,
                    &[
                        Said("'"),
                        Here,
                        Said("' is no manager: file, process or port"),
                    ],
                )
                .with_known(Known::Managers),
        }
    }

    /// The manager of a call was forgotten.
    fn no_manager_before(&self, form: &'static str) -> Mistake {
        let mut mistake = self
            .told(
                1,
                &[
                    Said("a manager is missing before '"),
                    Here,
                    Said("', which is a call of "),
                    Name,
                ],
            )
            .with_name(part_at(form, 1));
        mistake.form = Some(form);
        mistake
    }

    /// The word behind a place should be a call of the manager, or of the administrator, whose word stands there.
    fn call_mistake(&self, place: usize) -> Mistake {
        let at = place.saturating_add(1);
        let what: &'static [Piece] = if self.words.len() <= at {
            &[
                Said("a word is missing: what is asked of "),
                Before,
                Said("; there are "),
                Names,
            ]
        } else if place == 0 {
            &[
                Said("'"),
                Here,
                Said("' is nothing that admin does: "),
                Names,
                Said(" are"),
            ]
        } else {
            &[
                Said("'"),
                Here,
                Said("' is no call of the manager "),
                Before,
                Said("; there are "),
                Names,
            ]
        };
        self.told(at, what).with_known(Known::Calls(place))
    }
}

/// The form of the first call with this name.
fn form_of_call(name: &str) -> Option<&'static str> {
    'forms: for form in forms_in(Place::Run) {
        if part_at(*form, 0) == "CLIENT" && part_at(*form, 2) == name {
            return Some(*form);
        }
    }
    None
}
