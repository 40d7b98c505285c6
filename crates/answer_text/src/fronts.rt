//! What stands in front of a reply: the line of the call, the client, the manager and the policy number.

ghost use Rattle.std.specs.Prelude.{◌≡◌, ◌++◌, OnOk, OnErr};
ghost use Rattle.std.specs.List.{flat_map};
ghost use Rattle.text_print.specs.Printed.{behind, spaced};
ghost use Rattle.text_print.specs.Fronts.{IsFront};
ghost use Rattle.answer_text.specs.Fronts;

use flask_sid::{Memory, Text};
use session_forms::Manager;
use session_print::{client_name, put_manager};
use session_text::ClientLine;
use text_lines::put_number;
use text_print::{put_numeral, put_word};

/// Which call it was: the number of its line, the client, the manager, and the policy number.
#[derive(Clone, Copy, Debug, PartialEq, Eq)]
pub struct Front {
    pub line: u32,
    pub client: u8,
    pub manager: Manager,
    pub number: u32,
}

/// Puts the words in front of a reply, with one space between them.
#[inline(always)]
pub fn put_front(out: &mut Text, clients: &[ClientLine], front: Front) -> Result<(), Memory>
    ensures ok { OnOk result (out.new ≡ out.old ++ spaced (Fronts.front_words clients.now front)) }
    ensures err { OnErr result (IsFront out.old out.new) }
{
    put_number(out, u64::from(front.line))?;
    put_word(out, client_name(clients, front.client))?;
    put_manager(out, front.manager)?;
    put_numeral(out, u64::from(front.number))
}

/// Puts what stands for a reply where a call was aborted, behind a space.
pub fn put_aborted(out: &mut Text) -> Result<(), Memory>
    ensures ok { OnOk result (out.new ≡ out.old ++ flat_map behind Fronts.aborted_words) }
    ensures err { OnErr result (IsFront out.old out.new) }
{
    put_word(out, b"aborted")
}
