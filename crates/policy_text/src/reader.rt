//! Reading a policy text to its end.

ghost use Rattle.std.specs.Prelude.{◌≡◌, None, OnErr};
ghost use Rattle.text_lines.specs.Refusals.{GivesText};
ghost use Rattle.text_lines.specs.declared.fault.TextFault.TheVariants as text_fault;
ghost use Rattle.text_lines.specs.declared.fault.FaultKind.TheVariants as fault_kind;
ghost use Rattle.policy_text.specs.Grammar;
ghost use Rattle.policy_text.specs.Leaving.{LeavesText};
ghost use Rattle.policy_text.specs.Reading.{IsEnded, IsRefusedAt, begun, read_on};

use crate::contexts::ContextIndex;
use crate::draft::Draft;
use crate::line::line_read;
use policy_model::{PolicyParts, PolicyText};
use std::alloc::Global;
use std::marker::Model;
use text_lines::{FaultKind, Line, Lines, Refusal, TextFault};

/// Reads a policy text that is handed over line after line, as by the reader of a longer text whose front a policy
/// is. Contracts see the number of the next line and what the lines above it say.
#[derive(Drop)]
pub struct PolicyReader<'a> {
    number: u32,
    above: Option<Draft<'a>>,
}

impl<'a> Model for PolicyReader<'a> {
    ghost use Rattle.policy_text.specs.Reading.{Reading, IsLawful};

    ghost Value = { Reading };

    ghost view = { λ reader. record { number = reader.number; above = reader.above } };

    ghost invariant = { λ reader. IsLawful reader.number reader.above };
}

impl<'a> PolicyReader<'a> {
    /// The reader of a text's first line.
    pub fn new() -> PolicyReader<'a>
        ensures { result ≡ begun }
    {
        PolicyReader {
            number: 1,
            above: None,
        }
    }

    /// The number of the next line.
    pub fn number(&self) -> u32
        ensures { result ≡ self.now.number }
    {
        self.number
    }

    /// Reads one line more, or answers that line's fault, with which the text is refused. A reader that has refused a line
    /// has read nothing any more.
    #[tactic(auto, unfolding(crate::specs::Reading::read_on))]
    pub fn read_line(&mut self, alloc: Global, line: &Line<'a>) -> Result<(), TextFault>
        ensures read { LeavesText result self.new (read_on self.old line.now) }
        ensures refused { OnErr result (self.new.above ≡ None) }
    {
        let number = self.number;
        match line_read(alloc, number, line, &mut self.above) {
            Ok(()) => {
                self.number = number + 1;
                Ok(())
            }
            Err(refusal) => {
                forget(&mut self.above);
                Err(refused_at(number, refusal))
            }
        }
    }

    /// The policy of a text that ends here, and its contexts by their index. `Ended` exactly where it has no context or no
    /// version yet.
    #[tactic(auto, unfolding(crate::specs::Grammar::end_read))]
    pub fn finish(self) -> Result<(PolicyText, ContextIndex<'a>), TextFault>
        ensures { IsEnded result (Grammar.end_read self.entry.number self.entry.above) }
    {
        let PolicyReader { number, above } = self;
        match above {
            Some(draft) => {
                let (policy, contexts) = draft.finish();
                if is_whole(&policy) {
                    Ok((PolicyText::of(policy), contexts))
                } else {
                    Err(ended_at(number))
                }
            }
            None => Err(ended_at(number)),
        }
    }
}

// Forgets what was read. It is not inlined, so that a line that is read makes no room for what is forgotten.
#[inline(never)]
fn forget(above: &mut Option<Draft<'_>>)
    ensures { above.new ≡ None }
{
    *above = None;
}

fn ended_at(number: u32) -> TextFault
    ensures { result ≡ text_fault.Text number fault_kind.Ended }
{
    TextFault::Text {
        line: number,
        kind: FaultKind::Ended,
    }
}

// The fault of a line that was refused.
fn refused_at(line: u32, refusal: Refusal) -> TextFault
    ensures { IsRefusedAt result line refusal }
{
    match refusal {
        Refusal::Fault(kind) => TextFault::Text { line, kind },
        Refusal::Memory => TextFault::Memory,
    }
}

#[tactic(auto, unfolding(crate::specs::Grammar::is_whole))]
fn is_whole(policy: &PolicyParts) -> bool
    ensures { result ≡ Grammar.is_whole policy.now }
{
    !policy.contexts.is_empty() && !policy.versions.is_empty()
}

/// Reads a policy text. Ok exactly where it is one, and else its first faulty line and what is wrong with it.
pub fn read(alloc: Global, bytes: &[u8]) -> Result<PolicyText, TextFault>
    ensures { GivesText result (Grammar.policy_of bytes.now) }
{
    let mut reader = PolicyReader::new();
    let mut lines = Lines::of(bytes);
    'lines: while let Some(line) = lines.next() {
        match reader.read_line(alloc, &line) {
            Ok(()) => {}
            Err(fault) => return Err(fault),
        }
    }
    match reader.finish() {
        Ok((policy, _contexts)) => Ok(policy),
        Err(fault) => Err(fault),
    }
}
