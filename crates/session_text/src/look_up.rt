//! What the lines above have: contexts, clients and ports.

ghost use Rattle.std.specs.Prelude.{◌≡◌, ◌<◌, ◌≤◌, length, option_and_then, IfSome};
ghost use Rattle.std.specs.List.{position};
ghost use Rattle.std.specs.Str.{bytes_eq};
ghost use Rattle.policy_model.specs.Declarations.{same_context};
ghost use Rattle.session_text.specs.Above;

use flask_sid::{ContextOf, Sid, Word};
use policy_text::ContextIndex;
use port_calls::LabelledPort;
use text_lines::WordIndex;

/// The identifier of a declared context: its place among the `context` lines, from 1.
pub fn context_sid<'a>(contexts: &ContextIndex<'a>, context: &ContextOf<Word<'a>>) -> Option<Sid>
    ensures { result ≡ option_and_then Above.sid_at (position (λ kept. same_context kept context.now) contexts.now) }
{
    match contexts.place(context) {
        None => None,
        Some(at) => {
            if at < 4095 {
                Sid::of(at as u16 + 1)
            } else {
                None
            }
        }
    }
}

/// The number of a client.
pub fn client_number<'a>(clients: &WordIndex<'a>, name: &Word<'a>) -> Option<u8>
    requires { length clients.now ≤ 62 }
    ensures value { result ≡ position (bytes_eq name.now) clients.now }
    ensures within { IfSome result (λ number. number < length clients.now) }
{
    match clients.place(name) {
        None => None,
        Some(at) => Some(at as u8),
    }
}

/// Whether a port of that number has a context of its own.
#[tactic(auto, unfolding(crate::specs::Above::has_port))]
pub fn has_port(ports: &[LabelledPort], number: u32) -> bool
    ensures { result ≡ Above.has_port ports.now number }
{
    ports.iter().any(|line| line.port == number)
}
