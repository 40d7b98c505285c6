//! The policy of every session that is made.

ghost use Rattle.std.specs.Prelude.{◌≡◌, IfOk};
ghost use Rattle.session_generator.specs.Generated;

use flask_sid::Memory;
use policy_text::PolicyText;
use std::alloc::Global;
use text_lines::TextFault;

/// Three contexts and three versions, each of which allows less or other things than the first.
const POLICY_TEXT: &str = "policy 1
context u:r:a_t
context u:r:b_t
context u:object_r:d_t
version
allow * * dir search add_name
allow * * file create read write
allow * * process fork
allow * * port name_bind recv send
version
allow * * dir search
allow a_t * file read write
allow * self process fork
allow a_t * port name_bind recv send
version
allow * * dir search
allow b_t * file read
";

/// The policy of every session that is made.
pub fn policy(alloc: Global) -> Result<PolicyText, Memory>
    ensures { IfOk result (λ policy. policy ≡ Generated.policy) }
{
    match policy_text::read(alloc, POLICY_TEXT.as_bytes()) {
        Ok(policy) => Ok(policy),
        Err(TextFault::Memory) => Err(Memory),
        Err(TextFault::Text { line: _, kind: _ }) => unreachable!(),
    }
}
