//! The labels of ports.

ghost use Rattle.std.specs.Prelude.{◌≡◌};
ghost use Rattle.port_calls.specs.States.{label_in};

use flask_sid::Sid;
use port_calls::LabelledPort;

/// The label of a port: its own, where one of the lines gives it one, and else the initial one.
pub fn label_in(lines: &[LabelledPort], initial: Sid, port: u32) -> Sid
    ensures { result ≡ label_in lines.now initial port }
{
    for line in lines {
        if line.port == port {
            return line.sid;
        }
    }
    initial
}
