//! Grants, written line by line.

ghost use Rattle.std.specs.Prelude.{◌≡◌, ◌++◌, Err, OnOk, OnErr};
ghost use Rattle.flask_io.specs.Streams.{Adds, HasCause};
ghost use Rattle.text_print.specs.Printed.{ended};
ghost use Rattle.run_output.specs.Writing.{AddsFront};
ghost use Rattle.run_output.specs.declared.stop.RunStop.{RunStop};
ghost use Rattle.grant_print.specs.Printed;

use access_vectors::class_name;
use audit_allow::{Grant, Learned, type_name};
use flask_io::Sink;
use flask_sid::{Memory, Text};
use policy_model::PolicyParts;
use policy_print::put_perms;
use run_output::{RunStop, put_line};
use std::alloc::Global;
use text_print::put_word;

/// Writes what is learned: what may be allowed, and then what is refused.
pub fn write_learned<K: Sink>(
    alloc: Global,
    policy: &PolicyParts,
    learned: &Learned,
    sink: &mut K,
) -> Result<(), RunStop>
    ensures ok { OnOk result (Adds (K.written sink.old) (K.written sink.new) (Printed.learned_text policy.now learned.now.allow learned.now.refused)) }
    ensures err { OnErr result (AddsFront (K.written sink.old) (K.written sink.new) (Printed.learned_text policy.now learned.now.allow learned.now.refused)) }
    ensures cause { HasCause (K.faults sink.old) (K.faults sink.new) (result ≡ Err RunStop.WriteFault) }
{
    write_grants(alloc, policy, b"allow", learned.allow.as_slice(), sink)?;
    write_grants(alloc, policy, b"refused", learned.refused.as_slice(), sink)
}

/// Writes a line with this first word for each of these grants, each in a write of its own.
fn write_grants<K: Sink>(
    alloc: Global,
    policy: &PolicyParts,
    first: &[u8],
    grants: &[Grant],
    sink: &mut K,
) -> Result<(), RunStop>
    ensures ok { OnOk result (Adds (K.written sink.old) (K.written sink.new) (Printed.grants_text policy.now first.now grants.now)) }
    ensures err { OnErr result (AddsFront (K.written sink.old) (K.written sink.new) (Printed.grants_text policy.now first.now grants.now)) }
    ensures cause { HasCause (K.faults sink.old) (K.faults sink.new) (result ≡ Err RunStop.WriteFault) }
{
    let mut out = Text::new(alloc);
    'grants: for grant in grants {
        out.clear();
        put_grant(&mut out, policy, first, grant)?;
        put_line(sink, &out)?;
    }
    Ok(())
}

/// Puts the line of a grant: its first word, the two types, the class, and the permissions.
fn put_grant(
    out: &mut Text,
    policy: &PolicyParts,
    first: &[u8],
    grant: &Grant,
) -> Result<(), Memory>
    ensures { OnOk result (out.new ≡ out.old ++ Printed.grant_text policy.now first.now grant.now) }
{
    out.extend(first)?;
    put_word(out, type_name(policy, grant.s))?;
    put_word(out, type_name(policy, grant.t))?;
    put_word(out, class_name(grant.class).as_bytes())?;
    put_perms(out, grant.class, grant.perms)?;
    out.push(b'\n')
}
