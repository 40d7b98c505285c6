//! What `flow` and `enter` print, line by line.

ghost use Rattle.std.specs.Prelude.{◌≡◌, ◌++◌, Err, OnOk, OnErr, codes, decimal};
ghost use Rattle.std.specs.List.{flat_map};
ghost use Rattle.flask_io.specs.Streams.{Adds, HasCause};
ghost use Rattle.policy_versions.specs.Places.{kind_at};
ghost use Rattle.flaskd_run.specs.Paths;
ghost use Rattle.run_output.specs.Writing.{AddsFront};
ghost use Rattle.run_output.specs.declared.stop.RunStop.{RunStop};

use crate::paths::PathAnswer;
use crate::texts::put_perm;
use audit_allow::type_name;
use flask_io::Sink;
use flask_sid::{Memory, Text};
use flow_query::Hop;
use policy_model::PolicyParts;
use run_output::{RunStop, put_line};
use std::alloc::Global;
use text_lines::put_number;

/// Writes what was found.
pub fn write_found<K: Sink>(
    alloc: Global,
    policy: &PolicyParts,
    found: &PathAnswer,
    sink: &mut K,
) -> Result<(), RunStop>
    ensures ok { OnOk result (Adds (K.written sink.old) (K.written sink.new) (Paths.found_text policy.now found.now)) }
    ensures err { OnErr result (AddsFront (K.written sink.old) (K.written sink.new) (Paths.found_text policy.now found.now)) }
    ensures cause { HasCause (K.faults sink.old) (K.faults sink.new) (result ≡ Err RunStop.WriteFault) }
{
    match found {
        PathAnswer::NoVersion => write_words(alloc, b"noversion\n", sink),
        PathAnswer::NoType(name) => write_no_type(alloc, name.as_bytes(), sink),
        PathAnswer::NoPath => write_words(alloc, b"none\n", sink),
        PathAnswer::Found(path) => write_path(alloc, policy, path.hops(), sink),
    }
}

/// Writes a line of these bytes.
pub(crate) fn write_words<K: Sink>(alloc: Global, words: &[u8], sink: &mut K) -> Result<(), RunStop>
    ensures ok { OnOk result (Adds (K.written sink.old) (K.written sink.new) words.now) }
    ensures err { OnErr result (AddsFront (K.written sink.old) (K.written sink.new) words.now) }
    ensures cause { HasCause (K.faults sink.old) (K.faults sink.new) (result ≡ Err RunStop.WriteFault) }
{
    let mut out = Text::new(alloc);
    out.extend(words)?;
    put_line(sink, &out)
}

/// Writes that no node has a name.
fn write_no_type<K: Sink>(alloc: Global, name: &[u8], sink: &mut K) -> Result<(), RunStop>
    ensures ok { OnOk result (Adds (K.written sink.old) (K.written sink.new) (codes "notype " ++ name.now ++ codes "\n")) }
    ensures err { OnErr result (AddsFront (K.written sink.old) (K.written sink.new) (codes "notype " ++ name.now ++ codes "\n")) }
    ensures cause { HasCause (K.faults sink.old) (K.faults sink.new) (result ≡ Err RunStop.WriteFault) }
{
    let mut out = Text::new(alloc);
    out.extend(b"notype ")?;
    out.extend(name)?;
    out.push(b'\n')?;
    put_line(sink, &out)
}

/// Writes a path: how many hops it has, and then each.
fn write_path<K: Sink>(
    alloc: Global,
    policy: &PolicyParts,
    path: &[Hop],
    sink: &mut K,
) -> Result<(), RunStop>
    ensures ok { OnOk result (Adds (K.written sink.old) (K.written sink.new) (Paths.path_text policy.now path.now)) }
    ensures err { OnErr result (AddsFront (K.written sink.old) (K.written sink.new) (Paths.path_text policy.now path.now)) }
    ensures cause { HasCause (K.faults sink.old) (K.faults sink.new) (result ≡ Err RunStop.WriteFault) }
{
    let mut out = Text::new(alloc);
    put_length(&mut out, path.len() as u64)?;
    put_line(sink, &out)?;
    write_hops(alloc, policy, path, sink)
}

/// Puts how many hops a path has.
fn put_length(out: &mut Text, hops: u64) -> Result<(), Memory>
    ensures { OnOk result (out.new ≡ out.old ++ (codes "path " ++ decimal hops ++ codes "\n")) }
{
    out.extend(b"path ")?;
    put_number(out, hops)?;
    out.push(b'\n')
}

/// Writes hops, each in a write of its own.
fn write_hops<K: Sink>(
    alloc: Global,
    policy: &PolicyParts,
    hops: &[Hop],
    sink: &mut K,
) -> Result<(), RunStop>
    ensures ok { OnOk result (Adds (K.written sink.old) (K.written sink.new) (flat_map (Paths.hop_text policy.now) hops.now)) }
    ensures err { OnErr result (AddsFront (K.written sink.old) (K.written sink.new) (flat_map (Paths.hop_text policy.now) hops.now)) }
    ensures cause { HasCause (K.faults sink.old) (K.faults sink.new) (result ≡ Err RunStop.WriteFault) }
{
    let mut out = Text::new(alloc);
    'hops: for hop in hops {
        out.clear();
        put_hop(&mut out, policy, hop)?;
        put_line(sink, &out)?;
    }
    Ok(())
}

/// Puts a hop: its two types, and its question.
fn put_hop(out: &mut Text, policy: &PolicyParts, hop: &Hop) -> Result<(), Memory>
    ensures { OnOk result (out.new ≡ out.old ++ Paths.hop_text policy.now hop.now) }
{
    put_type(out, policy, hop.from)?;
    put_type(out, policy, hop.to)?;
    put_type(out, policy, hop.s)?;
    put_type(out, policy, hop.t)?;
    put_perm(out, hop.perm)?;
    out.push(b'\n')
}

/// Puts the name of the declared type at a place, and a space.
fn put_type(out: &mut Text, policy: &PolicyParts, place: u8) -> Result<(), Memory>
    ensures { OnOk result (out.new ≡ out.old ++ (kind_at policy.now place ++ codes " ")) }
{
    out.extend(type_name(policy, place))?;
    out.push(b' ')
}
