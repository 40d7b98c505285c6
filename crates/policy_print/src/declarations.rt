//! Puts the lines of declarations.

ghost use Rattle.std.specs.Prelude.{◌≡◌, ◌++◌, OnOk, OnErr};
ghost use Rattle.std.specs.List.{flat_map};
ghost use Rattle.text_print.specs.Printed.{behind, ended};
ghost use Rattle.text_print.specs.Fronts.{IsFront};
ghost use Rattle.policy_print.specs.Printed;

use flask_sid::{Memory, Name, Text};
use policy_model::{AttributeLine, ContextLine, KindLine};
use text_print::{put_context, put_word};

/// Puts a `type` line for each of these types.
pub(crate) fn put_kinds(out: &mut Text, kinds: &[KindLine]) -> Result<(), Memory>
    ensures ok { OnOk result (out.new ≡ out.old ++ Printed.texts_of Printed.kind_words kinds.now) }
    ensures err { OnErr result (IsFront out.old out.new) }
{
    'kinds: for kind in kinds {
        put_kind(out, kind)?;
    }
    Ok(())
}

fn put_kind(out: &mut Text, kind: &KindLine) -> Result<(), Memory>
    ensures ok { OnOk result (out.new ≡ out.old ++ ended (Printed.kind_words kind.now)) }
    ensures err { OnErr result (IsFront out.old out.new) }
{
    out.extend(b"type")?;
    put_word(out, kind.name.as_bytes())?;
    out.push(b'\n')
}

/// Puts a `context` line for each of these contexts.
pub(crate) fn put_contexts(out: &mut Text, contexts: &[ContextLine]) -> Result<(), Memory>
    ensures ok { OnOk result (out.new ≡ out.old ++ Printed.texts_of Printed.context_words contexts.now) }
    ensures err { OnErr result (IsFront out.old out.new) }
{
    'contexts: for line in contexts {
        put_context_line(out, line)?;
    }
    Ok(())
}

fn put_context_line(out: &mut Text, line: &ContextLine) -> Result<(), Memory>
    ensures ok { OnOk result (out.new ≡ out.old ++ ended (Printed.context_words line.now)) }
    ensures err { OnErr result (IsFront out.old out.new) }
{
    out.extend(b"context")?;
    put_context(out, &line.context)?;
    out.push(b'\n')
}

/// Puts an `attribute` line for each of these attributes.
pub(crate) fn put_attributes(out: &mut Text, attributes: &[AttributeLine]) -> Result<(), Memory>
    ensures ok { OnOk result (out.new ≡ out.old ++ Printed.texts_of Printed.attribute_words attributes.now) }
    ensures err { OnErr result (IsFront out.old out.new) }
{
    'attributes: for line in attributes {
        put_attribute(out, line)?;
    }
    Ok(())
}

fn put_attribute(out: &mut Text, line: &AttributeLine) -> Result<(), Memory>
    ensures ok { OnOk result (out.new ≡ out.old ++ ended (Printed.attribute_words line.now)) }
    ensures err { OnErr result (IsFront out.old out.new) }
{
    out.extend(b"attribute")?;
    put_word(out, line.name.as_bytes())?;
    put_names(out, line.members.as_slice())?;
    out.push(b'\n')
}

fn put_names(out: &mut Text, names: &[Name]) -> Result<(), Memory>
    ensures ok { OnOk result (out.new ≡ out.old ++ flat_map behind names.now) }
    ensures err { OnErr result (IsFront out.old out.new) }
{
    'names: for name in names {
        put_word(out, name.as_bytes())?;
    }
    Ok(())
}
