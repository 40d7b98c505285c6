//! Puts the session lines: what is there at the start.

ghost use Rattle.std.specs.Prelude.{◌≡◌, ◌++◌, OnOk, OnErr};
ghost use Rattle.std.specs.List.{flat_map};
ghost use Rattle.text_print.specs.Printed.{behind, ended, text_of};
ghost use Rattle.text_print.specs.Fronts.{IsFront};
ghost use Rattle.policy_print.specs.Printed.{texts_of};
ghost use Rattle.session_print.specs.Printed;

use crate::words::{put_label, put_path};
use file_calls::Node;
use flask_sid::{Memory, Piece, Sid, Text};
use policy_model::ContextLine;
use port_calls::LabelledPort;
use session_text::{ClientLine, SessionParts};
use text_print::{put_numeral, put_word};

/// Puts the session lines of a session.
pub fn put_setup(out: &mut Text, session: &SessionParts) -> Result<(), Memory>
    ensures ok { OnOk result (out.new ≡ out.old ++ text_of (Printed.setup_lines session.now)) }
    ensures err { OnErr result (IsFront out.old out.new) }
{
    let contexts = session.policy.parts().contexts.as_slice();
    put_initial(out, contexts, b"root", session.root)?;
    put_initial(out, contexts, b"port", session.port)?;
    put_ports(out, contexts, session.ports.as_slice())?;
    put_audit(out, session.audit)?;
    put_nodes(out, contexts, session.nodes.as_slice())?;
    put_clients(out, contexts, session.clients.as_slice())
}

// An `initial` line: whose context, and which.
fn put_initial(
    out: &mut Text,
    contexts: &[ContextLine],
    what: &[u8],
    sid: Sid,
) -> Result<(), Memory>
    ensures ok { OnOk result (out.new ≡ out.old ++ ended (Printed.initial_words contexts.now what.now sid)) }
    ensures err { OnErr result (IsFront out.old out.new) }
{
    out.extend(b"initial")?;
    put_word(out, what)?;
    put_label(out, contexts, sid)?;
    out.push(b'\n')
}

fn put_ports(out: &mut Text, contexts: &[ContextLine], ports: &[LabelledPort]) -> Result<(), Memory>
    ensures ok { OnOk result (out.new ≡ out.old ++ texts_of (Printed.labelled_port_words contexts.now) ports.now) }
    ensures err { OnErr result (IsFront out.old out.new) }
{
    'ports: for line in ports {
        put_port(out, contexts, line)?;
    }
    Ok(())
}

fn put_port(out: &mut Text, contexts: &[ContextLine], line: &LabelledPort) -> Result<(), Memory>
    ensures ok { OnOk result (out.new ≡ out.old ++ ended (Printed.labelled_port_words contexts.now line.now)) }
    ensures err { OnErr result (IsFront out.old out.new) }
{
    out.extend(b"port")?;
    put_numeral(out, u64::from(line.port))?;
    put_label(out, contexts, line.sid)?;
    out.push(b'\n')
}

fn put_audit(out: &mut Text, audit: bool) -> Result<(), Memory>
    ensures ok { OnOk result (out.new ≡ out.old ++ text_of (Printed.audit_lines audit)) }
    ensures err { OnErr result (IsFront out.old out.new) }
{
    if audit {
        return out.extend(b"audit\n");
    }
    Ok(())
}

fn put_nodes(out: &mut Text, contexts: &[ContextLine], nodes: &[Node]) -> Result<(), Memory>
    ensures ok { OnOk result (out.new ≡ out.old ++ texts_of (Printed.node_words contexts.now) nodes.now) }
    ensures err { OnErr result (IsFront out.old out.new) }
{
    'nodes: for node in nodes {
        put_node(out, contexts, node)?;
    }
    Ok(())
}

fn put_node(out: &mut Text, contexts: &[ContextLine], node: &Node) -> Result<(), Memory>
    ensures ok { OnOk result (out.new ≡ out.old ++ ended (Printed.node_words contexts.now node.now)) }
    ensures err { OnErr result (IsFront out.old out.new) }
{
    put_kind(out, &node.bytes)?;
    put_path(out, &node.path)?;
    put_label(out, contexts, node.sid)?;
    put_datum(out, &node.bytes)?;
    out.push(b'\n')
}

fn put_kind(out: &mut Text, bytes: &Option<Piece>) -> Result<(), Memory>
    ensures ok { OnOk result (out.new ≡ out.old ++ Printed.node_word bytes.now) }
    ensures err { OnErr result (IsFront out.old out.new) }
{
    match bytes {
        None => out.extend(b"dir"),
        Some(_) => out.extend(b"file"),
    }
}

fn put_datum(out: &mut Text, bytes: &Option<Piece>) -> Result<(), Memory>
    ensures ok { OnOk result (out.new ≡ out.old ++ flat_map behind (Printed.datum_words bytes.now)) }
    ensures err { OnErr result (IsFront out.old out.new) }
{
    match bytes {
        None => Ok(()),
        Some(datum) => match datum.as_bytes() {
            [] => Ok(()),
            bytes => put_word(out, bytes),
        },
    }
}

fn put_clients(
    out: &mut Text,
    contexts: &[ContextLine],
    clients: &[ClientLine],
) -> Result<(), Memory>
    ensures ok { OnOk result (out.new ≡ out.old ++ texts_of (Printed.client_words contexts.now) clients.now) }
    ensures err { OnErr result (IsFront out.old out.new) }
{
    'clients: for client in clients {
        put_client(out, contexts, client)?;
    }
    Ok(())
}

fn put_client(out: &mut Text, contexts: &[ContextLine], client: &ClientLine) -> Result<(), Memory>
    ensures ok { OnOk result (out.new ≡ out.old ++ ended (Printed.client_words contexts.now client.now)) }
    ensures err { OnErr result (IsFront out.old out.new) }
{
    out.extend(b"client")?;
    put_word(out, client.name.as_bytes())?;
    put_label(out, contexts, client.sid)?;
    out.push(b'\n')
}
