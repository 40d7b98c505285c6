//! What a session line asks of the lines above it.

ghost use Rattle.std.specs.Prelude.{◌≡◌, true, IfOk, IfSome};
ghost use Rattle.std.specs.Bool.{OnFalse};
ghost use Rattle.flask_sid.specs.Names.{is_name_form};
ghost use Rattle.port_calls.specs.Formed.{IsPort};
ghost use Rattle.text_lines.specs.Refusals.{Gives};
ghost use Rattle.session_forms.specs.ArgumentForms.{IsPathForm, IsSetupForm, IsWord};
ghost use Rattle.session_forms.specs.declared.setup_forms.SetupForm.TheVariants as form;
ghost use Rattle.session_text.specs.Grammar;
ghost use Rattle.session_text.specs.Progress.{Becomes};
ghost use Rattle.session_text.specs.Reading;
ghost use Rattle.session_text.specs.Sessions.{IsSidOf};

use crate::look_up::has_port;
use crate::setup::Setup;
use flask_sid::{ContextOf, Memory, Piece, Sid, Word};
use session_forms::{Initial, Parts, SetupForm, is_long_data, is_past_place};
use std::alloc::Global;
use text_lines::{FaultKind, Refusal};

const NODE_LIMIT: usize = 4_095;

const PORT_LIMIT: usize = 1_024;

const CLIENT_LIMIT: usize = 62;

/// A session line of this form. The line `run` asks nothing.
#[tactic(auto, unfolding(crate::specs::Reading::setup_read, session_forms::specs::ArgumentForms::IsSetupForm))]
#[inline(never)]
pub fn setup_read<'a>(
    alloc: Global,
    form: SetupForm<'a>,
    setup: &mut Setup<'a>,
) -> Result<(), Refusal>
    requires { IsSetupForm form }
    ensures { Becomes result setup.new (Reading.setup_read form.entry setup.old) }
{
    match form {
        SetupForm::File(path, context, bytes) => file_read(alloc, path, context, bytes, setup),
        SetupForm::Directory(path, context) => directory_read(alloc, path, context, setup),
        SetupForm::Client(name, context) => client_read(alloc, name, context, setup),
        SetupForm::Initial(what, context) => initial_read(what, context, setup),
        SetupForm::Port(number, context) => port_read(number, context, setup),
        SetupForm::Audit => audit_read(setup),
        SetupForm::Run => Ok(()),
    }
}

/// A `file` line.
#[tactic(auto, unfolding(crate::specs::Reading::setup_read, crate::specs::Grammar::file_read))]
fn file_read<'a>(
    alloc: Global,
    path: Parts<'a>,
    context: ContextOf<Word<'a>>,
    bytes: Option<Word<'a>>,
    setup: &mut Setup<'a>,
) -> Result<(), Refusal>
    requires path { IsPathForm path }
    requires bytes { IfSome bytes IsWord }
    ensures { Becomes result setup.new (Reading.setup_read (form.File path.entry context.entry bytes.entry) setup.old) }
{
    if is_past_node(&path, &context, setup.parts().nodes.len()) || is_long_data(&bytes) {
        return Err(Refusal::Fault(FaultKind::Limit));
    }
    let sid = node_sid(&path, &context, setup)?;
    let bytes = data_bytes(alloc, &bytes)?;
    Ok(setup.add_node(alloc, &path, sid, Some(bytes))?)
}

/// A `dir` line.
#[tactic(auto, unfolding(crate::specs::Reading::setup_read, crate::specs::Grammar::directory_read))]
fn directory_read<'a>(
    alloc: Global,
    path: Parts<'a>,
    context: ContextOf<Word<'a>>,
    setup: &mut Setup<'a>,
) -> Result<(), Refusal>
    requires { IsPathForm path }
    ensures { Becomes result setup.new (Reading.setup_read (form.Directory path.entry context.entry) setup.old) }
{
    if is_past_node(&path, &context, setup.parts().nodes.len()) {
        return Err(Refusal::Fault(FaultKind::Limit));
    }
    let sid = node_sid(&path, &context, setup)?;
    Ok(setup.add_node(alloc, &path, sid, None)?)
}

/// The identifier of a node that is to stand at a path.
#[tactic(auto, unfolding(crate::specs::Grammar::node_sid))]
fn node_sid<'a>(
    path: &Parts<'a>,
    context: &ContextOf<Word<'a>>,
    setup: &Setup<'a>,
) -> Result<Sid, Refusal>
    ensures { Gives result (Grammar.node_sid path.now context.now setup.now.session) }
{
    if !setup.is_parent_there(path) {
        return Err(Refusal::Fault(FaultKind::Unknown));
    }
    let Some(sid) = setup.sid(context) else {
        return Err(Refusal::Fault(FaultKind::Undeclared));
    };
    if setup.is_taken(path) {
        return Err(Refusal::Fault(FaultKind::Twice));
    }
    Ok(sid)
}

#[tactic(auto, unfolding(crate::specs::Grammar::is_past_node))]
fn is_past_node(path: &Parts<'_>, context: &ContextOf<Word<'_>>, nodes: usize) -> bool
    ensures { result ≡ Grammar.is_past_node path.now context.now nodes }
{
    path.is_long() || context.is_long() || nodes >= NODE_LIMIT
}

fn data_bytes(alloc: Global, bytes: &Option<Word<'_>>) -> Result<Piece, Memory>
    ensures { IfOk result (λ piece. piece ≡ Grammar.data_bytes bytes.now) }
{
    match bytes {
        None => Ok(Piece::new(alloc)),
        Some(word) => Piece::of(alloc, word.as_bytes()),
    }
}

/// A `client` line.
#[tactic(auto, unfolding(crate::specs::Reading::setup_read, crate::specs::Grammar::client_read))]
fn client_read<'a>(
    alloc: Global,
    name: Word<'a>,
    context: ContextOf<Word<'a>>,
    setup: &mut Setup<'a>,
) -> Result<(), Refusal>
    requires { is_name_form name ≡ true }
    ensures { Becomes result setup.new (Reading.setup_read (form.Client name.entry context.entry) setup.old) }
{
    if is_past_client(&name, &context, setup.parts().clients.len()) {
        return Err(Refusal::Fault(FaultKind::Limit));
    }
    let sid = client_sid(&name, &context, setup)?;
    Ok(setup.add_client(alloc, &name, sid)?)
}

/// The identifier of a client that is to have a name.
#[tactic(auto, unfolding(crate::specs::Grammar::client_sid))]
fn client_sid<'a>(
    name: &Word<'a>,
    context: &ContextOf<Word<'a>>,
    setup: &Setup<'a>,
) -> Result<Sid, Refusal>
    ensures { Gives result (Grammar.client_sid name.now context.now setup.now.session) }
{
    let Some(sid) = setup.sid(context) else {
        return Err(Refusal::Fault(FaultKind::Undeclared));
    };
    if is_named(setup, name) {
        return Err(Refusal::Fault(FaultKind::Twice));
    }
    Ok(sid)
}

#[tactic(auto, unfolding(crate::specs::Grammar::is_past_client))]
fn is_past_client(name: &Word<'_>, context: &ContextOf<Word<'_>>, clients: usize) -> bool
    ensures { result ≡ Grammar.is_past_client name.now context.now clients }
{
    name.is_long() || context.is_long() || clients >= CLIENT_LIMIT
}

#[tactic(auto, unfolding(crate::specs::Grammar::is_named))]
fn is_named<'a>(setup: &Setup<'a>, name: &Word<'a>) -> bool
    ensures { result ≡ Grammar.is_named setup.now.session.clients name.now }
{
    name.is(b"admin") || setup.has_client(name)
}

/// An `initial` line.
#[tactic(auto, unfolding(crate::specs::Reading::setup_read, crate::specs::Grammar::initial_read))]
fn initial_read<'a>(
    what: Initial,
    context: ContextOf<Word<'a>>,
    setup: &mut Setup<'a>,
) -> Result<(), Refusal>
    ensures { Becomes result setup.new (Reading.setup_read (form.Initial what context.entry) setup.old) }
{
    if context.is_long() {
        return Err(Refusal::Fault(FaultKind::Limit));
    }
    match setup.sid(&context) {
        None => Err(Refusal::Fault(FaultKind::Undeclared)),
        Some(sid) => initial_with(what, sid, setup),
    }
}

/// Whose context a declared one is to be: the root's or that of the ports, where no line gave it yet.
#[tactic(auto, unfolding(crate::specs::Grammar::initial_with))]
fn initial_with(what: Initial, sid: Sid, setup: &mut Setup<'_>) -> Result<(), Refusal>
    requires { IsSidOf setup.old.session.policy.contexts sid }
    ensures { Becomes result setup.new (Grammar.initial_with what sid setup.old) }
{
    match what {
        Initial::Root => {
            if setup.is_root_given() {
                return Err(Refusal::Fault(FaultKind::Twice));
            }
            setup.give_root(sid);
        }
        Initial::Ports => {
            if setup.is_port_given() {
                return Err(Refusal::Fault(FaultKind::Twice));
            }
            setup.give_port(sid);
        }
    }
    Ok(())
}

/// A `port` line.
#[tactic(auto, unfolding(crate::specs::Reading::setup_read, crate::specs::Grammar::port_read, crate::specs::Grammar::port_with))]
fn port_read<'a>(
    number: u64,
    context: ContextOf<Word<'a>>,
    setup: &mut Setup<'a>,
) -> Result<(), Refusal>
    ensures { Becomes result setup.new (Reading.setup_read (form.Port number context.entry) setup.old) }
{
    if is_past_port_line(number, &context, setup.parts().ports.len()) {
        return Err(Refusal::Fault(FaultKind::Limit));
    }
    let Some(sid) = setup.sid(&context) else {
        return Err(Refusal::Fault(FaultKind::Undeclared));
    };
    let port = number as u32;
    if has_port(setup.parts().ports.as_slice(), port) {
        return Err(Refusal::Fault(FaultKind::Twice));
    }
    Ok(setup.add_port(port, sid)?)
}

#[tactic(auto, unfolding(crate::specs::Grammar::is_past_port_line))]
fn is_past_port_line(number: u64, context: &ContextOf<Word<'_>>, ports: usize) -> bool
    ensures value { result ≡ Grammar.is_past_port_line number context.now ports }
    ensures within { OnFalse result (IsPort number) }
{
    is_past_place(number) || context.is_long() || ports >= PORT_LIMIT
}

/// An `audit` line.
#[tactic(auto, unfolding(crate::specs::Reading::setup_read, crate::specs::Grammar::audit_read))]
fn audit_read(setup: &mut Setup<'_>) -> Result<(), Refusal>
    ensures { Becomes result setup.new (Reading.setup_read form.Audit setup.old) }
{
    if setup.parts().audit {
        return Err(Refusal::Fault(FaultKind::Twice));
    }
    setup.ask_audit();
    Ok(())
}
