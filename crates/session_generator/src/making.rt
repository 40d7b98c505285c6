//! How a session is made.

ghost use Rattle.std.specs.Prelude.{◌≡◌, ◌<◌, ◌≤◌, ◌+◌, IfOk};
ghost use Rattle.command_line.specs.Commands.{IsWithin};
ghost use Rattle.session_generator.specs.Generated;

use crate::draws::{drawn, next_state};
use crate::policy::policy;
use crate::runs::{Draws, numbered, run_by};
use flask_sid::{Memory, Name, Rows, Sid, Word};
use session_text::{ClientLine, Run, RunLine, Session, SessionParts};
use std::alloc::Global;

/// How many lines stand above the clients' lines: those of the policy, `session` and two `initial` lines.
const LINES_ABOVE: u32 = 20;

/// The place of the context of the root and of ports among those of the policy.
const OBJECT_SID: u16 = 3;

/// The place of the context of clients with odd numbers, and with even ones.
const ODD_SID: u16 = 1;

const EVEN_SID: u16 = 2;

/// The identifier of a place.
fn sid_at(place: u16) -> Sid
    requires some { 0 < place }
    requires few { place < 4096 }
    ensures { result ≡ place }
{
    Sid::of(place).unwrap()
}

/// Client number i, counted from 1.
fn client_of(alloc: Global, i: u8) -> Result<ClientLine, Memory>
    ensures { IfOk result (λ client. client ≡ Generated.client_of i) }
{
    let name = numbered(alloc, b'c', u32::from(i))?;
    let sid = sid_at(if i % 2 == 1 { ODD_SID } else { EVEN_SID });
    Ok(ClientLine {
        name: Name::of(alloc, &Word::new(name.as_bytes()))?,
        sid,
    })
}

/// The clients 1 to n.
#[tactic(auto, using(crate::proofs::ClientLaws::clients_more))]
fn clients_to(alloc: Global, n: u8) -> Result<Rows<ClientLine>, Memory>
    requires { n < 255 }
    ensures { IfOk result (λ clients. clients ≡ Generated.clients_to n) }
{
    let mut clients = Rows::new(alloc);
    'clients: for i in 0..n {
        clients.push(client_of(alloc, i + 1)?)?;
    }
    Ok(clients)
}

/// What a line asks, by the three draws behind a state, and the state behind them.
fn run_from(alloc: Global, clients: u8, state: u32) -> Result<(Run, u32), Memory>
    requires { 0 < clients }
    ensures run { IfOk result (λ made. made.0 ≡ Generated.run_from clients state) }
    ensures behind { IfOk result (λ made. made.1 ≡ Generated.state_behind state) }
{
    let first = next_state(state);
    let second = next_state(first);
    let third = next_state(second);
    let draws = Draws {
        a: drawn(first),
        b: drawn(second),
        c: drawn(third),
    };
    Ok((run_by(alloc, clients, draws)?, third))
}

/// So many lines that run, of which the first has number `first`, from a state on.
fn lines_from(
    alloc: Global,
    clients: u8,
    state: u32,
    first: u32,
    count: u32,
) -> Result<Rows<RunLine>, Memory>
    requires clients { 0 < clients }
    requires numbers { first + count ≤ 100001 }
    ensures { IfOk result (λ lines. lines ≡ Generated.lines_from clients state first count) }
{
    let mut lines = Vec::with_capacity(alloc, count as usize)?;
    let mut state = state;
    'lines: for place in 0..count {
        let (run, behind) = run_from(alloc, clients, state)?;
        lines.push(RunLine {
            line: first + place,
            run,
        })?;
        state = behind;
    }
    Ok(Rows::from_vec(lines))
}

/// The session of a seed of 31 bits, 1 to 62 clients and 1 to 90,000 lines that run, each of a call or an order of the
/// administrator that the draws from the seed say. Equal numbers make equal sessions.
///
/// # Errors
///
/// Only want of memory.
#[tactic(auto, unfolding(crate::specs::Generated::generated))]
pub fn generated(alloc: Global, seed: u32, clients: u8, lines: u32) -> Result<Session, Memory>
    requires { IsWithin seed clients lines }
    ensures { IfOk result (λ session. session ≡ Generated.generated seed clients lines) }
{
    let first = LINES_ABOVE + u32::from(clients) + 2;
    let object = sid_at(OBJECT_SID);
    // In this order there is least to give back where memory ends.
    let made_clients = clients_to(alloc, clients)?;
    let made_lines = lines_from(alloc, clients, seed, first, lines)?;
    let parts = SessionParts {
        policy: policy(alloc)?,
        root: object,
        port: object,
        ports: Rows::new(alloc),
        audit: false,
        nodes: Rows::new(alloc),
        clients: made_clients,
        lines: made_lines,
    };
    Ok(Session::of(parts))
}
