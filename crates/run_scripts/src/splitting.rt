//! The lines are split.

ghost use Rattle.std.specs.Prelude.{◌≡◌, ◌<◌, ◌∷◌, ◌++◌, [], ℕ, length, IfOk, OnOk};
ghost use Rattle.run_scripts.specs.Splits.{AreScripts, AreEmpty, Gains, lines_in};

use crate::owning::owner;
use flask_sid::Memory;
use session_text::RunLine;
use std::alloc::Global;

/// A script for each client, in the order of their numbers, and one for the administrator.
#[derive(Debug, Drop)]
pub struct Scripts {
    pub clients: Vec<Vec<RunLine>>,
    pub admin: Vec<RunLine>,
}

/// A script for each of so many clients, and one for the administrator, with no line yet.
fn empty_scripts(alloc: Global, clients: u8) -> Result<Scripts, Memory>
    ensures { IfOk result (AreEmpty clients) }
{
    let mut scripts = Vec::with_capacity(alloc, usize::from(clients))?;
    'clients: for _client in 0..clients {
        scripts.push(Vec::new(alloc))?;
    }
    Ok(Scripts {
        clients: scripts,
        admin: Vec::new(alloc),
    })
}

/// Puts a line behind those of a client.
fn put_at(scripts: &mut Vec<Vec<RunLine>>, client: u8, line: RunLine) -> Result<(), Memory>
    requires { client < length scripts.old.items }
    ensures own { OnOk result (lines_in scripts.new.items client ≡ lines_in scripts.old.items client ++ line ∷ []) }
    ensures others { OnOk result ((other : ℕ) → (client ≡ other → ⊥) → lines_in scripts.new.items other ≡ lines_in scripts.old.items other) }
    ensures count { length scripts.new.items ≡ length scripts.old.items }
{
    scripts[usize::from(client)].push(line)?;
    Ok(())
}

/// Puts a line behind those of its client or of the administrator. It is dropped where its client has no script.
fn put(scripts: &mut Scripts, line: RunLine) -> Result<(), Memory>
    ensures { OnOk result (Gains (line ∷ []) scripts.old scripts.new) }
{
    match owner(&line.run) {
        None => {
            scripts.admin.push(line)?;
            Ok(())
        }
        Some(client) if usize::from(client) < scripts.clients.len() => {
            put_at(&mut scripts.clients, client, line)
        }
        Some(_) => Ok(()),
    }
}

/// Splits the lines of a session: each client has its own in its script, in their order, and the administrator the rest. A line of
/// a client at or above that number stands in no script.
pub fn split(alloc: Global, clients: u8, lines: Vec<RunLine>) -> Result<Scripts, Memory>
    ensures { IfOk result (λ scripts. AreScripts clients lines.items scripts) }
{
    let mut scripts = empty_scripts(alloc, clients)?;
    'lines: for line in lines {
        put(&mut scripts, line)?;
    }
    Ok(scripts)
}
