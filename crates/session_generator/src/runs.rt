//! What a line that runs asks, by its draws.

ghost use Rattle.std.specs.Prelude.{◌≡◌, ◌<◌, ◌%◌, ◌∷◌, [], IfOk};
ghost use Rattle.session_generator.specs.Generated;

use access_vectors::Vector;
use file_calls::{FileCall, FilePath};
use flask_sid::{Memory, Piece};
use itoa::Buffer;
use port_calls::PortCall;
use process_calls::ProcessCall;
use session_text::Run;
use std::alloc::Global;

/// The mode of files that are opened: to read and to write.
const READ_WRITE: u16 = 3;

/// The mode of ports that are bound: to bind and to receive.
const BIND_RECV: u16 = 3;

/// How many bytes a read takes at most.
const READ_MOST: u32 = 16;

/// How many stale slots of each manager an update lets follow.
const UPDATE_MOST: u32 = 64;

/// The three draws that say what a line asks.
#[derive(Clone, Copy, Debug)]
pub struct Draws {
    /// Which client.
    pub a: u32,
    /// Which call.
    pub b: u32,
    /// On what: its slot, its file, its process or its port.
    pub c: u32,
}

/// A letter and a number, in one word.
pub fn numbered(alloc: Global, letter: u8, number: u32) -> Result<Piece, Memory>
    ensures { IfOk result (λ word. word ≡ Generated.numbered (letter ∷ []) number) }
{
    let mut word = Piece::new(alloc);
    word.push(letter)?;
    word.extend(Buffer::new().format(number).as_bytes())?;
    Ok(word)
}

/// The path of a file by its number, in the root.
fn path_of(alloc: Global, file: u32) -> Result<FilePath, Memory>
    ensures { IfOk result (λ path. path ≡ Generated.path_of file) }
{
    let mut path = FilePath::with_room(alloc, 1)?;
    path.push(numbered(alloc, b'f', file)?)?;
    Ok(path)
}

/// What a line of the administrator asks.
#[tactic(auto, unfolding(crate::specs::Generated::admin_run))]
fn admin_run(c: u32) -> Run
    ensures { result ≡ Generated.admin_run c }
{
    match c % 4 {
        0 => Run::Notify {
            ver: (c / 4 % 3) as u8,
        },
        3 => Run::Ack,
        _ => Run::Update { k: UPDATE_MOST },
    }
}

/// What a call of the file manager asks, by which of the four it is.
#[tactic(auto, unfolding(crate::specs::Generated::file_run))]
fn file_run(alloc: Global, which: u32, client: u8, c: u32) -> Result<Run, Memory>
    ensures { IfOk result (λ run. run ≡ Generated.file_run which client c) }
{
    let file = c % 64;
    let slot = (c / 64 % 8) as u8;
    let call = match which {
        0 => FileCall::Create {
            path: path_of(alloc, file)?,
        },
        1 => FileCall::OpenFile {
            slot,
            path: path_of(alloc, file)?,
            mode: Vector::of(READ_WRITE),
        },
        2 => FileCall::WriteFile {
            slot,
            offset: 0,
            piece: numbered(alloc, b'x', file)?,
        },
        _ => FileCall::ReadFile {
            slot,
            offset: 0,
            length: READ_MOST,
        },
    };
    Ok(Run::File { client, call })
}

/// What a line asks by its draws, among so many clients.
#[tactic(auto, unfolding(crate::specs::Generated::run_by))]
pub fn run_by(alloc: Global, clients: u8, draws: Draws) -> Result<Run, Memory>
    requires { 0 < clients }
    ensures { IfOk result (λ run. run ≡ Generated.run_by clients draws.a draws.b draws.c) }
{
    let Draws { a, b, c } = draws;
    let client = (a % u32::from(clients)) as u8;
    match b % 8 {
        4 => Ok(Run::Process {
            client,
            call: ProcessCall::Fork { pid: 1 + c % 512 },
        }),
        5 => Ok(Run::Port {
            client,
            call: PortCall::Bind {
                slot: (c / 64 % 8) as u8,
                port: 1 + c % 128,
                mode: Vector::of(BIND_RECV),
            },
        }),
        6 => Ok(Run::Port {
            client,
            call: PortCall::Send {
                port: 1 + c % 128,
                piece: numbered(alloc, b'm', c % 64)?,
            },
        }),
        7 => Ok(admin_run(c)),
        which => file_run(alloc, which, client, c),
    }
}
