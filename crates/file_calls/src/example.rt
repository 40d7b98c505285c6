//! A first opening: one client and one file.

ghost use Rattle.std.specs.Prelude.{◌≡◌, ◌∷◌, [], IfOk, Some, codes};
ghost use Rattle.file_calls.specs.Example.{AnswersOfDay, one_file_opening};

use crate::opening::{FileOpening, Node};
use crate::path::FilePath;
use flask_sid::{Memory, Piece, Rows, Sid};
use std::alloc::Global;

/// An opening with one client and one file, a first example: on it the plain manager asks again at each read.
pub fn one_file(alloc: Global) -> Result<FileOpening, Memory>
    ensures opening { IfOk result (λ opening. opening ≡ one_file_opening) }
    ensures answers { IfOk result AnswersOfDay }
{
    let mut clients = Rows::new(alloc);
    clients.push(Sid::of(1).unwrap())?;
    let mut nodes = Rows::new(alloc);
    nodes.push(file(alloc)?)?;
    Ok(FileOpening {
        clients,
        root: Sid::of(2).unwrap(),
        nodes,
    })
}

fn file(alloc: Global) -> Result<Node, Memory>
    ensures { IfOk result (λ node. node
        ≡ record { path = codes "motd" ∷ []; sid = 3; bytes = Some (codes "dawn") }) }
{
    let mut path = FilePath::new(alloc);
    path.push(Piece::of(alloc, b"motd")?)?;
    Ok(Node {
        path,
        sid: Sid::of(3).unwrap(),
        bytes: Some(Piece::of(alloc, b"dawn")?),
    })
}
