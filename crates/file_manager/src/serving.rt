//! Serving a call by the row of its kind.

ghost use Rattle.mode_questions.specs.Operations.{request};
ghost use Rattle.file_calls.specs.PlainManager.{IsFormed};
ghost use Rattle.file_store.specs.Stores.{state_of};
ghost use Rattle.file_manager.specs.Serving.{MayServe, ServesCall};

use crate::closes::close;
use crate::gives::give;
use crate::lists::list;
use crate::makes::make;
use crate::opens::open;
use crate::reads::read;
use crate::relabels::relabel;
use crate::stats::stat;
use crate::unlinks::unlink;
use crate::writes::{append, write};
use access_vectors::Asker;
use file_calls::{FileCall, FileReply};
use file_store::Files;
use flask_sid::{Memory, Piece};
use mode_questions::{Doubled, Operation};
use retained_rights::Callback;

/// Serves a call by the row of its kind.
pub fn serve<F: Callback, A: Asker>(
    files: &mut Files<F>,
    operation: &mut Operation<A>,
    call: &FileCall,
) -> Result<Doubled<FileReply>, Memory>
    requires may { MayServe files.old (request operation.old) }
    requires formed { let r = request operation.old in IsFormed r.decisions (state_of files.old) r.client call.now }
    ensures { ServesCall call.now result files.old files.new operation.old operation.new }
{
    match call {
        FileCall::Mkdir { path } => make(files, operation, path.as_slice(), None),
        FileCall::Create { path } => {
            let bytes = Some(Piece::new(operation.caller.alloc));
            make(files, operation, path.as_slice(), bytes)
        }
        FileCall::OpenFile { slot, path, mode } => {
            open(files, operation, *slot, path.as_slice(), *mode)
        }
        FileCall::ReadFile {
            slot,
            offset,
            length,
        } => read(files, operation, *slot, *offset, *length),
        FileCall::WriteFile {
            slot,
            offset,
            piece,
        } => write(files, operation, *slot, *offset, piece.as_bytes()),
        FileCall::AppendFile { slot, piece } => append(files, operation, *slot, piece.as_bytes()),
        FileCall::CloseFile { slot } => close(files, operation, *slot),
        FileCall::Unlink { path } => unlink(files, operation, path.as_slice()),
        FileCall::List { path, skip } => list(files, operation, path.as_slice(), *skip),
        FileCall::StatFile { path } => stat(files, operation, path.as_slice()),
        FileCall::Relabel { path, sid } => relabel(files, operation, path.as_slice(), *sid),
        FileCall::Give {
            slot,
            client,
            target,
        } => give(files, operation, *slot, *client, *target),
    }
}
