//! The security server: it decides, numbers the policies, and takes a receipt of each manager that has acknowledged a
//! change. A number is complete exactly with one receipt of each manager. No call takes memory.
#![tactic(auto)]

mod answers;
mod server;

pub use access_vectors::{NotifyFault as ProposeFault, Receipt};
pub use answers::ReceiptFault;
pub use server::Server;
