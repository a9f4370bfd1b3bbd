//! The folders that the program runs over: in memory, on disk, and one over another for an audit.
//!
//! [`SureFolder`] keeps its files in memory, all of which are known, and fails for lack of memory alone. [`DiskFolder`] is the
//! folder that the program runs in: nothing is known of its files. Each is a `Folder`, which stands in `outside_calls`, so
//! that what only asks a folder needs none of them. A [`Store`] is the files that a folder in memory holds. [`AuditFolder`] stands over another
//! folder: reads go on to that one, and of what a run writes the trace of a turn alone is held.
//!
//! Trusted is what the operating system reads and writes for [`DiskFolder`]; all else is a function of the calls made.
#![tactic(auto)]

mod audit;
mod disk;
pub mod laws;
mod store;
mod sure;
mod transfer;

pub use audit::AuditFolder;
pub use disk::DiskFolder;
pub use store::Store;
pub use sure::SureFolder;
pub use transfer::{copy_from, fill, write_all};
