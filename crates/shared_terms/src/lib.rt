//! The terms that all above share: the two ends of a link ([`Role`]), with the word that names each;
//! why a run is refused or given up, as values ([`Cause`], [`LinkFault`]); in what a trace is not that of a run
//! ([`AuditCause`]); the timers that count an end's turns without an answer; and how long files may be. Who finds a cause gives it, who prints lines prints it.
#![tactic(auto)]

mod audit_cause;
mod both;
mod cause;
mod fault;
mod limits;
mod memory;
mod role;
mod timer;

pub use audit_cause::AuditCause;
pub use both::Both;
pub use cause::Cause;
pub use fault::LinkFault;
pub use limits::{FILE_LIMIT, RUN_FILE_LIMIT};
pub use memory::NoMemory;
pub use role::Role;
pub use timer::{is_expired, wait, waited_since};
