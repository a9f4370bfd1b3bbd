//! The modem's commands: a pure function of the words of a command line and of the folder that is handed in. `modem` does
//! what the words say and answers a `Status`, whose `code` is the exit status of the program; `program` calls it over the disk.
#![tactic(auto)]

mod edge;
mod top;

pub use command_base::Status;
pub use edge::program;
pub use top::modem;
