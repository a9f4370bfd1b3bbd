// The edge of the program: the words of its command line are handed to `modem`, over the disk and standard output, and the exit
// status of the answer is the program's.
use crate::{Status, modem};
use program_folders::DiskFolder;
use std::env;
use std::io::{self, ErrorKind};
use std::process::ExitCode;
use std::rt::{Env, Files};

fn words_of(rt: &(impl Env + AllocGlobal)) -> io::Result<Vec<String>> {
    let mut words = Vec::new(rt.alloc());
    for word in env::args(rt)?.skip(1) {
        words.push(word)?;
    }
    Ok(words)
}

/// Does what the words of the command line say. Words that the runtime refuses end it with 11 where there was no memory for them, and
/// with 1 else, and nothing is printed then.
pub fn program<R: Env + Files + Print + AllocGlobal + Clone + Drop>(rt: R) -> ExitCode {
    match words_of(&rt) {
        Ok(words) => {
            let alloc = rt.alloc();
            let mut folder = DiskFolder::new(rt);
            ExitCode::from(modem(alloc, &words, &mut folder).code())
        }
        Err(error) => {
            if error.kind() == ErrorKind::OutOfMemory {
                return ExitCode::from(Status::NoMemory.code());
            }
            ExitCode::FAILURE
        }
    }
}
