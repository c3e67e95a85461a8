//! `hullcert`: tables of a ship's hull, every figure an interval with certified ends.
#![tactic(auto)]

mod all;
mod commands;
mod cross;
mod damage;
mod findings;
mod floodable;
mod hull_line;
mod hydro;
mod levers;
mod loading;
mod made;
mod section;
mod stability;
mod tables;
mod units;
mod verdict;
mod version;
mod words;

pub use commands::run;
use desk::{FileShelf, OutSink};
pub use report_run::Status;
use std::env;
use std::io::ErrorKind;
use std::process::ExitCode;
use std::rt::Runtime;

// The words of the command line, without the program's name; none where one of them isn't text.
fn words_of(rt: &(impl Runtime + AllocGlobal)) -> Result<Vec<String>, Status> {
    match env::args(rt) {
        Ok(args) => match args.skip(1).collect(rt.alloc()) {
            Ok(words) => Ok(words),
            Err(_) => Err(Status::NoMemory),
        },
        Err(fault) if fault.kind() == ErrorKind::OutOfMemory => Err(Status::NoMemory),
        Err(_) => Ok(Vec::new(rt.alloc())),
    }
}

fn main(rt: HostRuntime) -> ExitCode {
    let status = match words_of(&rt) {
        Ok(words) => {
            let mut shelf = FileShelf::new(&rt);
            let mut out = OutSink::new(&rt);
            run(rt.alloc(), &words, &mut shelf, &mut out)
        }
        Err(status) => status,
    };
    ExitCode::from(status.code())
}

#[cfg(test)]
mod tests;
