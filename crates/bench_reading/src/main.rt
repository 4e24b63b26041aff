//! What bench/memory measures: it reads the class files that its arguments name, one after the other,
//! and keeps what they say. Prints how many they are. A file that is refused ends it with status 1.
#![tactic(auto)]

use cf_load::load;
use cf_reader::ReadClass;
use dev_io::StdSource;
use std::alloc::Global;
use std::process::ExitCode;
use std::rt::{Env, Files};
use std::{env, fs, io};

fn main(rt: HostRuntime) -> ExitCode {
    let Ok(Some(classes)) = classes_of(&rt, rt.alloc()) else {
        return ExitCode::FAILURE;
    };
    match println!(rt; "{}", classes.len()) {
        Ok(()) => ExitCode::SUCCESS,
        Err(_) => ExitCode::FAILURE,
    }
}

// `None`: a file is refused.
fn classes_of<R: Env + Files + AllocGlobal>(
    rt: &R,
    alloc: Global,
) -> io::Result<Option<Vec<ReadClass>>> {
    let mut classes = Vec::new(alloc);
    for path in env::args(rt)?.skip(1) {
        let file = fs::open(rt, path.as_str())?;
        match load(alloc, &mut StdSource::new(file)) {
            Ok(class) => classes.push(class)?,
            Err(_) => return Ok(None),
        }
    }
    Ok(Some(classes))
}
