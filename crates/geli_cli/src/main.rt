//! The program `geli`: the disks, streams, files and random bytes of the system are handed to the run.
#![tactic(auto)]

use file_edge::{InputSource, OutputSink, SystemFiles, words_of};
use image_run::run_files;
use run_status::{Status, exit_code, status_of};
use std::fs::File;
use std::process::ExitCode;
use std::{env, io};

fn main(rt: HostRuntime) -> ExitCode {
    let alloc = rt.alloc();
    // If standard streams are closed, these take their numbers, so that no file of the run does.
    let _first = File::open(&rt, "/dev/null");
    let _second = File::open(&rt, "/dev/null");
    let _third = File::open(&rt, "/dev/null");
    let files: Result<_, _> = rt.clone();
    let status = match (words_of(alloc, env::args(&rt)), files) {
        (Ok(words), Ok(files)) => {
            let opener = SystemFiles::new(files);
            let mut input = InputSource::new(rt.reader());
            let mut output = OutputSink::new(io::writer(&rt));
            let ran = run_files(alloc, &words, opener, &mut input, &mut output);
            status_of(ran)
        }
        _ => Status::NoMemory,
    };
    exit_code(status)
}
