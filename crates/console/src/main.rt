//! The console: carries out a script, from the file that its first argument names, or else from standard input.

#![tactic(auto)]

use script::session::Session;
use std::io::{BufRead, BufReader, Read, Write};
use std::process::ExitCode;
use std::{env, fs};

// Each line is carried out and answered before the next is read.
fn carry_out<R: Read + Drop>(rt: &HostRuntime, script: R) -> anyhow::Result<()> {
    let heap = rt.alloc();
    let mut lines = BufReader::new(heap, script)?;
    let mut output = rt.stdout();
    let mut session = Session::new();
    let mut line = Vec::new(heap);
    let mut reply = Vec::new(heap);
    // One list for all lines: an iterator of lines would make one for each.
    for number in 1.. {
        line.clear();
        if lines.read_until(b'\n', &mut line)? == 0 {
            break;
        }
        reply.clear();
        session.line(heap, number, line.as_slice(), &mut reply)?;
        output.write_all(reply.as_slice())?;
        output.flush()?;
    }
    Ok(())
}

// Says why a script was not carried out to its end.
fn tell(rt: &HostRuntime, outcome: anyhow::Result<()>) -> anyhow::Result<ExitCode> {
    let Err(e) = outcome else {
        return Ok(ExitCode::SUCCESS);
    };
    eprintln!(rt; "console: stopped before the end of the script: {e}")?;
    Ok(ExitCode::FAILURE)
}

fn main(rt: HostRuntime) -> anyhow::Result<ExitCode> {
    let Some(path) = env::args(&rt)?.nth(1) else {
        return tell(&rt, carry_out(&rt, rt.stdin()));
    };
    match fs::open(&rt, path.as_str()) {
        Ok(file) => tell(&rt, carry_out(&rt, file)),
        Err(e) => {
            eprintln!(rt;
                "console: cannot open {path}: {e}. Name a script that can be read, or none to read standard input."
            )?;
            Ok(ExitCode::FAILURE)
        }
    }
}
