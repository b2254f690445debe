//! Compares what the engine's functions answer with the marked figures, and what is printed for scripts with the answers of another emulator.
//! The scripts lie in the folder that the first argument names, or else in the one that this runs in: its file `names` has a line for each
//! NAME, and NAME.script and NAME.expected stand beside it.

#![tactic(auto)]

pub mod comparing;
pub mod figures;

use anyhow::Context;
use bstr::ByteSlice;
use comparing::agrees;
use figures::{ADDRESSES, BEYOND, RUNS, compute};
use paging::parts::Split;
use script::session::Session;
use std::process::ExitCode;
use std::{env, fs};
use text::printing::{HexBytes, Hexadecimal};

// A file of the folder.
fn read(rt: &HostRuntime, folder: &str, name: &str) -> anyhow::Result<Vec<u8>> {
    let path = format!(in rt.alloc(); "{folder}/{name}")?;
    fs::read(rt, path.as_str()).context(format_args!("cannot read {path}"))
}

// All that is printed for a script.
fn carry_out(rt: &HostRuntime, script: &[u8]) -> anyhow::Result<Vec<u8>> {
    let heap = rt.alloc();
    let mut session = Session::new();
    let mut printed = Vec::new(heap);
    for (number, line) in (1..).zip(script.lines()) {
        session.line(heap, number, line, &mut printed)?;
    }
    Ok(printed)
}

// Shows a line of what is printed that is not the one that was expected; either may be missing.
fn show(
    rt: &HostRuntime,
    name: &str,
    number: u64,
    expected: Option<&[u8]>,
    printed: Option<&[u8]>,
) -> anyhow::Result<()> {
    println!(rt; "{name}, line {number} of what is printed:")?;
    println!(rt; "  expected {}", expected.unwrap_or(b"no line").as_bstr())?;
    println!(rt; "  printed  {}", printed.unwrap_or(b"no line").as_bstr())?;
    Ok(())
}

// Carries out a script, shows each line of what is printed that differs from what was expected, and says how many agree.
fn compare(rt: &HostRuntime, folder: &str, name: &str) -> anyhow::Result<bool> {
    let heap = rt.alloc();
    let script = read(rt, folder, &format!(in heap; "{name}.script")?)?;
    let expected = read(rt, folder, &format!(in heap; "{name}.expected")?)?;
    let printed = carry_out(rt, script.as_slice())?;
    let mut expected = expected.as_slice().lines();
    let mut printed = printed.as_slice().lines();
    let (mut agree, mut differ) = (0u64, 0u64);
    for number in 1.. {
        let lines = (expected.next(), printed.next());
        match lines {
            (None, None) => break,
            (Some(wanted), Some(line)) if agrees(wanted, line) => agree = agree.saturating_add(1),
            (wanted, line) => {
                show(rt, name, number, wanted, line)?;
                differ = differ.saturating_add(1);
            }
        }
    }
    println!(rt; "{name}: {agree} lines agree, {differ} differ")?;
    Ok(differ == 0)
}

// Compares all files of a folder, says how many agree, and whether there are some and all do.
fn compare_all(rt: &HostRuntime, folder: &str) -> anyhow::Result<bool> {
    let names = read(rt, folder, "names")?;
    let (mut agree, mut differ) = (0u64, 0u64);
    for name in names.as_slice().lines() {
        if compare(rt, folder, name.to_str()?)? {
            agree = agree.saturating_add(1);
        } else {
            differ = differ.saturating_add(1);
        }
    }
    println!(rt; "{agree} files agree, {differ} differ")?;
    Ok(agree > 0 && differ == 0)
}

// The word for an answer of a policy.
fn answer(permits: bool) -> &'static str {
    if permits { "yes" } else { "no" }
}

// Prints the marked figures, as the engine's functions answer them.
fn print_figures(rt: &HostRuntime) -> anyhow::Result<()> {
    let answers = compute();
    for (address, parts) in ADDRESSES.iter().zip(answers.parts) {
        let Split {
            four,
            three,
            two,
            one,
            offset,
        } = parts;
        println!(rt;
            "split {}: {four} {three} {two} {one} {offset}",
            Hexadecimal(*address)
        )?;
    }
    for (access, number) in ["load", "store", "fetch"].iter().zip(answers.refusals) {
        println!(rt; "{access} {}: refused {number}", Hexadecimal(BEYOND))?;
    }
    for (run, passes) in RUNS.iter().zip(answers.passes) {
        println!(rt;
            "scan {}: {}",
            HexBytes(run),
            if passes { "passes" } else { "fails" }
        )?;
    }
    let [one, two] = answers.once.map(answer);
    println!(rt; "write-once, new, offset 4095: length 1 {one}, length 2 {two}")?;
    let [below, next] = answers.appended.map(answer);
    println!(rt;
        "append-only, after offset 0 with length 16: offset 15 {below}, offset 16 {next}"
    )?;
    println!(rt;
        "taken region 1 first 9 length 4097: {}, {} frames",
        Hexadecimal(answers.taken),
        answers.frames
    )?;
    let [head, length, data] = answers.written.map(Hexadecimal);
    println!(rt; "written region 1 offset 16 bytes 616263: {head} {length} {data}")?;
    Ok(())
}

fn main(rt: HostRuntime) -> anyhow::Result<ExitCode> {
    let folder = env::args(&rt)?.nth(1);
    let folder = folder.as_deref().unwrap_or(".");
    print_figures(&rt)?;
    match compare_all(&rt, folder) {
        Ok(true) => Ok(ExitCode::SUCCESS),
        Ok(false) => Ok(ExitCode::FAILURE),
        Err(e) => {
            eprintln!(rt;
                "conformance: stopped: {e:#}. Name a folder with a file `names`, and for each line NAME in it NAME.script and NAME.expected."
            )?;
            Ok(ExitCode::FAILURE)
        }
    }
}
