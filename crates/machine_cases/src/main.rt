// Tells what comes of each line of the data files. A line is a name, a colon and hexadecimal numbers; the reader's text of a
// program stands behind a number sign.
#![tactic(auto)]

mod images;
mod numbers;
mod programs;
mod random;
mod runs;
mod streams;
mod words;

use anyhow::Result;
use std::fs;

const SUBJECTS: &str = "words operations programs steps images cuts runs bases";

fn tell(rt: &HostRuntime, subject: &str, line: &str) -> Result<()> {
    let (case, _) = line.split_once(" # ").unwrap_or((line, ""));
    let (name, given) = case.split_once(": ").unwrap_or((case, ""));
    match subject {
        "words" => words::tell_word(rt, name, given),
        "operations" => words::tell_operation(rt, name, given),
        "programs" => programs::tell_program(rt, name, given),
        "steps" => programs::tell_steps(rt, name, given),
        "images" => images::tell_image(rt, name, given),
        "cuts" => images::tell_cuts(rt, name, given),
        "runs" => runs::tell_runs(rt, name, given),
        _ => programs::tell_bases(rt, name, given),
    }
}

fn main(rt: HostRuntime) -> Result<()> {
    for subject in SUBJECTS.split_whitespace() {
        println!(rt; "== {subject}")?;
        let text = fs::read_to_string(&rt, subject)?;
        for line in text.as_str().lines() {
            tell(&rt, subject, line)?;
        }
    }
    println!(rt; "== random")?;
    random::tell_random(&rt)?;
    println!(rt; "== streams")?;
    streams::tell_streams(&rt)?;
    println!(rt; "== others")?;
    images::tell_small_tables(&rt)?;
    runs::tell_other_notices(&rt)
}
