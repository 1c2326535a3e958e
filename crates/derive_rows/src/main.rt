//! Runs the rows of the files that its words name, in memory, and tells which differ from what they should give (data/README.md).
#![tactic(auto)]

mod braces;
mod case;
mod comparison;
mod outcome;
mod rows;

use anyhow::{Context, Result, bail};
use std::process::ExitCode;
use std::{env, fs};

/// Runs the rows of a file, and gives how many there are and how many of them differed.
fn run_file(rt: &HostRuntime, file: &str) -> Result<(u64, u64)> {
    let text = fs::read_to_string(rt, file).context(format_args!("{file}"))?;
    let rows = rows::read(rt.alloc(), text.as_str()).context(format_args!("{file}"))?;
    let mut ran = 0u64;
    let mut differing = 0u64;
    for row in rows.iter() {
        ran = ran.saturating_add(1);
        if !comparison::is_as_expected(rt, file, row)? {
            differing = differing.saturating_add(1);
        }
    }
    Ok((ran, differing))
}

/// Runs all files, and says how many rows ran. It gives how many of them differed.
fn run_files(rt: &HostRuntime) -> Result<u64> {
    let mut ran = 0u64;
    let mut differing = 0u64;
    for file in env::args(rt)?.skip(1) {
        let (rows, others) = run_file(rt, file.as_str())?;
        ran = ran.saturating_add(rows);
        differing = differing.saturating_add(others);
    }
    if ran == 0 {
        bail!("no rows ran");
    }
    if differing == 0 {
        println!(rt; "{ran} rows ran, and none differs")?;
    } else {
        println!(rt; "{ran} rows ran, and {differing} differ")?;
    }
    Ok(differing)
}

fn main(rt: HostRuntime) -> ExitCode {
    match run_files(&rt) {
        Ok(0) => ExitCode::from(0),
        Ok(_) => ExitCode::from(1),
        Err(error) => {
            let _ = eprintln!(rt; "derive_rows: {error:#}");
            ExitCode::from(2)
        }
    }
}
