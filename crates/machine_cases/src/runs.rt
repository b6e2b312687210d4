// Runs of images with the services of PL/I, and how they are told.

use crate::numbers::bytes;
use anyhow::Result;
use pli_language::fault::{SourceFault, SourceKind};
use pli_meaning::outcome::{End, Limit, Outcome};
use pli_run::report::{Notice, refused_image, report, unread, unwritten};
use pli_run::run::{RunFault, run};
use rv_image::image::Image;
use rv_meaning::image::ImageFault;

// The last of them is none.
const BASES: [u32; 3] = [0x1000, 0xff00_0000, 0x1004];

const BOUNDS: [u64; 3] = [0, 16, 1 << 40];

fn tell_notice(rt: &HostRuntime, notice: Notice<'_>) -> Result<()> {
    let Notice { status, line } = notice;
    match line {
        Some(line) => println!(rt; "  status {status}: {line}")?,
        None => println!(rt; "  status {status}")?,
    }
    Ok(())
}

/// What the runs of an image come to, at several bases and bounds.
pub fn tell_runs(rt: &HostRuntime, name: &str, given: &str) -> Result<()> {
    let bytes = bytes(rt.alloc(), given)?;
    let Ok(image) = Image::from_bytes(rt.alloc(), &bytes) else {
        println!(rt; "{name}: no image")?;
        return Ok(());
    };
    for base in BASES {
        for bound in BOUNDS {
            let ran = run(rt.alloc(), &image, base, b"", bound);
            println!(rt; "{name} at {base:08x} for {bound}: {ran:?}")?;
            tell_notice(rt, report(&ran, "stdin", "stdout"))?;
        }
    }
    Ok(())
}

/// What is told where no image comes to it.
pub fn tell_other_notices(rt: &HostRuntime) -> Result<()> {
    let full = RunFault::Memory {
        acts: 0,
        output: Vec::new(rt.alloc()),
    };
    tell_notice(rt, report(&Err(full), "stdin", "stdout"))?;
    for kind in [SourceKind::Undeclared, SourceKind::Memory] {
        let fault = SourceFault {
            line: 1,
            column: 24,
            kind,
        };
        tell_notice(rt, report(&Err(RunFault::Source(fault)), "stdin", "stdout"))?;
    }
    for limit in [Limit::Depth, Limit::Automatic] {
        let outcome = Outcome {
            acts: 0,
            output: Vec::new(rt.alloc()),
            raised: Vec::new(rt.alloc()),
            end: End::Limit(limit),
        };
        tell_notice(rt, report(&Ok(outcome), "stdin", "stdout"))?;
    }
    tell_notice(rt, refused_image(ImageFault::Length))?;
    tell_notice(rt, refused_image(ImageFault::Memory))?;
    tell_notice(rt, unread("stdin"))?;
    tell_notice(rt, unwritten("a.out"))
}
