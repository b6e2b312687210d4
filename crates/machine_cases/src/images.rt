// Bytes as images.

use crate::numbers::bytes;
use anyhow::Result;
use rv_image::image::{Image, is_loadable};
use rv_isa::code::Code;
use rv_meaning::image::ImageFault;
use std::alloc::{AllocError, Global};

/// The header and the code of a small image, whose table has six words.
static BEFORE_TABLE: [u32; 7] = [0x5249_4c50, 1, 0, 1, 0, 6, 0x0000_0073];

/// How many tables there are of six words below 3.
const SMALL_TABLES: u32 = 729;

/// The image of such parts, where a machine can run it and it has no table.
pub fn made(
    alloc: Global,
    words: &[u32],
    statics: &[u8],
    entry: u32,
    table: &[u32],
) -> Result<Option<Image>, AllocError> {
    let code = Code {
        words: Vec::from_slice(alloc, words)?,
        statics: Vec::from_slice(alloc, statics)?,
        entry,
        table: Vec::from_slice(alloc, table)?,
        calls: Vec::new(alloc),
    };
    if is_loadable(&code) {
        Ok(Some(Image::from_code(code)))
    } else {
        Ok(None)
    }
}

fn has_bytes(image: &Image, bytes: &[u8]) -> Result<bool, ImageFault> {
    Ok(image.to_bytes()?.as_slice() == bytes)
}

/// The parts of the image that has these bytes, whether the bytes come back, and the image of the parts; or why there is none.
pub fn tell_image(rt: &HostRuntime, name: &str, given: &str) -> Result<()> {
    let bytes = bytes(rt.alloc(), given)?;
    let image = match Image::from_bytes(rt.alloc(), &bytes) {
        Ok(image) => image,
        Err(fault) => {
            println!(rt; "{name}: {fault}")?;
            return Ok(());
        }
    };
    let (code, statics, table) = (image.code(), image.statics(), image.table());
    let (entry, cost) = (image.entry(), image.step_cost());
    let is_same = has_bytes(&image, &bytes)?;
    println!(rt; "{name}: entry {entry}, a step costs {cost}, same bytes: {is_same}")?;
    println!(rt; "  code {code:?}, statics {statics:?}, table {table:?}")?;
    let again = made(rt.alloc(), code, statics, entry, table)?;
    println!(rt; "  of its parts: {again:?}")?;
    Ok(())
}

/// Why the bytes cut at each place are those of no image.
pub fn tell_cuts(rt: &HostRuntime, name: &str, given: &str) -> Result<()> {
    let bytes = bytes(rt.alloc(), given)?;
    for (cut, _) in bytes.iter().enumerate() {
        match Image::from_bytes(rt.alloc(), &bytes[..cut]) {
            Ok(_) => println!(rt; "{name} cut at {cut}: an image")?,
            Err(fault) => println!(rt; "{name} cut at {cut}: {fault}")?,
        }
    }
    Ok(())
}

// An image, or not, with the table whose words are the six lowest digits of a number to the base 3.
fn with_table(alloc: Global, number: u32) -> Result<Vec<u8>, AllocError> {
    let mut bytes = Vec::new(alloc);
    for word in BEFORE_TABLE {
        bytes.extend_from_slice(&word.to_le_bytes())?;
    }
    let mut rest = number;
    for _ in 0..6 {
        bytes.extend_from_slice(&(rest % 3).to_le_bytes())?;
        rest /= 3;
    }
    Ok(bytes)
}

/// How many of the small tables are lists of signatures.
pub fn tell_small_tables(rt: &HostRuntime) -> Result<()> {
    let mut listed: u32 = 0;
    let mut refused: u32 = 0;
    for number in 0..SMALL_TABLES {
        let bytes = with_table(rt.alloc(), number)?;
        match Image::from_bytes(rt.alloc(), &bytes) {
            Ok(image) if has_bytes(&image, &bytes)? => listed = listed.saturating_add(1),
            Err(ImageFault::Table) => refused = refused.saturating_add(1),
            _ => println!(rt; "table {number}: another answer")?,
        }
    }
    println!(rt; "small tables: {listed} are lists of signatures, {refused} aren't")?;
    Ok(())
}
