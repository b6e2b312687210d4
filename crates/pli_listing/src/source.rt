// The lines of a source.

use std::alloc::{AllocError, Global};

/// A source by its lines.
#[derive(Drop)]
pub struct Lines<'a> {
    source: &'a [u8],
    // where each line ends
    ends: Vec<usize>,
}

impl<'a> Lines<'a> {
    /// The lines of a source.
    pub fn new(alloc: Global, source: &'a [u8]) -> Result<Lines<'a>, AllocError> {
        let mut ends = Vec::new(alloc);
        for (place, byte) in source.iter().enumerate() {
            if *byte == b'\n' {
                ends.push(place)?;
            }
        }
        Ok(Lines { source, ends })
    }

    /// A line, counted from 1, without its end; nothing where there is none.
    pub fn line(&self, number: i32) -> &'a [u8] {
        let index = usize::try_from(number).unwrap_or(0).saturating_sub(1);
        let begin = match index.checked_sub(1) {
            Some(before) => self
                .ends
                .get(before)
                .map_or(self.source.len(), |end| end.saturating_add(1)),
            None => 0,
        };
        let end = self.ends.get(index).copied().unwrap_or(self.source.len());
        self.source.get(begin..end).unwrap_or(&[])
    }
}
