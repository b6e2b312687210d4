// What is known of a word: a number or a name of a refusal, an error or a limit, or a word of ordinary PL/I that is
// left out.

use crate::advice::push_signs;
use crate::ordinary::push_forms;
use crate::topic::{ERRORS, LIMITS, REFUSALS, Topic};
use std::alloc::{AllocError, Global};

// Those of some topics that a word calls, each behind what they are together.
fn push_called(
    text: &mut String,
    chapter: &str,
    topics: &[Topic],
    word: &str,
) -> Result<(), AllocError> {
    for topic in topics {
        if topic.is_called(word) {
            text.push_str(chapter)?;
            topic.push_title(text)?;
            writeln!(text, "\n{topic}")?;
            topic.push_example(text)?;
        }
    }
    Ok(())
}

/// All that is known of a word; an empty text where that is nothing.
pub fn explanation(alloc: Global, word: &str) -> Result<String, AllocError> {
    let mut text = String::new(alloc);
    push_called(&mut text, "Refusal of a source:", &REFUSALS, word)?;
    push_called(&mut text, "Error of a run:", &ERRORS, word)?;
    push_called(&mut text, "End of a run:", &LIMITS, word)?;
    push_forms(&mut text, word)?;
    push_signs(&mut text, word)?;
    Ok(text)
}
