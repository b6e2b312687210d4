// What the calls of a feed or of a drain came to so far. Contracts alone see it: it takes no memory.

ghost use Rattle.std.specs.Prelude.{◌≡◌, ◌++◌, [], ◌∷◌, take};
ghost use Rattle.pli_edit.specs.Histories.{after_call};

use crate::fault::Failed;
use boxcar::tag::{Names, Tag};

/// The calls that failed, the answers of the others, and the bytes that these gave or took.
#[derive(Drop)]
pub struct Past {
    failures: Tag,
    answers: Tag,
    bytes: Tag,
}

struct Same;

impl Names<Tag> for Same {
    ghost numbers = { λ t. t.numbers };
}

struct OneMore;

impl Names<Tag> for OneMore {
    ghost numbers = { λ t. 0 ∷ t.numbers };
}

#[derive(Drop)]
struct Answered<'a> {
    before: Tag,
    buffer: &'a [u8],
    count: usize,
}

struct ItsAnswer;

impl<'a> Names<Answered<'a>> for ItsAnswer {
    ghost numbers = { λ a. a.before.numbers ++ a.count ∷ [] };
}

struct ItsBytes;

impl<'a> Names<Answered<'a>> for ItsBytes {
    ghost numbers = { λ a. a.before.numbers ++ take a.count a.buffer.now };
}

impl Past {
    ghost use Rattle.pli_edit.specs.Pasts.{history_of};

    /// No call was made.
    pub fn new() -> Past
        ensures { history_of result ≡ record { failures = 0; answers = []; bytes = [] } }
    {
        Past {
            failures: Tag::empty(),
            answers: Tag::empty(),
            bytes: Tag::empty(),
        }
    }

    /// One more call, which came out so.
    pub fn tell(&mut self, outcome: &Result<usize, Failed>, buffer: &[u8])
        ensures { history_of self.new ≡ after_call outcome.now buffer.now (history_of self.old) }
    {
        match outcome {
            Ok(count) => {
                let count = *count;
                let before = Tag::of::<Tag, Same>(&self.answers);
                self.answers = Tag::of::<Answered<'_>, ItsAnswer>(&Answered {
                    before,
                    buffer,
                    count,
                });
                let before = Tag::of::<Tag, Same>(&self.bytes);
                self.bytes = Tag::of::<Answered<'_>, ItsBytes>(&Answered {
                    before,
                    buffer,
                    count,
                });
            }
            Err(_) => self.failures = Tag::of::<Tag, OneMore>(&self.failures),
        }
    }
}
