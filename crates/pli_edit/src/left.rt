// What a stream that failed had still to hand over. Contracts alone see it.

ghost use Rattle.std.specs.Prelude.{◌≡◌, ◌++◌, drop, replicate};

use boxcar::tag::{Names, Tag};

#[derive(Drop)]
struct Unwritten<'a> {
    left: Tag,
    fill: u8,
    before: usize,
    text: &'a [u8],
    behind: usize,
    count: usize,
}

struct Same;

impl Names<Tag> for Same {
    ghost numbers = { λ t. t.numbers };
}

struct More;

impl<'a> Names<Unwritten<'a>> for More {
    ghost numbers = { λ u. u.left.numbers
        ++ drop u.count (replicate u.before u.fill ++ (u.text.now ++ replicate u.behind u.fill)) };
}

/// Behind what is left, what a field has behind so many bytes: a text between fill bytes.
pub fn with_field_left(
    left: &Tag,
    fill: u8,
    before: usize,
    text: &[u8],
    behind: usize,
    count: usize,
) -> Tag
    ensures { result.numbers ≡ left.now.numbers
        ++ drop count (replicate before fill ++ (text.now ++ replicate behind fill)) }
{
    let left = Tag::of::<Tag, Same>(left);
    Tag::of::<Unwritten<'_>, More>(&Unwritten {
        left,
        fill,
        before,
        text,
        behind,
        count,
    })
}
