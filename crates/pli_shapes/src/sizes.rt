// The number of parts inside each part.

ghost use Rattle.std.specs.Prelude.{◌≡◌, ◌+◌, ◌≤◌, ◌<◌, ◌^◌, drop, length};
ghost use Rattle.pli_shapes.specs.Sizes.{AreWithin, parts_in, with_sizes};

use crate::part::Part;

/// How many parts so many from a place on are, with those inside.
fn parts_in(parts: &[Part], start: usize, count: u32) -> usize
    requires within { AreWithin (drop start parts.now) }
    requires there { start ≤ length parts.now }
    ensures count { result ≡ parts_in count (drop start parts.now) }
    ensures inside { start + result ≤ length parts.now }
{
    let mut place = start;
    let mut left = count;
    while left > 0 {
        let Some(part) = parts.get(place) else {
            return place - start;
        };
        place += 1 + part.inside as usize;
        left -= 1;
    }
    place - start
}

/// Puts the number of all parts inside into each part that tells the number of those directly in it.
pub fn put_sizes(parts: &mut [Part])
    requires { length parts.old < 2 ^ 32 }
    ensures { parts.new ≡ with_sizes parts.old }
{
    let mut left = parts.len();
    while left > 0 {
        left -= 1;
        let part = parts[left];
        let inside = parts_in(parts, left + 1, part.inside);
        parts[left] = Part {
            dimensions: part.dimensions,
            inside: inside as u32,
        };
    }
}
