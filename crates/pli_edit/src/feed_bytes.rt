// The bytes that a feed gave and that aren't taken yet.

ghost use Rattle.std.specs.Prelude.{◌≡◌, ◌≤◌, ◌+◌, ◌-◌, ◌++◌, [], drop, false, length, take, true, MatchResult};
ghost use Rattle.pli_edit.specs.Feeding.{Reading, bytes_of, behind, is_broken, MayCome};

use crate::fault::{EditFault, Failed};
use crate::feed::{Feed, Standing};
use std::marker::Model;

/// So many bytes are asked for by a read, and one more fits before them.
const ROOM: usize = 4097;

/// So many reads are made at most.
const MOST_READS: u32 = 1 << 30;

/// A feed, and what it gave that isn't taken yet. Each read asks for as many bytes as the others, so the buffer never
/// grows.
#[derive(Drop)]
pub struct FeedBytes<F: Feed> {
    feed: F,
    buffer: [u8; ROOM],
    place: usize,
    end: usize,
    left: u32,
    standing: Standing,
}

impl<F: Feed> Model for FeedBytes<F> {
    ghost use Rattle.std.specs.Prelude.{◌≤◌, ◌-◌, take, drop};
    ghost use Rattle.pli_edit.specs.Feeding.{Buffered};

    ghost Value = { Buffered };

    ghost view = { λ b. record {
      fed = record { history = F.history b.feed; standing = b.standing; left = b.left };
      pending = take (b.end - b.place) (drop b.place b.buffer);
    } };

    ghost invariant = { λ b. (b.place ≤ b.end) × (b.end ≤ 4097) };
}

impl<F: Feed> FeedBytes<F> {
    ghost use Rattle.pli_edit.specs.Feeding.{first_fed};

    /// Nothing is read yet.
    pub fn new(feed: F) -> FeedBytes<F>
        ensures { result ≡ record { fed = first_fed (F.history feed); pending = [] } }
    {
        FeedBytes {
            feed,
            buffer: [0; ROOM],
            place: 1,
            end: 1,
            left: MOST_READS,
            standing: Standing::Open,
        }
    }

    /// The feed.
    pub fn into_inner(self) -> F
        ensures { F.history result ≡ self.fed.history }
    {
        self.feed
    }

    pub fn standing(&self) -> Standing
        ensures { result ≡ self.now.fed.standing }
    {
        self.standing
    }

    /// The bytes that aren't taken yet.
    pub fn pending(&self) -> &[u8]
        ensures { result.now ≡ self.now.pending }
    {
        &self.buffer[self.place..self.end]
    }

    /// So many bytes are taken.
    pub fn pass(&mut self, count: usize)
        requires { count ≤ length self.old.pending }
        ensures { self.new ≡ record { fed = self.old.fed; pending = drop count self.old.pending } }
    {
        self.place += count;
    }

    /// One more read, behind at most one byte that isn't taken yet. `Read` where it fails, or where none may be made
    /// any more.
    pub fn read(&mut self) -> Result<(), EditFault>
        requires few { length self.old.pending ≤ 1 }
        requires open { self.old.fed.standing ≡ Standing.Open }
        ensures read { (r : Reading) × MayCome r self.old.fed ×
            (self.new ≡ record { fed = behind r self.old.fed; pending = self.old.pending ++ bytes_of r }) }
        ensures told { MatchResult result (λ _. is_broken self.new.fed.standing ≡ false)
            (λ e. (e ≡ EditFault.Read) × (is_broken self.new.fed.standing ≡ true)) }
    {
        if self.left == 0 {
            self.standing = Standing::Spent;
            return Err(EditFault::Read);
        }
        self.left -= 1;
        self.place = kept(&mut self.buffer, self.place, self.end);
        self.end = 1;
        match self.feed.read(&mut self.buffer[1..]) {
            Ok(0) => self.standing = Standing::Ended,
            Ok(count) => self.end = 1 + count,
            Err(Failed) => {
                self.standing = Standing::Broken;
                return Err(EditFault::Read);
            }
        }
        Ok(())
    }
}

// Puts the byte that stands between the places, if there is one, at the front, and tells where it begins if it ends at
// 1.
fn kept(buffer: &mut [u8], place: usize, end: usize) -> usize
    requires within { (place ≤ end) × (end ≤ length buffer.old) }
    requires few { end ≤ place + 1 }
    requires room { 1 ≤ length buffer.old }
    ensures start { result ≤ 1 }
    ensures kept { take (1 - result) (drop result buffer.new) ≡ take (end - place) (drop place buffer.old) }
{
    if place == end {
        return 1;
    }
    buffer[0] = buffer[place];
    0
}
