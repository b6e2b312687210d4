// The walk along the headers of an area's generations.

ghost use Rattle.std.specs.Prelude.{◌≡◌, ◌+◌, ◌-◌, ◌*◌, ◌∷◌, ◌<◌, ◌≤◌, ◌≢◌, length, suc, max, IsSome, Some, None, MatchOption, if◌then◌else◌};
ghost use Rattle.pli_typing.specs.Signatures.{footprint};
ghost use Rattle.area_keeper.specs.KeptAreas.{kept_end};
ghost use Rattle.area_keeper.specs.KeeperLaws.{greatest_capacity};
ghost use Rattle.area_keeper.specs.Chain.{capacity_in, kept_in, follows, link_before, link_from, first_link, last_end, room_from, chain_area};
ghost use Rattle.area_heap.specs.Answers.{kept_of};
ghost use Rattle.area_heap.specs.Places.{generations, rest_from, IsReached, IsGapAt};

use crate::words::word_at;

/// Where the link to the first generation stands.
pub const FIRST_LINK: usize = 12;

/// How many bytes an area takes beside its capacity, and a generation beside its data.
pub const HEADER: usize = 16;

/// A place between generations: a link, where it stands, and the offset at which all that the walk passed ends.
#[derive(Clone, Copy)]
pub struct Place {
    pub link: u32,
    pub link_at: usize,
    pub end: usize,
}

/// The bytes that a generation takes, by its data size.
pub fn footprint(size: u32) -> usize
    ensures { result ≡ footprint size }
{
    HEADER + (size as usize).next_multiple_of(16)
}

impl Place {
    /// In front of the first generation.
    pub fn first(bytes: &[u8]) -> Place
        requires { IsSome (chain_area bytes.now) }
        ensures reached { IsReached bytes.now result.link_at result.end result.link }
        ensures front { result.link_at ≡ 12 }
        ensures whole { result.end ≡ 0 × rest_from result.end (generations bytes.now) ≡ generations bytes.now }
    {
        Place {
            link: word_at(bytes, FIRST_LINK),
            link_at: FIRST_LINK,
            end: 0,
        }
    }

    /// Behind the generation to which the link leads.
    fn next(self, bytes: &[u8]) -> Place
        requires reached { IsReached bytes.now self.link_at self.end self.link }
        requires leads { 0 < self.link }
        ensures reached { IsReached bytes.now result.link_at result.end result.link }
        ensures rest { rest_from self.end (generations bytes.now)
            ≡ kept_in (self.link - 1) bytes.now ∷ rest_from result.end (generations bytes.now) }
        ensures behind { result.link_at ≡ self.link + 27 }
        ensures ends { result.end ≡ kept_end (kept_in (self.link - 1) bytes.now) }
        ensures further { self.link_at < result.link_at }
    {
        let offset = self.link as usize - 1;
        let link_at = offset + 28;
        Place {
            link: word_at(bytes, link_at),
            link_at,
            end: offset + footprint(word_at(bytes, offset + 16)),
        }
    }

    /// In front of the first generation at an offset or behind it.
    pub fn before(bytes: &[u8], offset: u32) -> Place
        requires { IsSome (chain_area bytes.now) }
        ensures reached { IsReached bytes.now result.link_at result.end result.link }
        ensures behind { result.link_at < 28 + offset }
        ensures before { result.link ≢ 0 → offset < result.link }
    {
        let mut place = Place::first(bytes);
        while place.link != 0 && place.link <= offset {
            place = place.next(bytes);
        }
        place
    }

    /// In front of the first gap of so many bytes.
    pub fn gap(bytes: &[u8], needed: usize) -> Option<Place>
        requires area { IsSome (chain_area bytes.now) }
        requires bounded { needed ≤ 2 * greatest_capacity }
        ensures { MatchOption result
            (room_from 0 (capacity_in bytes.now) needed (generations bytes.now) ≡ None)
            (λ p. IsGapAt bytes.now needed p.link_at p.end p.link) }
    {
        let mut place = Place::first(bytes);
        while place.link != 0 {
            if place.end + needed < place.link as usize {
                return Some(place);
            }
            place = place.next(bytes);
        }
        if place.end + needed > bytes.len() - HEADER {
            return None;
        }
        Some(place)
    }

    /// Behind the last generation.
    pub fn last(bytes: &[u8]) -> Place
        requires { IsSome (chain_area bytes.now) }
        ensures last { result.end ≡ last_end (generations bytes.now) }
        ensures inside { 16 + result.end ≤ length bytes.now }
    {
        let mut place = Place::first(bytes);
        while place.link != 0 {
            place = place.next(bytes);
        }
        place
    }
}
