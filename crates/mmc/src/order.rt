// An order of tracks, and what is judged of it.
ghost use Rattle.std.specs.Prelude.{◌≡◌, ◌≤◌, ◌<◌, ◌^◌, length, drop};
ghost use Rattle.mmc.specs.Order.{most_tracks, all_none, no_order, new_sao, valid_order, tracks_in, order_kind, all_kind, all_long, blocks_of, keeps_sao, mixes_sao, mixed_or_kept, overlong};

use crate::times::LAST_ADDRESS;
use crate::units::{BlockCount, BlockSum};

// Track at once, or session at once.
#[derive(Clone, Copy, Debug, PartialEq, Eq)]
pub enum Method {
    Tao,
    Sao,
}

// How a track at once is closed: by CLOSE TRACK SESSION function 1 after SYNCHRONIZE CACHE, or by SYNCHRONIZE CACHE alone.
#[derive(Clone, Copy, Debug, PartialEq, Eq)]
pub enum Recipe {
    Old,
    New,
}

#[derive(Clone, Copy, Debug, PartialEq, Eq)]
pub enum Kind {
    Audio,
    Data,
}

#[derive(Clone, Copy, Debug, PartialEq, Eq)]
pub struct Track {
    pub kind: Kind,
    pub length: BlockCount,
}

// The first count of the tracks are ordered; the rest are no tracks: audio, of no block.
#[derive(Clone, Copy)]
pub struct Order {
    pub method: Method,
    pub keep: bool,
    pub protect: bool,
    pub immed: bool,
    pub erase: bool,
    pub recipe: Recipe,
    pub count: u8,
    pub tracks: [Track; ROWS],
}

// An order has so many tracks at most.
pub const MOST_TRACKS: u8 = 99;

// There is a row for each.
pub const ROWS: usize = MOST_TRACKS as usize;

// A track has so many blocks at least.
const LEAST_BLOCKS: u32 = 300;

// The lead-out stands at this address at most.
pub const LAST_LEAD_OUT: u64 = LAST_ADDRESS as u64;

// What stands where there is no track.
pub const NO_TRACK: Track = Track {
    kind: Kind::Audio,
    length: BlockCount(0),
};

// What stands where there is no order.
#[tactic(auto, unfolding(crate::specs::Order::no_order))]
pub fn no_order() -> Order
    ensures { result ≡ no_order }
{
    Order {
        method: Method::Tao,
        keep: false,
        protect: false,
        immed: false,
        erase: false,
        recipe: Recipe::Old,
        count: 0,
        tracks: [NO_TRACK; ROWS],
    }
}

// Whether each of the tracks is none.
fn all_none(tracks: &[Track]) -> bool
    ensures { result ≡ all_none tracks.now }
{
    tracks.iter().all(|t| *t == NO_TRACK)
}

// The sum of the lengths of the tracks of an order.
fn blocks_of(tracks: &[Track]) -> u64
    requires { length tracks.now ≤ most_tracks }
    ensures { (result ≡ blocks_of tracks.now) × (result < 2 ^ 40) }
{
    tracks.iter().map(|t| t.length.0 as u64).sum()
}

impl Order {
    // The ordered tracks, at most 99 in any case.
    pub fn ordered(&self) -> &[Track]
        ensures { (result.now ≡ tracks_in self.now) × (length result.now ≤ most_tracks) }
    {
        &self.tracks[..ROWS.min(self.count as usize)]
    }

    // The ordered tracks after the first so many.
    fn ordered_after(&self, first: usize) -> &[Track]
        ensures { (result.now ≡ drop first (tracks_in self.now)) × (length result.now ≤ most_tracks) }
    {
        let tracks = self.ordered();
        &tracks[tracks.len().min(first)..]
    }

    // Whether no track stands past the order's count.
    fn rest_none(&self) -> bool
        requires { self.now.count ≤ most_tracks }
        ensures { result ≡ all_none (drop self.now.count self.now.tracks) }
    {
        all_none(&self.tracks[self.count as usize..])
    }

    // Whether a session at once is ordered by the new recipe.
    fn new_sao(&self) -> bool
        ensures { result ≡ new_sao self.now }
    {
        self.method == Method::Sao && self.recipe == Recipe::New
    }

    // Whether an order block can hold the order: 3 where not.
    #[tactic(auto, unfolding(crate::specs::Order::valid_order))]
    pub fn is_valid(&self) -> bool
        ensures { result ≡ valid_order self.now }
    {
        1 <= self.count && (self.count <= MOST_TRACKS && (self.rest_none() && !self.new_sao()))
    }

    // The first track's kind.
    pub(crate) fn kind(&self) -> Kind
        ensures { result ≡ order_kind self.now }
    {
        self.tracks[0].kind
    }

    // Whether all tracks are of a kind.
    pub fn all_kind(&self, kind: Kind) -> bool
        ensures { result ≡ all_kind kind (tracks_in self.now) }
    {
        self.ordered().iter().all(|t| kind == t.kind)
    }

    // Whether every track has the least number of blocks or more.
    pub fn all_long(&self) -> bool
        ensures { result ≡ all_long (tracks_in self.now) }
    {
        self.ordered().iter().all(|t| LEAST_BLOCKS <= t.length.0)
    }

    // The sum S of the lengths of the tracks after the first so many.
    pub fn blocks_after(&self, first: usize) -> BlockSum
        ensures { (result.0 ≡ blocks_of (drop first (tracks_in self.now))) × (result.0 < 2 ^ 40) }
    {
        BlockSum(blocks_of(self.ordered_after(first)))
    }

    // How many tracks there are after the first so many.
    pub fn tracks_after(&self, first: usize) -> usize
        ensures { (result ≡ length (drop first (tracks_in self.now))) × (result ≤ most_tracks) }
    {
        self.ordered_after(first).len()
    }

    // Whether a session at once is to be kept appendable.
    pub(crate) fn keeps_sao(&self) -> bool
        ensures { result ≡ keeps_sao self.now }
    {
        self.method == Method::Sao && self.keep
    }

    // Whether a session at once is of mixed kinds.
    fn mixes_sao(&self) -> bool
        ensures { result ≡ mixes_sao self.now }
    {
        self.method == Method::Sao && !self.all_kind(self.kind())
    }

    // 8: a session at once of mixed kinds, or to be kept appendable.
    #[tactic(auto, unfolding(crate::specs::Order::mixed_or_kept))]
    pub fn mixed_or_kept(&self) -> bool
        ensures { result ≡ mixed_or_kept self.now }
    {
        self.keeps_sao() || self.mixes_sao()
    }

    // 10 where the first track starts at address 0: the lead-out would stand past the last address for one.
    #[tactic(auto, unfolding(crate::specs::Order::overlong))]
    pub(crate) fn is_overlong(&self) -> bool
        ensures { result ≡ overlong self.now }
    {
        LAST_LEAD_OUT < self.blocks_after(0).0
    }
}
