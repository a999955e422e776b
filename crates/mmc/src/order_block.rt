// The order block: 512 bytes that hold an order.
ghost use Rattle.std.specs.Prelude.{◌≡◌, ◌++◌, ◌+◌, ◌≤◌, length, drop};
ghost use Rattle.basics.specs.Bytes.{put_at};
ghost use Rattle.mmc.specs.Bench.{LayoutSheets, LayoutCases};
ghost use Rattle.mmc.specs.Order.{most_tracks};
ghost use Rattle.mmc.specs.OrderBlock.{method_byte, kind_byte, flags_byte, recipe_byte, listed, listed_method, listed_kind, listed_recipe, kinds_ok, track_of, tracks_of, fields_of, order_ok, row, rows, order_body, ReadsOrder, WritesOrder};

use crate::block::{BLOCK_BYTES, check_first, put_check, whole};
use crate::bytes::{all_zero, fill, flag, number32, put};
use crate::order::{Kind, Method, NO_TRACK, Order, ROWS, Recipe, Track};
use crate::refusals::Refusal;
use crate::units::BlockCount;

// The flags with all four bits.
const LAST_FLAGS: u8 = 15;

// Byte 1 of the block.
impl From<Method> for u8 {
    ghost from_gives = { λ m n. n ≡ method_byte m };

    fn from(m: Method) -> u8 {
        match m {
            Method::Tao => 1,
            Method::Sao => 2,
        }
    }
}

impl TryFrom<u8> for Method {
    type Error = Refusal;

    ghost try_from_gives = { λ n r. r ≡ listed_method n };

    #[tactic(auto, unfolding(crate::specs::OrderBlock::method_of))]
    fn try_from(n: u8) -> Result<Method, Refusal> {
        match n {
            1 => Ok(Method::Tao),
            2 => Ok(Method::Sao),
            _ => Err(Refusal::FieldValue),
        }
    }
}

// The first byte of a row.
impl From<Kind> for u8 {
    ghost from_gives = { λ k n. n ≡ kind_byte k };

    fn from(k: Kind) -> u8 {
        match k {
            Kind::Audio => 0,
            Kind::Data => 1,
        }
    }
}

impl TryFrom<u8> for Kind {
    type Error = Refusal;

    ghost try_from_gives = { λ n r. r ≡ listed_kind n };

    fn try_from(n: u8) -> Result<Kind, Refusal> {
        match n {
            0 => Ok(Kind::Audio),
            1 => Ok(Kind::Data),
            _ => Err(Refusal::FieldValue),
        }
    }
}

// Byte 499 of the block.
impl From<Recipe> for u8 {
    ghost from_gives = { λ q n. n ≡ recipe_byte q };

    fn from(q: Recipe) -> u8 {
        match q {
            Recipe::Old => 0,
            Recipe::New => 1,
        }
    }
}

impl TryFrom<u8> for Recipe {
    type Error = Refusal;

    ghost try_from_gives = { λ n r. r ≡ listed_recipe n };

    fn try_from(n: u8) -> Result<Recipe, Refusal> {
        match n {
            0 => Ok(Recipe::Old),
            1 => Ok(Recipe::New),
            _ => Err(Refusal::FieldValue),
        }
    }
}

impl Order {
    // Byte 2 of the block.
    pub fn flags(&self) -> u8
        ensures { result ≡ flags_byte self.now.keep self.now.protect self.now.immed self.now.erase }
    {
        flag(self.keep, 1) + flag(self.protect, 2) + flag(self.immed, 4) + flag(self.erase, 8)
    }
}

// The track of a row, at the start of the bytes: 3 where its kind is not listed.
fn track_of(b: &[u8]) -> Result<Track, Refusal>
    requires { 5 ≤ length b.now }
    ensures { result ≡ listed (kinds_ok 1 b.now) (track_of b.now) }
{
    Ok(Track {
        kind: Kind::try_from(b[0])?,
        length: BlockCount(number32(&b[1..])),
    })
}

// The tracks of all 99 rows: 3 where a kind is not listed.
fn tracks_of(b: &[u8; BLOCK_BYTES]) -> Result<[Track; ROWS], Refusal>
    ensures { result ≡ listed (kinds_ok most_tracks (drop 4 b.now)) (tracks_of most_tracks (drop 4 b.now)) }
{
    let mut tracks = [NO_TRACK; ROWS];
    for (i, t) in tracks.iter_mut().enumerate() {
        *t = track_of(&b[4 + 5 * i..])?;
    }
    Ok(tracks)
}

// The order in a block whose check is right: 3 where a field's value is not listed, or where no block can hold the order.
fn read_fields(b: &[u8; BLOCK_BYTES]) -> Result<Order, Refusal>
    ensures { result ≡ listed (order_ok b.now) (fields_of b.now) }
{
    let flags = b[2];
    if b[0] != 1 || LAST_FLAGS < flags || !all_zero(&b[500..510]) {
        return Err(Refusal::FieldValue);
    }
    let order = Order {
        method: Method::try_from(b[1])?,
        keep: flags % 2 == 1,
        protect: flags / 2 % 2 == 1,
        immed: flags / 4 % 2 == 1,
        erase: flags / 8 % 2 == 1,
        recipe: Recipe::try_from(b[499])?,
        count: b[3],
        tracks: tracks_of(b)?,
    };
    if !order.is_valid() {
        return Err(Refusal::FieldValue);
    }
    Ok(order)
}

// Reads an order block: 1, 2 and 3.
pub fn read_order(b: &[u8]) -> Result<Order, Refusal>
    ensures { ReadsOrder b.now result }
{
    let block = whole(b)?;
    check_first(block, 510)?;
    read_fields(block)
}

// The row of a track.
fn row_of(t: Track) -> [u8; 5]
    ensures { result ≡ row t }
{
    let [a, b, c, d] = t.length.0.to_be_bytes();
    [t.kind.into(), a, b, c, d]
}

// Writes the 99 rows of an order block.
fn put_rows(o: &Order, out: &mut [u8; BLOCK_BYTES])
    ensures { out.new ≡ put_at out.old 4 (rows o.now.tracks) }
{
    for (i, t) in o.tracks.iter().enumerate() {
        put(out, 4 + 5 * i, &row_of(*t));
    }
}

// Writes bytes 0 to 509 of an order block.
fn put_body(o: &Order, out: &mut [u8; BLOCK_BYTES])
    ensures { out.new ≡ order_body o.now ++ drop 510 out.old }
{
    put(out, 0, &[1, o.method.into(), o.flags(), o.count]);
    put_rows(o, out);
    put(out, 499, &[o.recipe.into(), 0, 0, 0, 0, 0, 0, 0, 0, 0, 0]);
}

// Writes an order block: 3, then 11. Its contract also keeps the bench's sheets on the layouts, which hold of the definitions.
pub fn write_order(o: Order, out: &mut [u8]) -> Result<usize, Refusal>
    ensures { (WritesOrder o result out.old out.new) × LayoutSheets × LayoutCases }
{
    if !o.is_valid() {
        return Err(Refusal::FieldValue);
    }
    let mut block = [0u8; BLOCK_BYTES];
    put_body(&o, &mut block);
    put_check(&mut block);
    fill(&block, out)
}
