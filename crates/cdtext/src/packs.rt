// Packs: made from a run of titles, and read back to it.
ghost use Rattle.std.specs.Prelude.{◌≡◌, true, ◌++◌, ◌+◌, ◌*◌, ◌/◌, ◌≤◌, ◌<◌, min, length, drop, take};
ghost use Rattle.cdtext.specs.Titles.{title_count};
ghost use Rattle.cdtext.specs.Bench.{ExamplePacks};
ghost use Rattle.cdtext.specs.Packs.{most_position, longest_run, pack, next_place, place_after, text_packs, packs_for, size_record, size_pack, size_packs, packs_of, packs, text_in, IsLast, trimmed, packs_size, are_bytes, run_in, read_packs, Fits, Fills, MakesPacks, ReadsPacks};

use crate::check::check_of;
use crate::refusals::Refusal;
use crate::titles::count_titles;
use mmc::bytes::{fill, same};

// Where some text ends: the track of the title that goes on, and how many of its characters have come.
#[derive(Clone, Copy)]
pub(crate) struct Place {
    pub track: usize,
    pub count: usize,
}

// Where the first title begins.
const FIRST_PLACE: Place = Place { track: 1, count: 0 };

impl Place {
    // Where a text ends when one more byte has come.
    fn next(self, x: u8) -> Place
        requires { (self.track ≤ 65536) × (self.count ≤ 65536) }
        ensures { (result ≡ next_place self x) × (result.track ≤ self.track + 1) × (result.count ≤ self.count + 1) }
    {
        if x == 0 {
            Place {
                track: self.track + 1,
                count: 0,
            }
        } else {
            Place {
                count: self.count + 1,
                ..self
            }
        }
    }

    // Where a text ends when some more of it has come.
    fn after(self, text: &[u8]) -> Place
        requires { (self.track ≤ 4096) × (self.count ≤ 4096) × (length text.now ≤ 12) }
        ensures { result ≡ place_after self text.now }
    {
        let mut place = self;
        for x in text {
            place = place.next(*x);
        }
        place
    }

    // The character position: at most 15.
    fn position(self) -> u8
        ensures { result ≡ min self.count most_position }
    {
        self.count.min(15) as u8
    }
}

// The sorts of packs, by their first byte: those that bear the text of titles, and those that bear sizes.
const TEXT: u8 = 0x80;

const SIZES: u8 = 0x8F;

// The most packs, the three size packs among them.
const MOST_PACKS: usize = 255;

// The bytes of the most packs.
const MOST_BYTES: usize = 18 * MOST_PACKS;

// A longer run has more packs: each text pack bears twelve bytes of it.
const LONGEST_RUN: usize = 12 * (MOST_PACKS - 3);

// A pack of 18 bytes with its check bytes; text that is shorter than twelve bytes is filled with zeros.
fn pack_of(sort: u8, track: u8, number: u8, position: u8, text: &[u8]) -> [u8; 18]
    requires { length text.now ≤ 12 }
    ensures { result ≡ pack sort track number position text.now }
{
    let mut p = [0; 18];
    p[..4].copy_from_slice(&[sort, track, number, position]);
    p[4..4 + text.len()].copy_from_slice(text);
    let check = check_of(&p[..16]);
    let [high, low] = check.to_be_bytes();
    p[16..].copy_from_slice(&[high, low]);
    p
}

// Writes a pack at its place among the packs.
fn put_pack(out: &mut [u8], k: usize, p: [u8; 18])
    requires { 18 * k + 18 ≤ length out.old }
    ensures { out.new ≡ take (18 * k) out.old ++ p ++ drop (18 * k + 18) out.old }
{
    let at = 18 * k;
    out[at..at + 18].copy_from_slice(&p);
}

// Writes the first n text packs.
fn put_texts(run: &[u8], n: usize, out: &mut [u8])
    requires { Fits run.now (length out.old) × (n ≡ packs_for run.now) }
    ensures { out.new ≡ text_packs run.now n ++ drop (18 * n) out.old }
{
    let mut place = FIRST_PLACE;
    for k in 0..n {
        let at = 12 * k;
        let text = &run[at..run.len().min(at + 12)];
        put_pack(
            out,
            k,
            pack_of(TEXT, place.track as u8, k as u8, place.position(), text),
        );
        place = place.after(text);
    }
}

// The record of 36 bytes that the size packs bear, for so many titles in so many text packs.
fn size_record(titles: usize, n: usize) -> [u8; 36]
    requires { (titles < 256) × (n + 2 < 256) }
    ensures { result ≡ size_record titles n }
{
    let mut r = [0; 36];
    r[0] = 0x01;
    r[1] = 1;
    r[2] = titles as u8;
    r[4] = n as u8;
    r[19] = 3;
    r[20] = (n + 2) as u8;
    r[28] = 0x09;
    r
}

// The i-th of the three size packs, behind n text packs.
fn size_pack(sizes: &[u8; 36], n: usize, i: usize) -> [u8; 18]
    requires { (i < 3) × (n + 2 < 256) }
    ensures { result ≡ size_pack sizes.now n i }
{
    let at = 12 * i;
    pack_of(SIZES, i as u8, (n + i) as u8, 0, &sizes[at..at + 12])
}

// Writes the three size packs that stand behind n text packs.
fn put_sizes(titles: usize, n: usize, out: &mut [u8])
    requires { (titles < 256) × (n + 2 < 256) × (54 ≤ length out.old) }
    ensures { out.new ≡ size_packs (size_record titles n) n ++ drop 54 out.old }
{
    let sizes = size_record(titles, n);
    for i in 0..3 {
        put_pack(out, i, size_pack(&sizes, n, i));
    }
}

// How many text packs a run of so many bytes fills.
fn packs_for(length: usize) -> usize
    requires { length ≤ longest_run }
    ensures { result ≡ (length + 11) / 12 }
{
    (length + 11) / 12
}

// Writes all packs at the start of out.
fn put_packs(run: &[u8], titles: usize, out: &mut [u8])
    requires { Fits run.now (length out.old) × (titles ≡ title_count run.now) }
    ensures { out.new ≡ packs_of run.now ++ drop (18 * (packs_for run.now + 3)) out.old }
{
    let n = packs_for(run.len());
    put_texts(run, n, out);
    let at = 18 * n;
    put_sizes(titles, n, &mut out[at..]);
}

// Makes the packs of a run of titles, and answers how many they are: 17, 19, then 11.
pub fn make_packs(run: &[u8], out: &mut [u8]) -> Result<usize, Refusal>
    ensures { MakesPacks run.now result out.old out.new × ExamplePacks }
{
    let titles = count_titles(run).ok_or(Refusal::TitleNotAllowed)?;
    if LONGEST_RUN < run.len() {
        return Err(Refusal::TooManyPacks);
    }
    let n = packs_for(run.len()) + 3;
    if out.len() < 18 * n {
        return Err(Refusal::ShortBuffer);
    }
    put_packs(run, titles, out);
    Ok(n)
}

// Whether packs can have so many bytes: 18 for each of 4 to 255.
fn packs_size(n: usize) -> bool
    ensures { result ≡ packs_size n }
{
    (72..=MOST_BYTES).contains(&n) && n % 18 == 0
}

// Writes the text of the first n packs over zeros.
fn put_text(b: &[u8], n: usize, text: &mut [u8])
    requires { (18 * n ≤ length b.now) × (12 * n ≤ length text.old) }
    ensures { text.new ≡ text_in n b.now ++ drop (12 * n) text.old }
{
    for k in 0..n {
        let from = 18 * k + 4;
        let at = 12 * k;
        text[at..at + 12].copy_from_slice(&b[from..from + 12]);
    }
}

// The index of the last byte that is not zero.
fn last_character(text: &[u8]) -> Option<usize>
    ensures { IsLast text.now result }
{
    text.iter().rposition(|x| *x != 0)
}

// The length of a text without the zeros at its end.
fn trimmed_length(text: &[u8]) -> usize
    ensures { result ≡ length (trimmed text.now) }
{
    last_character(text).map_or(0, |last| last + 1)
}

// Whether b is the packs of a run.
fn gives(run: &[u8], b: &[u8]) -> bool
    ensures { result ≡ are_bytes (packs run.now) b.now }
{
    let mut packs = [0; 18 * MOST_PACKS];
    match make_packs(run, &mut packs) {
        Ok(n) => same(&packs[..18 * n], b),
        Err(_) => false,
    }
}

// Hands out the run that the text of b gives, where b is its packs: 18, then 11.
fn read_run(run: &[u8], b: &[u8], out: &mut [u8]) -> Result<usize, Refusal>
    requires { (packs_size (length b.now) ≡ true) × (run.now ≡ run_in b.now) }
    ensures { Fills 1 (read_packs b.now) result out.old out.new }
{
    if !gives(run, b) {
        return Err(Refusal::NoPacks);
    }
    fill(run, out).map_err(|_| Refusal::ShortBuffer)
}

// Reads packs back to the run of titles, and answers its length: 18, then 11.
pub fn read_packs(b: &[u8], out: &mut [u8]) -> Result<usize, Refusal>
    ensures { ReadsPacks b.now result out.old out.new }
{
    if !packs_size(b.len()) {
        return Err(Refusal::NoPacks);
    }
    let n = b.len() / 18 - 3;
    let mut text = [0; LONGEST_RUN + 1];
    put_text(b, n, &mut text);
    let end = trimmed_length(&text[..12 * n]) + 1;
    read_run(&text[..end], b, out)
}
