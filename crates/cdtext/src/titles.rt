// Whether a run of bytes is one of titles, each with its ending zero.
ghost use Rattle.std.specs.Prelude.{◌≡◌, eqb, Some, None};
ghost use Rattle.basics.specs.Bytes.{if};
ghost use Rattle.cdtext.specs.Titles.{is_character, title_length, title_count, allowed};

// The most characters of a title.
const LONGEST_TITLE: usize = 160;

// The most titles: one for each track of a disc.
const MOST_TITLES: usize = 99;

// Whether a byte may stand in a title.
fn is_character(x: u8) -> bool
    ensures { result ≡ is_character x }
{
    (0x20..=0x7E).contains(&x)
}

// Whether a title may have so many characters.
fn title_length(n: usize) -> bool
    ensures { result ≡ title_length n }
{
    (1..=LONGEST_TITLE).contains(&n)
}

// Whether a byte may stand behind c characters of a title: one more of them, or the zero that ends the title.
fn goes_on(c: usize, x: u8) -> bool
    ensures { result ≡ if (eqb x 0) (title_length c) (is_character x) }
{
    is_character(x) || x == 0 && title_length(c)
}

// The number of titles, where they are allowed.
pub(crate) fn count_titles(run: &[u8]) -> Option<usize>
    ensures { result ≡ if (allowed run.now) (Some (title_count run.now)) None }
{
    let mut titles = 0;
    let mut characters = 0;
    for x in run {
        if !goes_on(characters, *x) {
            return None;
        }
        if *x == 0 {
            titles += 1;
            characters = 0;
        } else {
            characters += 1;
        }
    }
    if characters == 0 && (1..=MOST_TITLES).contains(&titles) {
        Some(titles)
    } else {
        None
    }
}
