// The sheet text and the listing for C and Rust.
ghost use Rattle.std.specs.Prelude.{◌≡◌};
ghost use Rattle.dirmoog_c.specs.Texted.{ListingTold, ReadTold, answer_of, read_first, read_second};
ghost use Rattle.text_listing.specs.Listing as writing;
ghost use Rattle.text_reading.specs.Texts.{lists_lent};

use crate::put;
use ground::answers::number_of;
use ground::{Answer, Refusal};
use text_listing::listing::write_listing;
use text_reading::Reading;
use text_reading::read::read_sheet;

// The count of labels, or the place of a refusal.
fn read_first(reading: Reading) -> usize
    ensures { result ≡ read_first reading }
{
    match reading {
        Ok(counts) => counts.labels,
        Err(unread) => unread.refusal.place,
    }
}

// The count of gaps, or the bad field of a refusal.
fn read_second(reading: Reading) -> usize
    ensures { result ≡ read_second reading }
{
    match reading {
        Ok(counts) => counts.gaps,
        Err(unread) => unread.field,
    }
}

// Reads a text into lent lists. Gives 0 or the refusal's number;
// out is told the counts of labels and gaps, or the place and the bad field.
#[unsafe(no_mangle)]
pub extern "C" fn dirmoog_read(
    text: &[u8],
    wanted: &mut [i64],
    weight: &mut [i64],
    left: &mut [usize],
    right: &mut [usize],
    distance: &mut [i64],
    kind: &mut [u8],
    out: &mut [usize],
) -> usize
    ensures { let l = lists_lent wanted weight left right distance kind in
        ReadTold text.now l.entry out.old result l.exit out.new }
{
    let reading = read_sheet(text, wanted, weight, left, right, distance, kind);
    put(out, 0, read_first(reading));
    put(out, 1, read_second(reading));
    number_of(reading.map_err(|unread| unread.refusal))
}

// The answer of a number and a place: 0 is placed.
fn answer_of(number: usize, place: usize) -> Answer
    ensures { result ≡ answer_of number place }
{
    if number == 0 {
        return Ok(());
    }
    Err(Refusal {
        number,
        place,
        ring: 0,
    })
}

// Writes the listing of an answer to the front of text; a refusal's field is printed as it is handed.
// Gives 0 or the refusal's number; out is told the count of bytes, 0 where it is refused. No place is told: it is
// always 0.
#[unsafe(no_mangle)]
pub extern "C" fn dirmoog_listing(
    number: usize,
    place: usize,
    field: usize,
    place_num: &[i64],
    place_den: &[i64],
    left: &[usize],
    right: &[usize],
    distance: &[i64],
    text: &mut [u8],
    out: &mut [usize],
) -> usize
    ensures { let l = writing.listable_lent place_num place_den left right distance in
        let listed = writing.listed_in (answer_of number place) field l text.old in
        ListingTold listed out.old result text.new out.new }
{
    let answer = answer_of(number, place);
    let listed = write_listing(
        answer, field, place_num, place_den, left, right, distance, text,
    );
    put(out, 0, listed.unwrap_or(0));
    number_of(listed)
}
