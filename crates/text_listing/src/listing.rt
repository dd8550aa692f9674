// The listing of an answer: a record for each label and for each gap, or the refused record.
ghost use Rattle.std.specs.Prelude.{Ok, ◌≡◌, [], take, ◌+◌, ◌*◌, ◌<◌, ◌≤◌, length};
ghost use Rattle.text_listing.specs.Appended.{Appended};
ghost use Rattle.text_rows.specs.Taking.{no_field};
ghost use Rattle.text_listing.specs.Listing.{place_room, listing_room, laid, listed_as, listed_in};
ghost use Rattle.text_listing.specs.Listing.{listable_lent, listable_of};
ghost use Rattle.text_listing.specs.Listing.{place_record, place_records, refused_record, unit_at, unit_of};
ghost use Rattle.ground.specs.Limits.{labels_most};

use crate::lent::Lent;
use crate::slacks::put_slacks;
use crate::text::Text;
use crate::{LISTING_ROOM, Listed, REFUSED_ROOM};
use ground::limits::{GAPS, LABELS};
use ground::rules::Rule;
use ground::{Answer, Label, Refusal};
use single_fractions::Ties;
use single_fractions::round::{round, whole_of};

// The whole unit of a fraction, halves to the larger number; 0 for one that rounding refuses.
fn whole_unit(num: i64, den: i64) -> i64
    ensures { result ≡ unit_of num den }
{
    whole_of(round(Ties::Up, num, den))
}

// Puts the record of a label.
fn put_place(text: &mut Text<LISTING_ROOM>, label: Label, num: i64, den: i64)
    requires { (label.0 < labels_most)
        × (length (take text.old.end text.old.bytes) + place_room ≤ listing_room) }
    ensures { let place = place_record label.0 num den (unit_of num den) in
        Appended (take text.old.end text.old.bytes) place (take text.new.end text.new.bytes) }
{
    text.put(b"place");
    text.put_number(label.0 as u64);
    text.put_signed(num);
    text.put_signed(den);
    text.put_signed(whole_unit(num, den));
    text.put(b"\r\n");
}

// Puts the records of all labels.
fn put_places(text: &mut Text<LISTING_ROOM>, place_num: &[i64], place_den: &[i64])
    requires { (length place_num.now ≤ labels_most)
        × (length place_den.now ≡ length place_num.now)
        × (take text.old.end text.old.bytes ≡ []) }
    ensures { let nums = place_num.now in
        let dens = place_den.now in
        (take text.new.end text.new.bytes ≡ place_records (length nums) nums dens (unit_at nums dens))
        × (length (take text.new.end text.new.bytes) ≤ labels_most * place_room) }
{
    for label in 0..place_num.len() {
        put_place(text, Label(label), place_num[label], place_den[label]);
    }
}

// Lays a text over the front of a buffer, or refuses a buffer that is too short.
fn lay(text: &[u8], out: &mut [u8]) -> Listed
    ensures { listed_as result out.new ≡ laid text.now out.old }
{
    if out.len() < text.len() {
        return Err(Refusal::at(Rule::Room, 0));
    }
    out[..text.len()].copy_from_slice(text);
    Ok(text.len())
}

// The listing of a placed sheet.
fn list_sheet(lent: Lent, out: &mut [u8]) -> Listed
    ensures { listed_as result out.new ≡ listed_in (Ok tt) no_field (listable_of lent.entry) out.old }
{
    if LABELS < lent.place_num.len() {
        return Err(Refusal::at(Rule::Labels, 0));
    }
    if GAPS < lent.left.len() {
        return Err(Refusal::at(Rule::Gaps, 0));
    }
    if !lent.is_even() {
        return Err(Refusal::at(Rule::Lengths, 0));
    }
    let mut text = Text::<LISTING_ROOM>::new();
    put_places(&mut text, lent.place_num, lent.place_den);
    put_slacks(&mut text, lent);
    lay(text.as_bytes(), out)
}

// The listing of a refused sheet.
fn list_refused(refusal: Refusal, field: usize, out: &mut [u8]) -> Listed
    ensures { listed_as result out.new ≡ laid (refused_record refusal field) out.old }
{
    let mut text = Text::<REFUSED_ROOM>::new();
    text.put(b"refused");
    text.put_number(refusal.number as u64);
    text.put_number(refusal.place as u64);
    text.put_number(field as u64);
    text.put(b"\r\n");
    lay(text.as_bytes(), out)
}

// Writes the listing of an answer to the front of the buffer. A refusal's field is printed as it is handed: that of a
// refused text, or none.
// For a placed sheet 1: more than 48 labels. 2: more than 192 gaps. 3: lists that belong together differ in length.
// For any answer 4: the buffer is too short.
// The lists are lent one by one, as the C interface lends them; a field is a number, since any may be printed.
pub fn write_listing(
    answer: Answer,
    field: usize,
    place_num: &[i64],
    place_den: &[i64],
    left: &[usize],
    right: &[usize],
    distance: &[i64],
    out: &mut [u8],
) -> Listed
    ensures { let l = listable_lent place_num place_den left right distance in
        (result ≡ (listed_in answer field l out.old).answer)
        × (out.new ≡ (listed_in answer field l out.old).buffer) }
{
    let lent = Lent {
        place_num,
        place_den,
        left,
        right,
        distance,
    };
    match answer {
        Ok(()) => list_sheet(lent, out),
        Err(refusal) => list_refused(refusal, field, out),
    }
}
