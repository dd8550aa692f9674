#![tactic(auto)]
// One run of a station: a sheet's text in, its listing out.
ghost use Rattle.std.specs.Prelude.{◌≤◌, length};
ghost use Rattle.text_listing.specs.Listing.{Within, listable_lent, listable_now, listing, listing_room};
ghost use Rattle.sheet_run.specs.Steps.{Holds, Answered, Printed, PrintedRead};
ghost use Rattle.sheet_run.specs.Run.{Run};

use ground::Answer;
use ground::limits::{GAPS, LABELS};
use ground::problem::Problem;
use layout::lists::lay_out;
use text_listing::LISTING_ROOM;
use text_listing::listing::write_listing;
use text_reading::problem::{lists_of, read_problem};
use text_rows::NO_FIELD;

// Lays out the sheet that was read. It starts from a carried record of zeros; no other would print another byte.
fn lay_out_read(p: &Problem, place_num: &mut [i64], place_den: &mut [i64]) -> Answer
    requires { Holds p.now }
    ensures { Answered p.now place_num.old place_den.old result place_num.new place_den.new }
{
    let mut carried = [0u8; GAPS];
    let mut mult_num = [0i64; GAPS];
    let mut mult_den = [0i64; GAPS];
    let mut ring = [0usize; LABELS];
    let mut back = [0u8; LABELS];
    lay_out(
        lists_of(p),
        &mut carried[..p.gaps],
        place_num,
        place_den,
        &mut mult_num,
        &mut mult_den,
        &mut ring,
        &mut back,
    )
}

// Prints an answer, a refused one with its field, a placed one with the places of its labels and the slacks of its gaps,
// and tells how many bytes. The lists go one by one, as `write_listing` takes them.
fn print(
    answer: Answer,
    field: usize,
    place_num: &[i64],
    place_den: &[i64],
    left: &[usize],
    right: &[usize],
    distance: &[i64],
    out: &mut [u8; LISTING_ROOM],
) -> usize
    requires { let l = listable_now place_num place_den left right distance in
        Within l × (length (listing answer field l) ≤ listing_room) }
    ensures { let l = listable_lent place_num place_den left right distance in
        Printed (listing answer field l) out.old result out.new }
{
    let listed = write_listing(
        answer, field, place_num, place_den, left, right, distance, out,
    );
    listed.unwrap_or(0)
}

// Prints the sheet that was read.
fn print_read(p: &Problem, out: &mut [u8; LISTING_ROOM]) -> usize
    requires { Holds p.now }
    ensures { PrintedRead p.now out.old result out.new }
{
    let mut place_num = [0i64; LABELS];
    let mut place_den = [0i64; LABELS];
    let answer = lay_out_read(p, &mut place_num, &mut place_den);
    let lists = lists_of(p);
    print(
        answer,
        NO_FIELD,
        &place_num[..p.labels],
        &place_den[..p.labels],
        lists.left,
        lists.right,
        lists.distance,
        out,
    )
}

// Prints what a station prints for a text to the front of the buffer, and tells how many bytes. Any text may be lent.
pub fn run_sheet(text: &[u8], out: &mut [u8; LISTING_ROOM]) -> usize
    ensures { Run text.now out.old result out.new }
{
    match read_problem(text) {
        Ok(problem) => print_read(&problem, out),
        Err(unread) => {
            let answer = Err(unread.refusal);
            let field = unread.field;
            print(answer, field, &[], &[], &[], &[], &[], out)
        }
    }
}
