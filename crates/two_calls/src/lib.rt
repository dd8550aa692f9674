#![tactic(auto)]
// Makes a layout call of each form, and promises demand 3 and the two laws for moved wants of what they leave.
ghost use Rattle.sheet_checks.specs.Lent.{records_lent, room_lent, sheet_lent};
ghost use Rattle.layout.specs.TwoCalls.{BothPromised};

use ground::lists::Lists;
use ground::{Answer, GapRecord};
use layout::lists::lay_out;
use records::lay_out_records;

// The answers of the two calls.
#[derive(Clone, Copy, Debug, PartialEq, Eq)]
pub struct Both {
    pub first: Answer,
    pub second: Answer,
}

// Lays out two sheets: the first lends its gaps as lists, the second as records. Anything may be lent.
// What is written is lent one by one, as to `layout::lists::lay_out`.
pub fn lay_out_both(
    lists: Lists,
    carried: &mut [u8],
    place_num: &mut [i64],
    place_den: &mut [i64],
    mult_num: &mut [i64],
    mult_den: &mut [i64],
    ring: &mut [usize],
    back: &mut [u8],
    second_wanted: &[i64],
    second_weight: &[i64],
    gaps: &[GapRecord],
    second_carried: &mut [u8],
    second_place_num: &mut [i64],
    second_place_den: &mut [i64],
    second_mult_num: &mut [i64],
    second_mult_den: &mut [i64],
    second_ring: &mut [usize],
    second_back: &mut [u8],
) -> Both
    ensures { let sheet = sheet_lent lists in
        let room = room_lent carried place_num place_den mult_num mult_den ring back in
        let secondSheet = records_lent second_wanted second_weight gaps in
        let secondRoom = room_lent second_carried second_place_num second_place_den second_mult_num second_mult_den second_ring second_back in
        BothPromised sheet room.entry result.first room.exit secondSheet secondRoom.entry result.second
        secondRoom.exit }
{
    let first = lay_out(
        lists, carried, place_num, place_den, mult_num, mult_den, ring, back,
    );
    let second = lay_out_records(
        second_wanted,
        second_weight,
        gaps,
        second_carried,
        second_place_num,
        second_place_den,
        second_mult_num,
        second_mult_den,
        second_ring,
        second_back,
    );
    Both { first, second }
}
