#![tactic(auto)]
// The calls that are lent records, for a caller that has the records in an array.
// Each of these lends the front of its array and does nothing else. What is written is lent one by one, as to `layout::lists::lay_out`.
ghost use Rattle.sheet_checks.specs.Lent.{room_lent, sheet_lent};
ghost use Rattle.layout.specs.Promise.{Promise};
ghost use Rattle.layout.specs.TwoCalls.{BothPromised};
ghost use Rattle.record_arrays.specs.Arrays.{array_lent};

use ground::lists::Lists;
use ground::{Answer, GapRecord};
use records::lay_out_records;
use two_calls::{Both, lay_out_both};

// Records of an array that a byte counts.
pub const RECORDS: usize = 256;

// Lays out a sheet whose gaps are the first `count` records of an array.
pub fn lay_out_array(
    wanted: &[i64],
    weight: &[i64],
    gaps: [GapRecord; RECORDS],
    count: u8,
    carried: &mut [u8],
    place_num: &mut [i64],
    place_den: &mut [i64],
    mult_num: &mut [i64],
    mult_den: &mut [i64],
    ring: &mut [usize],
    back: &mut [u8],
) -> Answer
    ensures { let room = room_lent carried place_num place_den mult_num mult_den ring back in
        Promise (array_lent wanted.now weight.now gaps count) room.entry result room.exit }
{
    lay_out_records(
        wanted,
        weight,
        &gaps[..usize::from(count)],
        carried,
        place_num,
        place_den,
        mult_num,
        mult_den,
        ring,
        back,
    )
}

// Lays out two sheets: the gaps of the first are lists, those of the second the first `count` records of an array.
pub fn lay_out_both_array(
    lists: Lists,
    carried: &mut [u8],
    place_num: &mut [i64],
    place_den: &mut [i64],
    mult_num: &mut [i64],
    mult_den: &mut [i64],
    ring: &mut [usize],
    back: &mut [u8],
    second_wanted: &[i64],
    second_weight: &[i64],
    gaps: [GapRecord; RECORDS],
    count: u8,
    second_carried: &mut [u8],
    second_place_num: &mut [i64],
    second_place_den: &mut [i64],
    second_mult_num: &mut [i64],
    second_mult_den: &mut [i64],
    second_ring: &mut [usize],
    second_back: &mut [u8],
) -> Both
    ensures { let sheet = sheet_lent lists in
        let room = room_lent carried place_num place_den mult_num mult_den ring back in
        let secondSheet = array_lent second_wanted.now second_weight.now gaps count in
        let secondRoom = room_lent second_carried second_place_num second_place_den second_mult_num second_mult_den second_ring second_back in
        BothPromised sheet room.entry result.first room.exit secondSheet secondRoom.entry result.second
        secondRoom.exit }
{
    lay_out_both(
        lists,
        carried,
        place_num,
        place_den,
        mult_num,
        mult_den,
        ring,
        back,
        second_wanted,
        second_weight,
        &gaps[..usize::from(count)],
        second_carried,
        second_place_num,
        second_place_den,
        second_mult_num,
        second_mult_den,
        second_ring,
        second_back,
    )
}
