#![tactic(auto)]
// Lays out a sheet whose gaps are lent as one list of records.
ghost use Rattle.std.specs.Prelude.{◌≤◌, length};
ghost use Rattle.sheet_checks.specs.Lent.{records_lent, room_lent};
ghost use Rattle.layout.specs.Promise.{Promise};
ghost use Rattle.records.specs.Records.{Apart};
ghost use Rattle.ground.specs.Limits.{gaps_most};

use ground::limits::{GAPS, GapBytes, GapIndices, GapInts, LABELS};
use ground::lists::Lists;
use ground::rules::Rule;
use ground::{Answer, GapRecord, Refusal};
use layout::lists::lay_out;

// Takes the records apart into the fronts of four lists, since the core reads lists.
fn take_apart(
    gaps: &[GapRecord],
    left: &mut GapIndices,
    right: &mut GapIndices,
    distance: &mut GapInts,
    kind: &mut GapBytes,
)
    requires { length gaps.now ≤ gaps_most }
    ensures { Apart gaps.now left.new right.new distance.new kind.new }
{
    for (k, gap) in gaps.iter().enumerate() {
        left[k] = gap.left;
        right[k] = gap.right;
        distance[k] = gap.distance;
        kind[k] = gap.kind;
    }
}

// Lays out a sheet. Anything may be lent; a sheet that breaks a rule is refused,
// and then nothing is written but a ring, its gap numbers and which of them are passed backwards.
// What is written is lent one by one, as to `layout::lists::lay_out`.
pub fn lay_out_records(
    wanted: &[i64],
    weight: &[i64],
    gaps: &[GapRecord],
    carried: &mut [u8],
    place_num: &mut [i64],
    place_den: &mut [i64],
    mult_num: &mut [i64],
    mult_den: &mut [i64],
    ring: &mut [usize],
    back: &mut [u8],
) -> Answer
    ensures { let sheet = records_lent wanted weight gaps in
        let room = room_lent carried place_num place_den mult_num mult_den ring back in
        Promise sheet room.entry result room.exit }
{
    let count = gaps.len();
    // more records than the lists hold: 1 and 2 come before every other check
    if GAPS < count {
        let crowded = LABELS < wanted.len();
        let rule = if crowded { Rule::Labels } else { Rule::Gaps };
        return Err(Refusal::at(rule, 0));
    }
    let mut left = [0; GAPS];
    let mut right = [0; GAPS];
    let mut distance = [0; GAPS];
    let mut kind = [0; GAPS];
    take_apart(gaps, &mut left, &mut right, &mut distance, &mut kind);
    let lists = Lists {
        wanted,
        weight,
        left: &left[..count],
        right: &right[..count],
        distance: &distance[..count],
        kind: &kind[..count],
    };
    lay_out(
        lists, carried, place_num, place_den, mult_num, mult_den, ring, back,
    )
}
