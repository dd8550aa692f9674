#![tactic(auto)]
// The library for C and Rust: thin functions over the proved entries, on numbers and slices only, each a parameter of its own,
// as the C interface has them. Anything may be lent.
ghost use Rattle.std.specs.Prelude.{◌≡◌, set};
ghost use Rattle.single_fractions.specs.declared.Ties.TheVariants.{AwayFromZero, Up};
ghost use Rattle.single_fractions.specs.Round.{rounded};
ghost use Rattle.single_fractions.specs.Slack.{slack_answer};
ghost use Rattle.sheet_checks.specs.Lent.{room_lent};
ghost use Rattle.dirmoog_c.specs.Exported.{Laid, RoundTold, SlackTold, sheet_of_lists};

use exact::Fraction;
use ground::answers::{number_of, place_of, ring_of};
use ground::lists::Lists;
use layout::lists::lay_out;
use single_fractions::Ties;
use single_fractions::round::{round, whole_of};
use single_fractions::slack::{slack, slack_given};

pub mod text;

// Writes a number to an entry of a list, if the list has it. Of an entry lent by `get_mut` no clause says where it is
// written back, so the proof did not close.
pub(crate) fn put<T: Copy>(out: &mut [T], at: usize, x: T)
    ensures { out.new ≡ set out.old at x }
{
    if at < out.len() {
        out[at] = x;
    }
}

// Lays out a sheet whose gaps are lent as lists.
// Gives 0 for placed, else the refusal's number; out is told the place and the ring's length.
#[unsafe(no_mangle)]
pub extern "C" fn dirmoog_layout(
    wanted: &[i64],
    weight: &[i64],
    left: &[usize],
    right: &[usize],
    distance: &[i64],
    kind: &[u8],
    carried: &mut [u8],
    place_num: &mut [i64],
    place_den: &mut [i64],
    mult_num: &mut [i64],
    mult_den: &mut [i64],
    ring: &mut [usize],
    back: &mut [u8],
    out: &mut [usize],
) -> usize
    ensures { let sheet = sheet_of_lists wanted weight left right distance kind in
        let room = room_lent carried place_num place_den mult_num mult_den ring back in
        Laid sheet room.entry out.old result room.exit out.new }
{
    let lists = Lists {
        wanted,
        weight,
        left,
        right,
        distance,
        kind,
    };
    let answer = lay_out(
        lists, carried, place_num, place_den, mult_num, mult_den, ring, back,
    );
    put(out, 0, place_of(answer));
    put(out, 1, ring_of(answer));
    number_of(answer)
}

// Rounds a fraction to whole units by a rule for halves, and tells the whole number.
fn round_told(ties: Ties, num: i64, den: i64, out: &mut [i64]) -> usize
    ensures { RoundTold (rounded ties num den) out.old result out.new }
{
    let answer = round(ties, num, den);
    put(out, 0, whole_of(answer));
    number_of(answer)
}

// Rounds a fraction to whole units, halves away from zero. Gives 0, or 12 for a bad fraction;
// out is told the whole number, which is 0 for a refusal. No place is told: it is always 0.
#[unsafe(no_mangle)]
pub extern "C" fn dirmoog_round(num: i64, den: i64, out: &mut [i64]) -> usize
    ensures { RoundTold (rounded AwayFromZero num den) out.old result out.new }
{
    round_told(Ties::AwayFromZero, num, den, out)
}

// The same with halves to the larger number, as the listing prints them.
#[unsafe(no_mangle)]
pub extern "C" fn dirmoog_round_half_up(num: i64, den: i64, out: &mut [i64]) -> usize
    ensures { RoundTold (rounded Up num den) out.old result out.new }
{
    round_told(Ties::Up, num, den, out)
}

// The slack of a gap between two places. Gives 0, 12 for a bad fraction or 8 for a bad distance;
// out is told numerator and denominator, 0 and 1 for a refusal. No place is told: it is always 0.
#[unsafe(no_mangle)]
pub extern "C" fn dirmoog_slack(
    left_num: i64,
    left_den: i64,
    right_num: i64,
    right_den: i64,
    distance: i64,
    out: &mut [i64],
) -> usize
    ensures { let left : Fraction = record { num = left_num; den = left_den } in
        let right : Fraction = record { num = right_num; den = right_den } in
        SlackTold (slack_answer left right distance) out.old result out.new }
{
    let left = Fraction {
        num: left_num,
        den: left_den,
    };
    let right = Fraction {
        num: right_num,
        den: right_den,
    };
    let answer = slack(left, right, distance);
    let given = slack_given(answer);
    put(out, 0, given.num);
    put(out, 1, given.den);
    number_of(answer)
}
