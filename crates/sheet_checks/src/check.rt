// The checks of the refusal table, 1 to 8 and 23, each over the whole sheet before the next.
ghost use Rattle.std.specs.Prelude.{◌≡◌, position, zip};
ghost use Rattle.ground.specs.Rules.{number_of_rule};
ghost use Rattle.sheet_checks.specs.Lent.{sheet_lent};
ghost use Rattle.sheet_checks.specs.Refusals.{neither, outside, table_for, test, unknown};
ghost use Rattle.sheet_checks.specs.Refusals.{ragged as raggedSheet, short as shortRoom};
ghost use Rattle.sheet_checks.specs.Checks.{Even, contents_of, told};

use ground::limits::{
    AT_LEAST, DISTANCE_MOST, EXACTLY, GAPS, LABELS, WANTED_MOST, WEIGHT_LEAST, WEIGHT_MOST,
};
use ground::lists::Lists;
use ground::rules::Rule;
use ground::{Answer, Refusal};

// The sizes of what is lent besides the lists that are read.
#[derive(Clone, Copy, Debug, PartialEq, Eq)]
pub struct Room {
    pub places: usize,
    pub place_dens: usize,
    pub multipliers: usize,
    pub multiplier_dens: usize,
    pub ring: usize,
    pub back: usize,
    pub carried: usize,
}

// A check of the sheet's sizes: its place is 0.
fn refuse_if(bad: bool, rule: Rule) -> Answer
    ensures { result ≡ test (number_of_rule rule) bad }
{
    if bad {
        Err(Refusal::at(rule, 0))
    } else {
        Ok(())
    }
}

// A check of each label or gap: its place is the first offender, if one was found.
fn refuse_at(offender: Option<usize>, rule: Rule) -> Answer
    ensures { result ≡ told (number_of_rule rule) offender }
{
    match offender {
        Some(place) => Err(Refusal::at(rule, place)),
        None => Ok(()),
    }
}

// The first number of the list outside the range from least to most. A `for` and no `position`: so where it begins stands in the
// text, and an edit can move it.
fn first_outside(list: &[i64], least: i64, most: i64) -> Option<usize>
    ensures { result ≡ position (outside least most) list.now }
{
    for place in 0..list.len() {
        if list[place] < least || most < list[place] {
            return Some(place);
        }
    }
    None
}

// The first gap of which an end is no label of the sheet.
fn first_stranger(labels: usize, left: &[usize], right: &[usize]) -> Option<usize>
    ensures { result ≡ position (unknown labels) (zip left.now right.now) }
{
    left.iter()
        .zip(right)
        .position(|(left, right)| labels <= *left || labels <= *right)
}

// The first gap whose kind is neither. Kinds are lent as bytes; an enum of them would be no plainer than two comparisons.
fn first_bad_kind(kind: &[u8]) -> Option<usize>
    ensures { result ≡ position neither kind.now }
{
    kind.iter()
        .position(|kind| *kind != AT_LEAST && *kind != EXACTLY)
}

// 3: lists that belong together differ in length.
fn ragged(lists: Lists, carried: usize) -> bool
    ensures { result ≡ raggedSheet (sheet_lent lists) carried }
{
    let gaps = lists.left.len();
    lists.weight.len() != lists.wanted.len()
        || lists.right.len() != gaps
        || lists.distance.len() != gaps
        || lists.kind.len() != gaps
        || carried != gaps
}

// 4: a buffer that is too short.
fn short(labels: usize, gaps: usize, room: Room) -> bool
    ensures { result ≡ shortRoom labels gaps room }
{
    room.places < labels
        || room.place_dens < labels
        || room.ring < labels
        || room.back < labels
        || room.multipliers < gaps
        || room.multiplier_dens < gaps
}

// Checks 5 to 8, and 23.
#[tactic(auto, using(crate::proofs::CheckLaws::rows_told))]
fn contents(lists: Lists) -> Answer
    requires { Even lists }
    ensures { result ≡ contents_of (sheet_lent lists) }
{
    let plate = first_outside(lists.wanted, -WANTED_MOST, WANTED_MOST);
    refuse_at(plate, Rule::Wanted)?;
    let weights = first_outside(lists.weight, WEIGHT_LEAST, WEIGHT_MOST);
    refuse_at(weights, Rule::Weight)?;
    let strangers = first_stranger(lists.wanted.len(), lists.left, lists.right);
    refuse_at(strangers, Rule::Ends)?;
    let distances = first_outside(lists.distance, -DISTANCE_MOST, DISTANCE_MOST);
    refuse_at(distances, Rule::Distance)?;
    refuse_at(first_bad_kind(lists.kind), Rule::Kind)
}

// All checks of a sheet whose gaps are lent as lists: 1 and 2 for too many labels or gaps, then 3 and 4, then its contents.
#[tactic(auto, using(crate::proofs::CheckLaws::even_of_pass), unfolding(crate::specs::Refusals::table_of))]
pub fn check(lists: Lists, room: Room) -> Answer
    ensures { result ≡ table_for (sheet_lent lists) room }
{
    let labels = lists.wanted.len();
    let gaps = lists.left.len();
    refuse_if(LABELS < labels, Rule::Labels)?;
    refuse_if(GAPS < gaps, Rule::Gaps)?;
    refuse_if(ragged(lists, room.carried), Rule::Lengths)?;
    refuse_if(short(labels, gaps, room), Rule::Room)?;
    contents(lists)
}
