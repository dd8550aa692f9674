// A line taken apart by its first field, label, gap or same: as a label, or as a gap of either kind.
ghost use Rattle.std.specs.Prelude.{◌≡◌, ◌∷◌, []};
ghost use Rattle.text_rows.specs.Taking.{label_row, gap_row, row_of, taken};

use crate::{BadLine, Earlier, LabelRow, NO_FIELD, Row, Taken, field};
use ground::GapRecord;
use ground::limits::{AT_LEAST, EXACTLY};
use ground::rules::Rule;

// The fields of a label's record and of a gap's, counted from 1.
const WORD: usize = 1;

const NUMBER: usize = 2;

const WANTED: usize = 3;

const WEIGHT: usize = 4;

const LEFT: usize = 2;

const RIGHT: usize = 3;

const DISTANCE: usize = 4;

// A label's record: every number by its rule, then the label's number in its turn, the count of labels before it.
fn label_row(number: &[u8], wanted: &[u8], weight: &[u8], earlier: Earlier) -> Taken
    ensures { result ≡ label_row earlier number.now wanted.now weight.now }
{
    let number = field::number(number).ok_or(BadLine::at(Rule::Number, NUMBER))?;
    let wanted = field::signed(wanted).ok_or(BadLine::at(Rule::Number, WANTED))?;
    let weight = field::weight(weight).ok_or(BadLine::at(Rule::Number, WEIGHT))?;
    if number != earlier.labels {
        return Err(BadLine::at(Rule::Turn, NUMBER));
    }
    Ok(Row::Label(LabelRow { wanted, weight }))
}

// The record of a gap of this kind, a byte as the C interface has it.
fn gap_row(kind: u8, left: &[u8], right: &[u8], distance: &[u8]) -> Taken
    ensures { result ≡ gap_row kind left.now right.now distance.now }
{
    let left = field::number(left).ok_or(BadLine::at(Rule::Number, LEFT))?;
    let right = field::number(right).ok_or(BadLine::at(Rule::Number, RIGHT))?;
    let distance = field::signed(distance).ok_or(BadLine::at(Rule::Number, DISTANCE))?;
    Ok(Row::Gap(GapRecord {
        left,
        right,
        distance,
        kind,
    }))
}

// A record of four fields, by the word in the first.
fn row_of(word: &[u8], second: &[u8], third: &[u8], fourth: &[u8], earlier: Earlier) -> Taken
    ensures { let fields = word.now ∷ second.now ∷ third.now ∷ fourth.now ∷ [] in
        result ≡ row_of earlier fields }
{
    match word {
        b"label" => label_row(second, third, fourth, earlier),
        b"gap" => gap_row(AT_LEAST, second, third, fourth),
        b"same" => gap_row(EXACTLY, second, third, fourth),
        _ => Err(BadLine::at(Rule::Word, WORD)),
    }
}

// A line after those before it. It is split at its commas; it must have three.
pub fn take_row(line: &[u8], earlier: Earlier) -> Taken
    ensures { result ≡ taken earlier line.now }
{
    let mut fields = line.split(|byte| *byte == b',');
    let (Some(word), Some(second), Some(third), Some(fourth), None) = (
        fields.next(),
        fields.next(),
        fields.next(),
        fields.next(),
        fields.next(),
    ) else {
        return Err(BadLine::at(Rule::Fields, NO_FIELD));
    };
    row_of(word, second, third, fourth, earlier)
}
