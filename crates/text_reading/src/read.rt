// Reads a text into lent lists.
ghost use Rattle.std.specs.Prelude.{◌≡◌, ◌≤◌, length, OnOk};
ghost use Rattle.text_reading.specs.Texts.{text_most, outcome, lists_lent};
ghost use Rattle.text_reading.specs.Parts.{Fitting, ScannedBy, judged_by, ReadInto};
ghost use Rattle.text_reading.specs.Works.{lists_in};

use crate::work::Work;
use crate::{Counts, Reading, TEXT_MOST, Unread};
use ground::copies::copy_front;
use ground::limits::{GAPS, LABELS};
use ground::rules::Rule;
use text_rows::Earlier;
use text_rows::lines::{Cursor, line_at};
use text_rows::rows::take_row;

// Reads the lines into work arrays: all records are counted, and those that there is room for are stored.
fn read_lines(text: &[u8], work: &mut Work) -> Reading
    requires { length text.now ≤ text_most }
    ensures { ScannedBy (outcome text.now) result (lists_in work.new) }
{
    let mut counts = Counts { labels: 0, gaps: 0 };
    let mut from = Cursor { at: 0, line: 1 };
    // each line tells where the next begins
    while from.at < text.len() {
        let line = line_at(text, from);
        let earlier = Earlier {
            labels: counts.labels,
        };
        let taken = take_row(&text[from.at..line.end], earlier);
        let row = taken.map_err(|bad| Unread::of_line(bad, from.line))?;
        counts = work.store(row, counts);
        from = line.next;
    }
    Ok(counts)
}

// 1, 2 and 4, for a text without a bad line and lists with room for so many labels and gaps.
#[tactic(auto, using(std::proofs::lemmas::Bool::Decides::nat_tests), unfolding(crate::specs::Parts::judged_by))]
fn judge(counts: Counts, room: Counts) -> Result<(), Unread>
    ensures judged { result ≡ judged_by counts room }
    ensures fits { OnOk result (Fitting counts room) }
{
    if LABELS < counts.labels {
        return Err(Unread::whole(Rule::Labels));
    }
    if GAPS < counts.gaps {
        return Err(Unread::whole(Rule::Gaps));
    }
    if room.labels < counts.labels || room.gaps < counts.gaps {
        return Err(Unread::whole(Rule::Room));
    }
    Ok(())
}

// Reads a text into lent lists. Anything may be lent; a text that is refused writes nothing.
// The lists are lent one by one, as the C interface lends them.
pub fn read_sheet(
    text: &[u8],
    wanted: &mut [i64],
    weight: &mut [i64],
    left: &mut [usize],
    right: &mut [usize],
    distance: &mut [i64],
    kind: &mut [u8],
) -> Reading
    ensures { let l = lists_lent wanted weight left right distance kind in
        ReadInto text.now l.entry result l.exit }
{
    if TEXT_MOST < text.len() {
        return Err(Unread::whole(Rule::Text));
    }
    let mut work = Work::new();
    let counts = read_lines(text, &mut work)?;
    let room = Counts {
        labels: wanted.len().min(weight.len()),
        gaps: left
            .len()
            .min(right.len())
            .min(distance.len())
            .min(kind.len()),
    };
    judge(counts, room)?;
    copy_front(counts.labels, &work.wanted, wanted);
    copy_front(counts.labels, &work.weight, weight);
    copy_front(counts.gaps, &work.left, left);
    copy_front(counts.gaps, &work.right, right);
    copy_front(counts.gaps, &work.distance, distance);
    copy_front(counts.gaps, &work.kind, kind);
    Ok(counts)
}
