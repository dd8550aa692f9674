// The records of the gaps: how far each is from closing.
ghost use Rattle.std.specs.Prelude.{◌≡◌, take, ◌+◌, ◌*◌, ◌<◌, ◌≤◌, length};
ghost use Rattle.text_listing.specs.Appended.{Appended};
ghost use Rattle.text_listing.specs.Listing.{Within, gaps_in, listable_of, listing_room, printed_slack, slack_record, slack_records, slack_room};
ghost use Rattle.ground.specs.Limits.{gaps_most};

use crate::LISTING_ROOM;
use crate::lent::Lent;
use crate::text::Text;
use exact::Fraction;
use ground::GapNumber;
use single_fractions::slack::{slack, slack_given};

// The slack that is printed for a gap: 0/1 where an end is no label, and for one that the entry refuses.
fn printed_slack(e: GapNumber, lent: Lent) -> Fraction
    requires { Within (listable_of lent) × (e.0 < gaps_in (listable_of lent)) }
    ensures { result ≡ printed_slack (listable_of lent.entry) e.0 }
{
    let u = lent.left[e.0];
    let v = lent.right[e.0];
    if lent.place_num.len() <= u || lent.place_num.len() <= v {
        return Fraction { num: 0, den: 1 };
    }
    let from = Fraction {
        num: lent.place_num[u],
        den: lent.place_den[u],
    };
    let to = Fraction {
        num: lent.place_num[v],
        den: lent.place_den[v],
    };
    slack_given(slack(from, to, lent.distance[e.0]))
}

// Puts the record of a gap.
fn put_slack(text: &mut Text<LISTING_ROOM>, e: GapNumber, slack: Fraction)
    requires { (e.0 < gaps_most)
        × (length (take text.old.end text.old.bytes) + slack_room ≤ listing_room) }
    ensures { Appended (take text.old.end text.old.bytes) (slack_record e.0 slack) (take text.new.end text.new.bytes) }
{
    text.put(b"slack");
    text.put_number(e.0 as u64);
    text.put_signed(slack.num);
    text.put_signed(slack.den);
    text.put(b"\r\n");
}

// Puts the records of all gaps behind what stands there.
pub(crate) fn put_slacks(text: &mut Text<LISTING_ROOM>, lent: Lent)
    requires { Within (listable_of lent)
        × (length (take text.old.end text.old.bytes) + gaps_most * slack_room ≤ listing_room) }
    ensures { let l = listable_of lent.entry in
        Appended (take text.old.end text.old.bytes) (slack_records (gaps_in l) l) (take text.new.end text.new.bytes) }
{
    for e in 0..lent.left.len() {
        put_slack(text, GapNumber(e), printed_slack(GapNumber(e), lent));
    }
}
