// The entry that gives the slack of a gap between two single fractions, with refusals 12 and 8.
ghost use Rattle.std.specs.Prelude.{◌≡◌};
ghost use Rattle.single_fractions.specs.Slack.{slack_answer, slack_given};

use crate::SlackAnswer;
use crate::places::within_places;
use exact::Fraction;
use exact::difference::between;
use exact::divide::lowest;
use ground::Refusal;
use ground::limits::DISTANCE_MOST;
use ground::rules::Rule;

// The slack given, which is 0/1 for a refusal.
pub fn slack_given(answer: SlackAnswer) -> Fraction
    ensures { result ≡ slack_given answer }
{
    answer.unwrap_or(Fraction { num: 0, den: 1 })
}

// The slack of a gap between two places, in lowest terms; the places need not be in lowest terms. 12 for either place,
// then 8 for the distance. Any numbers may be given.
pub fn slack(left: Fraction, right: Fraction, distance: i64) -> SlackAnswer
    ensures { result ≡ slack_answer left right distance }
{
    if !within_places(left.num, left.den) || !within_places(right.num, right.den) {
        return Err(Refusal::at(Rule::Place, 0));
    }
    if distance.unsigned_abs() > DISTANCE_MOST as u64 {
        return Err(Refusal::at(Rule::Distance, 0));
    }
    let apart = between(left, right, distance);
    Ok(lowest(apart.num, apart.den))
}
