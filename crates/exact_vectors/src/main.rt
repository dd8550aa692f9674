#![tactic(auto)]
// Vectors of the crates exact and single_fractions, one to a line: both signs, zero, the six cases of rounding under their
// names, each by both rules for halves, what is next to a half, and each limit with its neighbour.
// The file stdout has what each line should be, worked out apart from this program.
ghost use Rattle.std.specs.Prelude.{◌≡◌, true};
ghost use Rattle.exact.specs.Divide.{InRange};

mod vectors;

use exact::Fraction;
use exact::compare::compare;
use exact::divide::{gcd, lowest};
use ground::answers::{number_of, place_of};
use ground::limits::{FRACTION_DEN_MOST, FRACTION_NUM_MOST};
use single_fractions::round::{round, whole_of};
use single_fractions::slack::{slack, slack_given};
use single_fractions::{Rounded, Ties};
use std::cmp::Ordering;
use std::io;

// Whether the comparison takes a fraction.
fn within(num: i64, den: i64) -> bool
    ensures { result ≡ true → InRange (record { num = num; den = den }) }
{
    (1..=FRACTION_DEN_MOST).contains(&den) && num.unsigned_abs() <= FRACTION_NUM_MOST
}

fn show_gcd(rt: &impl Print, a: u64, b: u64) -> io::Result<()> {
    let divisor = gcd(a, b);
    println!(rt; "gcd {a} {b} = {divisor}")
}

fn show_lowest(rt: &impl Print, num: i64, den: i64) -> io::Result<()> {
    if den < 1 {
        return println!(rt; "lowest {num}/{den} not taken");
    }
    let q = lowest(num, den);
    println!(rt; "lowest {num}/{den} = {}/{}", q.num, q.den)
}

// What is printed of an order.
fn word_of(order: Ordering) -> &'static str {
    match order {
        Ordering::Less => "below",
        Ordering::Equal => "same",
        Ordering::Greater => "above",
    }
}

fn show_compare(rt: &impl Print, (a, b): (i64, i64), (c, d): (i64, i64)) -> io::Result<()> {
    let word = if within(a, b) && within(c, d) {
        word_of(compare(Fraction { num: a, den: b }, Fraction { num: c, den: d }))
    } else {
        "not taken"
    };
    println!(rt; "compare {a}/{b} {c}/{d} {word}")
}

fn print_rounded(rt: &impl Print, answer: Rounded) -> io::Result<()> {
    let whole = whole_of(answer);
    let number = number_of(answer);
    let place = place_of(answer);
    println!(rt; " = {whole} number {number} place {place}")
}

// Rounds a fraction by both rules for halves.
fn show_round(rt: &impl Print, num: i64, den: i64) -> io::Result<()> {
    print!(rt; "round {num}/{den}")?;
    print_rounded(rt, round(Ties::AwayFromZero, num, den))?;
    print!(rt; "half up {num}/{den}")?;
    print_rounded(rt, round(Ties::Up, num, den))
}

fn show_rounds(rt: &impl Print, heading: &str, fractions: &[(i64, i64)]) -> io::Result<()> {
    println!(rt; "{heading}")?;
    for &(num, den) in fractions {
        show_round(rt, num, den)?;
    }
    Ok(())
}

fn show_slack(
    rt: &impl Print,
    (a, b): (i64, i64),
    (c, d): (i64, i64),
    distance: i64,
) -> io::Result<()> {
    let answer = slack(
        Fraction { num: a, den: b },
        Fraction { num: c, den: d },
        distance,
    );
    let q = slack_given(answer);
    let number = number_of(answer);
    let place = place_of(answer);
    println!(rt;
        "slack {a}/{b} {c}/{d} {distance} = {}/{} number {number} place {place}",
        q.num, q.den
    )
}

fn main(rt: HostRuntime) -> io::Result<()> {
    for &(a, b) in &vectors::DIVISORS {
        show_gcd(&rt, a, b)?;
    }
    for &(num, den) in &vectors::LOWEST {
        show_lowest(&rt, num, den)?;
    }
    for &(a, b) in &vectors::COMPARED {
        show_compare(&rt, a, b)?;
    }
    show_rounds(&rt, "zero or above, under half", &vectors::ABOVE_UNDER_HALF)?;
    show_rounds(&rt, "zero or above, at half", &vectors::ABOVE_AT_HALF)?;
    show_rounds(&rt, "zero or above, over half", &vectors::ABOVE_OVER_HALF)?;
    show_rounds(&rt, "below zero, under half", &vectors::BELOW_UNDER_HALF)?;
    show_rounds(&rt, "below zero, at half", &vectors::BELOW_AT_HALF)?;
    show_rounds(&rt, "below zero, over half", &vectors::BELOW_OVER_HALF)?;
    show_rounds(
        &rt,
        "at the limits of 12 and past them",
        &vectors::AT_LIMITS,
    )?;
    for &(left, right, distance) in &vectors::SLACKS {
        show_slack(&rt, left, right, distance)?;
    }
    Ok(())
}
