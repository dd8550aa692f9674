// Writes what a layout call answered and left. Each line ends with whether another call has the same there.
ghost use Rattle.std.specs.Prelude.{◌≤◌};
ghost use Rattle.ground.specs.Limits.{labels_most, gaps_most};

use ground::Answer;
use ground::answers::{number_of, place_of, ring_of};
use ground::limits::{GAPS, LABELS};
use layout::part::{back_part, ring_part};
use rooms::{Laid, Room};
use std::io;

// Ends a line with whether it is the same of both calls.
fn print_verdict(rt: &impl Print, same: bool) -> io::Result<()> {
    if same {
        println!(rt; "; the same")
    } else {
        println!(rt; "; OTHER")
    }
}

// Writes a fraction: a space, the numerator, and the denominator where it is not 1. (Private here and in bench_sheets: no contract can
// say what is printed, and a public function that promises nothing is not lent.)
fn print_fraction(rt: &impl Print, num: i64, den: i64) -> io::Result<()> {
    print!(rt; " {num}")?;
    if den != 1 {
        let below = den.unsigned_abs();
        print!(rt; "/{below}")?;
    }
    Ok(())
}

// Writes so many fractions.
fn print_fractions(rt: &impl Print, count: usize, num: &[i64], den: &[i64]) -> io::Result<()> {
    for (num, den) in num.iter().zip(den).take(count) {
        print_fraction(rt, *num, *den)?;
    }
    Ok(())
}

// Writes so many steps of a ring, as its two buffers have them: the gaps' numbers, and the word back in front of one that is passed
// backwards.
fn print_steps(rt: &impl Print, count: usize, ring: &[usize], back: &[u8]) -> io::Result<()> {
    for (gap, back) in ring.iter().zip(back).take(count) {
        if *back != 0 {
            print!(rt; " back")?;
        }
        print!(rt; " {gap}")?;
    }
    Ok(())
}

// Writes so many fractions under a word, beside those of another call: numerators and denominators, as C lends them.
fn print_beside(
    rt: &impl Print,
    word: &str,
    num: &[i64],
    den: &[i64],
    other_num: &[i64],
    other_den: &[i64],
) -> io::Result<()> {
    print!(rt; "  {word}")?;
    print_fractions(rt, num.len(), num, den)?;
    print_verdict(rt, num == other_num && den == other_den)
}

// Writes the steps of a ring, beside those of another: gap numbers, and which of them are passed backwards.
pub(crate) fn print_ring(
    rt: &impl Print,
    part: &[usize],
    back: &[u8],
    other: &[usize],
    other_back: &[u8],
) -> io::Result<()> {
    print!(rt; "  ring")?;
    print_steps(rt, part.len(), part, back)?;
    print_verdict(rt, part == other && back == other_back)
}

// Writes an answer, placed or refused with number and place, beside another.
fn print_answer(rt: &impl Print, answer: Answer, other: Answer) -> io::Result<()> {
    match answer {
        Ok(()) => print!(rt; "  placed")?,
        Err(refusal) => {
            let number = refusal.number;
            let place = refusal.place;
            print!(rt; "  refused {number} at {place}")?;
        }
    }
    let same = number_of(answer) == number_of(other) && place_of(answer) == place_of(other);
    print_verdict(rt, same)
}

// Writes the places, multipliers and marks of two placed sheets of so many labels and gaps.
fn print_placed(
    rt: &impl Print,
    labels: usize,
    gaps: usize,
    room: &Room,
    other: &Room,
) -> io::Result<()>
    requires { (labels ≤ labels_most) × (gaps ≤ gaps_most) }
{
    print_beside(
        rt,
        "places",
        &room.place_num[..labels],
        &room.place_den[..labels],
        &other.place_num[..labels],
        &other.place_den[..labels],
    )?;
    print_beside(
        rt,
        "multipliers",
        &room.mult_num[..gaps],
        &room.mult_den[..gaps],
        &other.mult_num[..gaps],
        &other.mult_den[..gaps],
    )?;
    print!(rt; "  marks")?;
    print_verdict(rt, room.carried[..gaps] == other.carried[..gaps])
}

// Writes what a call answered and left of a sheet with so many labels and gaps, beside another call of it.
pub(crate) fn print_laid(
    rt: &impl Print,
    labels: usize,
    gaps: usize,
    laid: &Laid,
    other: &Laid,
) -> io::Result<()> {
    print_answer(rt, laid.answer, other.answer)?;
    let size = ring_of(laid.answer);
    let size2 = ring_of(other.answer);
    if size != 0 {
        return print_ring(
            rt,
            ring_part(&laid.room.ring, size),
            back_part(&laid.room.back, size),
            ring_part(&other.room.ring, size2),
            back_part(&other.room.back, size2),
        );
    }
    if number_of(laid.answer) != 0 || LABELS < labels || GAPS < gaps {
        return Ok(());
    }
    print_placed(rt, labels, gaps, &laid.room, &other.room)
}
