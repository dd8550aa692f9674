#![tactic(auto)]
// Lays out the bench sheets of document 01 that have no P, and sheets with exact gaps, each from three carried records,
// and prints places, multipliers, marks and rings. Each sheet has a line with its name in front and a byte 0, which no
// sheet has, behind.
use console::{INPUT_MOST, first_line, read_full, split_at_byte};
use ground::Refusal;
use ground::limits::{GAPS, GapBytes, LABELS};
use ground::lists::Lists;
use layout::lists::lay_out;
use std::io;
use text_reading::problem::{lists_of, read_problem};

// Writes a fraction: a space, the numerator, and the denominator where it is not 1. (Private here and in both_forms: no contract can
// say what is printed, and a public function that promises nothing is not lent.)
fn print_fraction(rt: &impl Print, num: i64, den: i64) -> io::Result<()> {
    print!(rt; " {num}")?;
    if den != 1 {
        let below = den.unsigned_abs();
        print!(rt; "/{below}")?;
    }
    Ok(())
}

// Writes so many fractions.
fn print_fractions(rt: &impl Print, count: usize, num: &[i64], den: &[i64]) -> io::Result<()> {
    for (num, den) in num.iter().zip(den).take(count) {
        print_fraction(rt, *num, *den)?;
    }
    Ok(())
}

// Writes so many steps of a ring, as its two buffers have them: the gaps' numbers, and the word back in front of one that is passed
// backwards.
fn print_steps(rt: &impl Print, count: usize, ring: &[usize], back: &[u8]) -> io::Result<()> {
    for (gap, back) in ring.iter().zip(back).take(count) {
        if *back != 0 {
            print!(rt; " back")?;
        }
        print!(rt; " {gap}")?;
    }
    Ok(())
}

// Writes the numbers of the marked gaps in a line.
fn print_marks(rt: &impl Print, carried: &[u8]) -> io::Result<()> {
    for (gap, mark) in carried.iter().enumerate() {
        if *mark == 1 {
            print!(rt; " {gap}")?;
        }
    }
    println!(rt)
}

// Writes the places of so many labels, the multipliers of all gaps, and the marks, one by one as they were lent.
fn print_placed(
    rt: &impl Print,
    labels: usize,
    place_num: &[i64],
    place_den: &[i64],
    mult_num: &[i64],
    mult_den: &[i64],
    carried: &[u8],
) -> io::Result<()> {
    print!(rt; "  places")?;
    print_fractions(rt, labels, place_num, place_den)?;
    println!(rt)?;
    print!(rt; "  multipliers")?;
    print_fractions(rt, carried.len(), mult_num, mult_den)?;
    println!(rt)?;
    print!(rt; "  marks")?;
    print_marks(rt, carried)
}

// Writes a refusal with its ring.
fn print_refusal(rt: &impl Print, refusal: Refusal, ring: &[usize], back: &[u8]) -> io::Result<()> {
    let number = refusal.number;
    let place = refusal.place;
    print!(rt; "  refused {number} at {place}, ring")?;
    print_steps(rt, refusal.ring, ring, back)?;
    println!(rt)
}

// Lays a sheet out from a carried record, and prints what is answered and left.
fn show(rt: &impl Print, carried: &mut [u8], lists: Lists) -> io::Result<()> {
    let mut place_num = [0i64; LABELS];
    let mut place_den = [0i64; LABELS];
    let mut mult_num = [0i64; GAPS];
    let mut mult_den = [0i64; GAPS];
    let mut ring = [0usize; LABELS];
    let mut back = [0u8; LABELS];
    let answer = lay_out(
        lists,
        carried,
        &mut place_num,
        &mut place_den,
        &mut mult_num,
        &mut mult_den,
        &mut ring,
        &mut back,
    );
    match answer {
        Ok(()) => print_placed(
            rt,
            lists.wanted.len(),
            &place_num,
            &place_den,
            &mult_num,
            &mult_den,
            carried,
        ),
        Err(refusal) => print_refusal(rt, refusal, &ring, &back),
    }
}

// A carried record of bytes that follow no rule of the marks.
fn other_bytes() -> GapBytes {
    let mut record = [0u8; GAPS];
    for (e, byte) in record.iter_mut().enumerate() {
        *byte = ((e % 5 * 7 + 3) % 5) as u8;
    }
    record
}

// Lays a sheet out from records of zeros, of ones and of other bytes.
fn show_thrice(rt: &impl Print, lists: Lists) -> io::Result<()> {
    let n = lists.left.len();
    if GAPS < n {
        return Ok(());
    }
    for mut record in [[0u8; GAPS], [1u8; GAPS], other_bytes()] {
        show(rt, &mut record[..n], lists)?;
    }
    Ok(())
}

// Reads a sheet's text and lays it out. Every text of the bench is a sheet.
fn show_text(rt: &impl Print, text: &[u8]) -> io::Result<()> {
    match read_problem(text) {
        Ok(problem) => show_thrice(rt, lists_of(&problem)),
        Err(_) => Ok(()),
    }
}

// Prints a sheet's name, and what is answered to it.
fn show_entry(rt: &impl Print, entry: &[u8]) -> io::Result<()> {
    let (name, text) = entry.split_at(first_line(entry));
    rt.write_all(name)?;
    show_text(rt, text)
}

// Takes the sheets apart. (What stands behind the last byte 0 is none, so `split` does not do. These lines stand in
// three programs: with a closure for what is shown they would be no fewer.)
fn show_all(rt: &impl Print, sheets: &[u8]) -> io::Result<()> {
    let mut rest = sheets;
    while let Some((entry, others)) = split_at_byte(rest, 0) {
        show_entry(rt, entry)?;
        rest = others;
    }
    Ok(())
}

// Sheets that no text can tell: their lists differ in length.
fn show_unequal(rt: &impl Print) -> io::Result<()> {
    println!(rt; "lists that differ in length are 3")?;
    show_thrice(
        rt,
        Lists {
            wanted: &[0, 0],
            weight: &[1],
            left: &[],
            right: &[],
            distance: &[],
            kind: &[],
        },
    )?;
    println!(rt; "fewer kinds than gaps are 3")?;
    show_thrice(
        rt,
        Lists {
            wanted: &[0, 0],
            weight: &[1, 1],
            left: &[0],
            right: &[1],
            distance: &[6],
            kind: &[],
        },
    )
}

// A sheet that no text can tell: the second gap, of this distance, has a kind that is neither.
fn show_neither(rt: &impl Print, distance: i64) -> io::Result<()> {
    show_thrice(
        rt,
        Lists {
            wanted: &[0, 0],
            weight: &[1, 1],
            left: &[0, 0],
            right: &[1, 1],
            distance: &[6, distance],
            kind: &[0, 2],
        },
    )
}

fn main(rt: HostRuntime) -> io::Result<()> {
    let mut sheets = [0u8; INPUT_MOST];
    let got = read_full(&mut rt.stdin(), &mut sheets)?;
    show_all(&rt, &sheets[..got])?;
    show_unequal(&rt)?;
    println!(rt; "a kind that is neither is 23")?;
    show_neither(&rt, 6)?;
    println!(rt; "a gap of 20,001 of a kind that is neither is 8")?;
    show_neither(&rt, 20001)
}
