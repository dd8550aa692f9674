#![tactic(auto)]
// Lays out sheets with a ring, sheets on which a gap lacks less than doubles see, and sheets that the proposal settles, each from three
// carried records. Tells of each call whether the outer loop ran, and the answer; at the end, in how many it ran. Each sheet has a line
// with its name in front and a byte 0, which none has, behind. The sheets `family ..` and `hair ..` are first ones of the Rust tests.
ghost use Rattle.std.specs.Prelude.{◌≤◌, length, IfOk};
ghost use Rattle.core_forest.specs.Problem.{Limits};

use console::{INPUT_MOST, first_line, read_full, split_at_byte};
use core_forest::state::State;
use core_proposal::propose;
use ground::Answer;
use ground::limits::{GAPS, GapBytes, LABELS};
use ground::lists::Lists;
use ground::problem::Problem;
use layout::lists::lay_out;
use sheet_checks::check::{Room, check};
use std::io;
use text_reading::problem::{lists_of, read_problem};

// Whether the outer loop runs on a sheet: `core_project` makes this very call, and goes on to the outer loop where the answer
// is that some gap does not hold.
fn outer_loop_runs(problem: &Problem, carried: &GapBytes) -> bool
    requires { Limits problem.now }
{
    let mut state = State::new();
    !propose(problem, carried, &mut state)
}

// Lays a sheet out.
fn answered(lists: Lists, carried: &mut [u8]) -> Answer {
    let mut place_num = [0i64; LABELS];
    let mut place_den = [0i64; LABELS];
    let mut mult_num = [0i64; GAPS];
    let mut mult_den = [0i64; GAPS];
    let mut ring = [0usize; LABELS];
    let mut back = [0u8; LABELS];
    lay_out(
        lists,
        carried,
        &mut place_num,
        &mut place_den,
        &mut mult_num,
        &mut mult_den,
        &mut ring,
        &mut back,
    )
}

// Writes an answer.
fn print_answer(rt: &impl Print, answer: Answer) -> io::Result<()> {
    match answer {
        Ok(()) => println!(rt; "placed"),
        Err(refusal) => {
            let number = refusal.number;
            println!(rt; "refused {number}")
        }
    }
}

// Tells of one call whether the outer loop runs, and the answer. Counts 1 where it runs.
fn show_call(rt: &impl Print, problem: &Problem, mut carried: GapBytes) -> io::Result<usize>
    requires { Limits problem.now }
    ensures { IfOk result (λ counted. counted ≤ 1) }
{
    let runs = outer_loop_runs(problem, &carried);
    let answer = answered(lists_of(problem), &mut carried[..problem.gaps]);
    if runs {
        print!(rt; "outer loop, ")?;
    } else {
        print!(rt; "proposal, ")?;
    }
    print_answer(rt, answer)?;
    Ok(usize::from(runs))
}

// A carried record in which every second gap is marked.
fn every_second() -> GapBytes {
    let mut record = [0u8; GAPS];
    for (e, mark) in record.iter_mut().enumerate() {
        *mark = u8::from(e % 2 == 0);
    }
    record
}

// Lays a sheet out from carried records of zeros, of ones and with every second gap marked. Counts the calls in which the outer loop
// ran.
fn show_sheet(rt: &impl Print, problem: &Problem) -> io::Result<usize>
    requires { Limits problem.now }
    ensures { IfOk result (λ ran. ran ≤ 3) }
{
    print!(rt; "  zeros: ")?;
    let zeros = show_call(rt, problem, [0; GAPS])?;
    print!(rt; "  ones: ")?;
    let ones = show_call(rt, problem, [1; GAPS])?;
    print!(rt; "  every second: ")?;
    let others = show_call(rt, problem, every_second())?;
    Ok(zeros + ones + others)
}

// Reads a sheet's text, checks the sheet and lays it out. Every text here is a sheet that passes.
fn show_text(rt: &impl Print, text: &[u8]) -> io::Result<usize>
    ensures { IfOk result (λ ran. ran ≤ 3) }
{
    let Ok(problem) = read_problem(text) else {
        return Ok(0);
    };
    let labels = problem.labels;
    let gaps = problem.gaps;
    let room = Room {
        places: labels,
        place_dens: labels,
        multipliers: gaps,
        multiplier_dens: gaps,
        ring: labels,
        back: labels,
        carried: gaps,
    };
    match check(lists_of(&problem), room) {
        Ok(()) => show_sheet(rt, &problem),
        Err(_) => Ok(0),
    }
}

// Prints a sheet's name, and what is told of it.
fn show_entry(rt: &impl Print, entry: &[u8]) -> io::Result<usize>
    ensures { IfOk result (λ ran. ran ≤ 3) }
{
    if entry.is_empty() {
        return Ok(0);
    }
    let (name, text) = entry.split_at(first_line(entry));
    rt.write_all(name)?;
    show_text(rt, text)
}

// Takes the sheets apart. Counts the calls in which the outer loop ran. (What stands behind the last byte 0 is no
// sheet, so `split` does not do; a closure that counted would lose the count's bound.)
fn show_all(rt: &impl Print, sheets: &[u8]) -> io::Result<usize>
    requires { length sheets.now ≤ 65536 }
{
    let mut ran: usize = 0;
    let mut rest = sheets;
    while let Some((entry, others)) = split_at_byte(rest, 0) {
        ran += show_entry(rt, entry)?;
        rest = others;
    }
    Ok(ran)
}

fn main(rt: HostRuntime) -> io::Result<()> {
    let mut sheets = [0u8; INPUT_MOST];
    let got = read_full(&mut rt.stdin(), &mut sheets)?;
    let ran = show_all(&rt, &sheets[..got])?;
    println!(rt; "calls in which the outer loop ran: {ran}")
}
