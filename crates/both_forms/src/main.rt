#![tactic(auto)]
// Runs the two layout calls, `ring_part` and `back_part`: the compiler behind their proofs is trusted.
// Each bench sheet of document 01, those with P too, and sheets with exact gaps are laid out in both forms by
// `lay_out_both`, and what the two calls answer and leave is compared and printed. A ring is printed through the
// parts that `ring_part` and `back_part` hand back: the gap numbers, each with the word back in front where the
// gap is passed backwards. `lay_out_records` itself lays it out once more, from marks at every gap and into
// buffers of sevens: its places have to be the same; its multipliers, marks and ring may be others. Crate `rooms`
// lends the records.
// A sheet has a line with its name and a line with its carried record in front, and a byte 0 behind.
mod compare;

use compare::{print_laid, print_ring};
use console::{INPUT_MOST, read_full, split_at_byte};
use ground::GapRecord;
use ground::limits::{AT_LEAST, GAPS};
use ground::lists::Lists;
use layout::part::{back_part, ring_part};
use record_arrays::RECORDS;
use rooms::{Laid, RecordBytes, lay_out_room, lay_out_rooms};
use std::io;
use text_reading::problem::{lists_of, read_problem};

// The gaps of four lists as records.
fn records_of(lists: Lists) -> [GapRecord; RECORDS] {
    let mut records = [GapRecord {
        left: 0,
        right: 0,
        distance: 0,
        kind: AT_LEAST,
    }; RECORDS];
    let ends = lists.left.iter().zip(lists.right);
    let asked = lists.distance.iter().zip(lists.kind);
    for (record, ((left, right), (distance, kind))) in records.iter_mut().zip(ends.zip(asked)) {
        *record = GapRecord {
            left: *left,
            right: *right,
            distance: *distance,
            kind: *kind,
        };
    }
    records
}

// Lays a sheet out as records from marks at every gap, and prints what is answered and left.
fn show_alone(
    rt: &impl Print,
    records: [GapRecord; RECORDS],
    wanted: &[i64],
    weight: &[i64],
    count: u8,
    lists: &Laid,
) -> io::Result<()> {
    let alone = lay_out_room(7, [1u8; RECORDS], wanted, weight, records, count);
    println!(rt; " records from other marks, beside lists")?;
    print_laid(rt, wanted.len(), usize::from(count), &alone, lists)
}

// Lays a sheet out in both forms, and prints what is answered and left.
fn show_both(rt: &impl Print, marks: RecordBytes, lists: Lists) -> io::Result<()> {
    let gaps = lists.left.len();
    if GAPS < gaps {
        return Ok(());
    }
    let count = gaps as u8;
    let records = records_of(lists);
    let pair = lay_out_rooms(0, marks, marks, lists, records, count);
    println!(rt; " lists, beside records")?;
    print_laid(rt, lists.wanted.len(), gaps, &pair.lists, &pair.records)?;
    show_alone(rt, records, lists.wanted, lists.weight, count, &pair.lists)
}

// Reads a sheet's text and lays it out. Every text of the bench is a sheet.
fn show_text(rt: &impl Print, marks: RecordBytes, text: &[u8]) -> io::Result<()> {
    match read_problem(text) {
        Ok(problem) => show_both(rt, marks, lists_of(&problem)),
        Err(_) => Ok(()),
    }
}

// A carried record: marks where the line has a 1.
fn marks_of(line: &[u8]) -> RecordBytes {
    let mut marks = [0u8; RECORDS];
    for (mark, byte) in marks.iter_mut().zip(line) {
        *mark = u8::from(*byte == b'1');
    }
    marks
}

// Prints a sheet's name, and what is answered to it.
fn show_entry(rt: &impl Print, entry: &[u8]) -> io::Result<()> {
    let Some((name, rest)) = split_at_byte(entry, b'\n') else {
        return Ok(());
    };
    rt.write_all(name)?;
    println!(rt)?;
    let Some((line, text)) = split_at_byte(rest, b'\n') else {
        return Ok(());
    };
    show_text(rt, marks_of(line), text)
}

// Takes the sheets apart.
fn show_all(rt: &impl Print, sheets: &[u8]) -> io::Result<()> {
    for entry in sheets.split(|byte| *byte == 0) {
        show_entry(rt, entry)?;
    }
    Ok(())
}

// The sheet that no text can tell: a gap whose kind is neither.
fn show_neither(rt: &impl Print) -> io::Result<()> {
    println!(rt; "a kind that is neither is 23")?;
    show_both(
        rt,
        [0u8; RECORDS],
        Lists {
            wanted: &[0, 0],
            weight: &[1, 1],
            left: &[0],
            right: &[1],
            distance: &[6],
            kind: &[2],
        },
    )
}

// The parts of two ring buffers: a length beyond them gives the empty parts.
fn show_parts(rt: &impl Print) -> io::Result<()> {
    let ring = [5usize, 6, 7];
    let back = [0u8, 1, 0];
    println!(rt; "the parts of lengths 2 and 4 of buffers of 5, 6 and 7 and of 0, 1 and 0")?;
    print_ring(
        rt,
        ring_part(&ring, 2),
        back_part(&back, 2),
        ring_part(&ring, 2),
        back_part(&back, 2),
    )?;
    print_ring(rt, ring_part(&ring, 4), back_part(&back, 4), &[], &[])
}

fn main(rt: HostRuntime) -> io::Result<()> {
    let mut sheets = [0u8; INPUT_MOST];
    let got = read_full(&mut rt.stdin(), &mut sheets)?;
    show_all(&rt, &sheets[..got])?;
    show_neither(&rt)?;
    show_parts(&rt)
}
