#![tactic(auto)]
// Prints the listings of many texts. Each has a line with its name in front and a byte 0, which no sheet has, behind;
// stdout was worked out apart from this program.
// Every refusal is there but 3, 4 and 23, which no text can bring about (the lists of a run belong together and have
// room, and the words of a text name known kinds), and 12, which belongs to single fractions.
use console::{INPUT_MOST, first_line, read_full, split_at_byte};
use sheet_run::run_sheet;
use std::io;
use text_listing::LISTING_ROOM;

// Prints a text's name and its listing.
fn show(rt: &impl Print, entry: &[u8]) -> io::Result<()> {
    let mut out = [0u8; LISTING_ROOM];
    let (name, text) = entry.split_at(first_line(entry));
    rt.write_all(name)?;
    let size = run_sheet(text, &mut out);
    rt.write_all(&out[..size])
}

// Takes the texts apart. (What stands behind the last byte 0 is none, so `split` does not do. These lines stand in
// three programs: with a closure for what is shown they would be no fewer.)
fn show_all(rt: &impl Print, texts: &[u8]) -> io::Result<()> {
    let mut rest = texts;
    while let Some((entry, others)) = split_at_byte(rest, 0) {
        show(rt, entry)?;
        rest = others;
    }
    Ok(())
}

fn main(rt: HostRuntime) -> io::Result<()> {
    let mut texts = [0u8; INPUT_MOST];
    let got = read_full(&mut rt.stdin(), &mut texts)?;
    show_all(&rt, &texts[..got])
}
