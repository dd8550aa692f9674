#![tactic(auto)]
// The station program: the text of a sheet from standard input, its listing to standard output. Where the text cannot
// be read, or the listing not be written whole, one line on standard error says so.
use console::read_full;
use sheet_run::run_sheet;
use text_listing::LISTING_ROOM;
use text_reading::TEXT_MOST;

// One byte more than a text may have, so that a longer one is refused with 11.
const TEXT_ROOM: usize = TEXT_MOST + 1;

// Writes what a station prints for a text.
fn print_sheet(rt: &(impl Print + Eprint), text: &[u8]) {
    let mut out = [0u8; LISTING_ROOM];
    let size = run_sheet(text, &mut out);
    if rt.write_all(&out[..size]).is_err() {
        let _ = rt.eprintln("station: the listing could not be written");
    }
}

fn main(rt: HostRuntime) {
    let mut text = [0u8; TEXT_ROOM];
    let Ok(size) = read_full(&mut rt.stdin(), &mut text) else {
        let _ = rt.eprintln("station: the sheet could not be read");
        return;
    };
    print_sheet(&rt, &text[..size]);
}
