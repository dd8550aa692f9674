#![tactic(auto)]
// What the programs share that read the standard input whole, many sheets or one.
ghost use Rattle.console.specs.Lines.{first_line_size};
ghost use Rattle.console.specs.Reads.{FullOrAtEnd};
ghost use Rattle.std.specs.Io.{ReadsAtMost};
ghost use Rattle.std.specs.Io.KnownBytes.{Consumes};
ghost use Rattle.std.specs.Prelude.{◌≡◌, ◌<◌, ◌≤◌, ◌++◌, ◌∷◌, IfOk, IfSome, IsSome, ◌↔◌, Contains, length, take};

use std::io;
use std::io::Read;

// As many bytes as a program takes of its input.
pub const INPUT_MOST: usize = 65536;

// Reads until the buffer is full or the input ends (a read gives as many bytes as it likes), and returns how many bytes stand at the buffer's front. Of an input whose bytes are
// known these are its first ones, and where they do not fill the buffer none is left.
pub fn read_full<R: Read>(input: &mut R, buffer: &mut [u8]) -> io::Result<usize>
    ensures within { ReadsAtMost result buffer.new }
    ensures bytes { IfOk result (λ n. Consumes (R.remaining input.old) (R.remaining input.new) (take n buffer.new)) }
    ensures end { FullOrAtEnd result buffer.new (R.remaining input.new) }
{
    let mut done: usize = 0;
    while done < buffer.len() {
        let more = input.read(&mut buffer[done..])?;
        if more == 0 {
            return Ok(done);
        }
        done += more;
    }
    Ok(done)
}

// Cuts bytes in two at the first that is this one, which is in neither part.
pub fn split_at_byte(bytes: &[u8], byte: u8) -> Option<(&[u8], &[u8])>
    ensures cut { IfSome result (λ parts. bytes.now ≡ parts.0.now ++ byte ∷ parts.1.now) }
    ensures first { IfSome result (λ parts. ¬ Contains parts.0.now byte) }
    ensures found { IsSome result ↔ Contains bytes.now byte }
{
    let at = bytes.iter().position(|b| *b == byte)?;
    Some((&bytes[..at], &bytes[at + 1..]))
}

// How long the first line is, with its end, an LF. Where none stands it is all of the bytes.
#[tactic(auto, using(crate::proofs::FirstLine::first_line_cut, crate::proofs::FirstLine::first_line_whole))]
pub fn first_line(entry: &[u8]) -> usize
    ensures within { result ≤ length entry.now }
    ensures size { result ≡ first_line_size entry.now }
{
    split_at_byte(entry, b'\n').map_or(entry.len(), |(name, _)| name.len() + 1)
}
