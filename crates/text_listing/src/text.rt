// A text that is put together in fixed memory, one piece behind the other.
ghost use Rattle.std.specs.Prelude.{◌≡◌, [], ◌∷◌, ◌+◌, ◌/◌, ◌%◌, ◌<◌, ◌≤◌, length, take};
ghost use Rattle.text_listing.specs.Appended.{Appended};
ghost use Rattle.text_rows.specs.Numeral.{digit_zero, decimal, signed_decimal};
ghost use Rattle.text_rows.specs.Lines.{next};

use itoa::write_digits;

// Digits of a number of 64 bits, at most.
const DIGITS: usize = 20;

// What is put so far stands up to the end.
#[derive(Drop)]
pub(crate) struct Text<const ROOM: usize> {
    bytes: [u8; ROOM],
    end: usize,
    ghost within: { end ≤ length bytes },
}

impl<const ROOM: usize> Text<ROOM> {
    pub(crate) fn new() -> Text<ROOM>
        ensures { take result.end result.bytes ≡ [] }
    {
        Text {
            bytes: [0; ROOM],
            end: 0,
        }
    }

    // What is put so far.
    pub(crate) fn as_bytes(&self) -> &[u8]
        ensures { result.now ≡ take self.now.end self.now.bytes }
    {
        &self.bytes[..self.end]
    }

    // Puts a word.
    pub(crate) fn put(&mut self, word: &[u8])
        requires { length (take self.old.end self.old.bytes) + length word.now ≤ ROOM }
        ensures { Appended (take self.old.end self.old.bytes) word.now (take self.new.end self.new.bytes) }
    {
        let start = self.end;
        let end = start + word.len();
        let bytes = &mut self.bytes[..];
        bytes[start..end].copy_from_slice(word);
        self.end = end;
    }

    // Puts a comma and a number. There is a function for each type: generic over itoa's `Integer`, the promise
    // would be its digits, and each caller would show that they are those of the text.
    pub(crate) fn put_number(&mut self, n: u64)
        requires { length (take self.old.end self.old.bytes) + length (next (decimal n)) ≤ ROOM }
        ensures { Appended (take self.old.end self.old.bytes) (next (decimal n)) (take self.new.end self.new.bytes) }
    {
        self.put(b",");
        self.put_digits(n);
    }

    // Puts a comma and a signed number. Inlined, it leaves the end in a register from one number to the next.
    #[inline(always)]
    pub(crate) fn put_signed(&mut self, x: i64)
        requires { length (take self.old.end self.old.bytes) + length (next (signed_decimal x)) ≤ ROOM }
        ensures { Appended (take self.old.end self.old.bytes) (next (signed_decimal x)) (take self.new.end self.new.bytes) }
    {
        if x < 0 {
            self.put(b",-");
            self.put_digits(x.unsigned_abs());
            return;
        }
        self.put_number(x.unsigned_abs());
    }

    // Puts the digits of a number. Up to four go by pairs, which cost less than a buffer to format into.
    fn put_digits(&mut self, n: u64)
        requires { length (take self.old.end self.old.bytes) + length (decimal n) ≤ ROOM }
        ensures { Appended (take self.old.end self.old.bytes) (decimal n) (take self.new.end self.new.bytes) }
    {
        if n < 100 {
            self.put_short(n);
            return;
        }
        if n < 10_000 {
            self.put_short(n / 100);
            self.put_pair(n % 100);
            return;
        }
        self.put_formatted(n);
    }

    // Puts the digits of a number below a hundred.
    fn put_short(&mut self, n: u64)
        requires { (n < 100) × (length (take self.old.end self.old.bytes) + length (decimal n) ≤ ROOM) }
        ensures { Appended (take self.old.end self.old.bytes) (decimal n) (take self.new.end self.new.bytes) }
    {
        if n < 10 {
            self.put(&[b'0' + n as u8]);
            return;
        }
        self.put_pair(n);
    }

    // Puts two digits, the first of which may be 0.
    fn put_pair(&mut self, n: u64)
        requires { (n < 100) × (length (take self.old.end self.old.bytes) + 2 ≤ ROOM) }
        ensures { let pair = (digit_zero + n / 10) ∷ (digit_zero + n % 10) ∷ [] in
            Appended (take self.old.end self.old.bytes) pair (take self.new.end self.new.bytes) }
    {
        self.put(&[b'0' + (n / 10) as u8]);
        self.put(&[b'0' + (n % 10) as u8]);
    }

    // Puts the digits of a number by way of a buffer. Inlined, it would cost the short numbers too.
    #[inline(never)]
    fn put_formatted(&mut self, n: u64)
        requires { length (take self.old.end self.old.bytes) + length (decimal n) ≤ ROOM }
        ensures { Appended (take self.old.end self.old.bytes) (decimal n) (take self.new.end self.new.bytes) }
    {
        let mut digits = [0; DIGITS];
        let start = write_digits(n, &mut digits, DIGITS);
        self.put(&digits[start..]);
    }
}
