// The filled parts of the two ring buffers.
ghost use Rattle.std.specs.Prelude.{◌≡◌};
ghost use Rattle.layout.specs.Part.{filled_part};

// The front part of a list; for a length beyond the list, the empty part.
fn filled_part<T>(list: &[T], size: usize) -> &[T]
    ensures { result.now ≡ filled_part list.now size }
{
    list.get(..size).unwrap_or(&[])
}

// Hands back the front part of the caller's buffer that holds a ring's gap numbers;
// for a length beyond the buffer, the empty part. The buffer is lent to read, so nothing is written.
pub fn ring_part<'a>(ring: &'a [usize], size: usize) -> &'a [usize]
    ensures { result.now ≡ filled_part ring.now size }
{
    filled_part(ring, size)
}

// The same of the second ring buffer, which holds 1 beside a gap that is passed backwards and 0 beside any other.
pub fn back_part<'a>(back: &'a [u8], size: usize) -> &'a [u8]
    ensures { result.now ≡ filled_part back.now size }
{
    filled_part(back, size)
}
