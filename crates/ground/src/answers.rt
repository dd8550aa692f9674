// What is told of an answer: the number, the place and the ring's length of its refusal. (One function for each, since each is told
// alone; a closure for the part that is told would be longer at the calls.)
ghost use Rattle.std.specs.Prelude.{◌≡◌};
ghost use Rattle.ground.specs.Answers.{number_of, refused_place, ring_length_of};

use crate::Refusal;

// The refusal's number, or 0.
pub fn number_of<T: Copy>(answer: Result<T, Refusal>) -> usize
    ensures { result ≡ number_of answer }
{
    answer.err().map_or(0, |refusal| refusal.number)
}

// The refusal's place, or 0.
pub fn place_of<T: Copy>(answer: Result<T, Refusal>) -> usize
    ensures { result ≡ refused_place answer }
{
    answer.err().map_or(0, |refusal| refusal.place)
}

// The length of the refusal's ring, or 0.
pub fn ring_of<T: Copy>(answer: Result<T, Refusal>) -> usize
    ensures { result ≡ ring_length_of answer }
{
    answer.err().map_or(0, |refusal| refusal.ring)
}
