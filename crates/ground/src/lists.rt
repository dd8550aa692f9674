// A sheet as a station lends it to be read: a list for each thing told of labels and of gaps, as C lends them. A kind is a byte that may be
// any, which refusal 23 is about.
#[derive(Clone, Copy)]
pub struct Lists<'a> {
    pub wanted: &'a [i64],
    pub weight: &'a [i64],
    pub left: &'a [usize],
    pub right: &'a [usize],
    pub distance: &'a [i64],
    pub kind: &'a [u8],
}
