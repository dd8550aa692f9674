// What is listed, as it is lent.
ghost use Rattle.std.specs.Prelude.{◌≡◌};
ghost use Rattle.text_listing.specs.Listing.{even, listable_of};

// The place of each label, and of each gap its ends and its distance.
#[derive(Clone, Copy)]
pub(crate) struct Lent<'a> {
    pub place_num: &'a [i64],
    pub place_den: &'a [i64],
    pub left: &'a [usize],
    pub right: &'a [usize],
    pub distance: &'a [i64],
}

impl<'a> Lent<'a> {
    // Whether lists that belong together are as many.
    pub(crate) fn is_even(self) -> bool
        ensures { result ≡ even (listable_of self.entry) }
    {
        self.place_den.len() == self.place_num.len()
            && self.right.len() == self.left.len()
            && self.distance.len() == self.left.len()
    }
}
