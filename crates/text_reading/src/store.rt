// The storing of a record in the work arrays.
ghost use Rattle.std.specs.Prelude.{◌≡◌, ◌<◌};
ghost use Rattle.text_reading.specs.Parts.{Stored};
ghost use Rattle.text_reading.specs.Works.{lists_in};
ghost use Rattle.text_reading.specs.Texts.{text_most};

use crate::Counts;
use crate::work::Work;
use ground::limits::{GAPS, LABELS};
use text_rows::Row;

impl Work {
    pub(crate) fn new() -> Work {
        Work {
            wanted: [0; LABELS],
            weight: [0; LABELS],
            left: [0; GAPS],
            right: [0; GAPS],
            distance: [0; GAPS],
            kind: [0; GAPS],
        }
    }

    // Counts a record, and stores it if there is room for it.
    pub(crate) fn store(&mut self, row: Row, counts: Counts) -> Counts
        requires { (counts.labels < text_most) × (counts.gaps < text_most) }
        ensures { Stored row counts (lists_in self.old) result (lists_in self.new) }
    {
        let Counts { labels, gaps } = counts;
        match row {
            Row::Label(label) => {
                if labels < LABELS {
                    self.wanted[labels] = label.wanted;
                    self.weight[labels] = label.weight;
                }
                Counts {
                    labels: labels + 1,
                    gaps,
                }
            }
            Row::Gap(gap) => {
                if gaps < GAPS {
                    self.left[gaps] = gap.left;
                    self.right[gaps] = gap.right;
                    self.distance[gaps] = gap.distance;
                    self.kind[gaps] = gap.kind;
                }
                Counts {
                    labels,
                    gaps: gaps + 1,
                }
            }
        }
    }
}
