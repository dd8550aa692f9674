#![tactic(auto)]
// The layout calls as functions of values: buffers that hold one number go in, and come back as the call left them.
ghost use Rattle.std.specs.Prelude.{◌≡◌, take};
ghost use Rattle.sheet_checks.specs.Lent.{sheet_lent};
ghost use Rattle.layout.specs.Promise.{Promise};
ghost use Rattle.layout.specs.TwoCalls.{BothPromised};
ghost use Rattle.record_arrays.specs.Arrays.{array_lent};
ghost use Rattle.rooms.specs.Rooms.{filled, room_of, written};
ghost use Rattle.ground.specs.Entries.{Filled};

use ground::limits::{GAPS, GapInts, LABELS, LabelBytes, LabelIndices, LabelInts};
use ground::lists::Lists;
use ground::{Answer, GapRecord};
use record_arrays::{RECORDS, lay_out_array, lay_out_both_array};

// A byte for each record of an array.
pub type RecordBytes = [u8; RECORDS];

// What a call writes, and the carried record.
#[derive(Clone, Copy, Debug, PartialEq, Eq)]
pub struct Room {
    pub place_num: LabelInts,
    pub place_den: LabelInts,
    pub mult_num: GapInts,
    pub mult_den: GapInts,
    pub ring: LabelIndices,
    pub back: LabelBytes,
    pub carried: RecordBytes,
}

// What a call answers and leaves.
#[derive(Clone, Copy, Debug, PartialEq, Eq)]
pub struct Laid {
    pub answer: Answer,
    pub room: Room,
}

// The same of two calls: one is lent lists, the other records.
#[derive(Clone, Copy, Debug, PartialEq, Eq)]
pub struct Pair {
    pub lists: Laid,
    pub records: Laid,
}

impl Room {
    // Buffers that hold one number, the ring buffers zeros, beside a carried record.
    fn filled(fill: i64, carried: RecordBytes) -> Self
        ensures { result ≡ room_of fill carried }
    {
        Self {
            place_num: [fill; LABELS],
            place_den: [fill; LABELS],
            mult_num: [fill; GAPS],
            mult_den: [fill; GAPS],
            ring: [0; LABELS],
            back: [0; LABELS],
            carried,
        }
    }
}

// Lays out a sheet whose gaps are the first `count` records of an array.
pub fn lay_out_room(
    fill: i64,
    mut carried: RecordBytes,
    wanted: &[i64],
    weight: &[i64],
    gaps: [GapRecord; RECORDS],
    count: u8,
) -> Laid
    ensures { let sheet = array_lent wanted.now weight.now gaps count in
        Promise sheet (filled fill (take count carried)) result.answer (written count result.room)
        × Filled count carried result.room.carried }
{
    // the bytes are lent from here and not from the room: of a slice of a field's front the check keeps no equation (tried)
    let mut room = Room::filled(fill, carried);
    let answer = lay_out_array(
        wanted,
        weight,
        gaps,
        count,
        &mut carried[..usize::from(count)],
        &mut room.place_num,
        &mut room.place_den,
        &mut room.mult_num,
        &mut room.mult_den,
        &mut room.ring,
        &mut room.back,
    );
    room.carried = carried;
    Laid { answer, room }
}

// Lays out a sheet twice: its gaps are lent as lists, and as the first `count` records of an array. Both carried records
// are lent as `count` bytes, so lists of another number of gaps are refused: with 3, where neither 1 nor 2 is met.
pub fn lay_out_rooms(
    fill: i64,
    mut carried: RecordBytes,
    mut carried2: RecordBytes,
    lists: Lists,
    gaps: [GapRecord; RECORDS],
    count: u8,
) -> Pair
    ensures { let sheet = sheet_lent lists in
        let second = array_lent lists.entry.wanted.now lists.entry.weight.now gaps count in
        BothPromised sheet (filled fill (take count carried)) result.lists.answer (written count result.lists.room)
        second (filled fill (take count carried2)) result.records.answer (written count result.records.room)
        × Filled count carried result.lists.room.carried
        × Filled count carried2 result.records.room.carried }
{
    let mut first = Room::filled(fill, carried);
    let mut second = Room::filled(fill, carried2);
    let answers = lay_out_both_array(
        lists,
        &mut carried[..usize::from(count)],
        &mut first.place_num,
        &mut first.place_den,
        &mut first.mult_num,
        &mut first.mult_den,
        &mut first.ring,
        &mut first.back,
        lists.wanted,
        lists.weight,
        gaps,
        count,
        &mut carried2[..usize::from(count)],
        &mut second.place_num,
        &mut second.place_den,
        &mut second.mult_num,
        &mut second.mult_den,
        &mut second.ring,
        &mut second.back,
    );
    first.carried = carried;
    second.carried = carried2;
    let lists = Laid {
        answer: answers.first,
        room: first,
    };
    let records = Laid {
        answer: answers.second,
        room: second,
    };
    Pair { lists, records }
}
