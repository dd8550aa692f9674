// Lays out a sheet whose gaps are lent as lists.
ghost use Rattle.std.specs.Prelude.{◌≡◌};
ghost use Rattle.sheet_checks.specs.Lent.{room_lent, sheet_lent};
ghost use Rattle.layout.specs.Answered.{answer_of};
ghost use Rattle.layout.specs.Promise.{Promise};

use core_project::Projected;
use core_project::project::project;
use ground::lists::Lists;
use ground::rules::Rule;
use ground::{Answer, Refusal};
use sheet_checks::check::{Room, check};

// The answer to what the core came to: a ring is refusal 9, whose place is 0.
fn answered(found: Projected) -> Answer
    ensures { result ≡ answer_of found }
{
    found.map_err(|size| Refusal {
        ring: size.0,
        ..Refusal::at(Rule::Ring, 0)
    })
}

// Lays out a sheet. Anything may be lent; a sheet that breaks a rule is refused,
// and then nothing is written but a ring, its gap numbers and which of them are passed backwards.
// What is written is lent one by one, as the C interface lends it: a struct of loans that is passed on by value gets no proof (tried).
pub fn lay_out(
    lists: Lists,
    carried: &mut [u8],
    place_num: &mut [i64],
    place_den: &mut [i64],
    mult_num: &mut [i64],
    mult_den: &mut [i64],
    ring: &mut [usize],
    back: &mut [u8],
) -> Answer
    ensures { let sheet = sheet_lent lists in
        let room = room_lent carried place_num place_den mult_num mult_den ring back in
        Promise sheet room.entry result room.exit }
{
    let room = Room {
        places: place_num.len(),
        place_dens: place_den.len(),
        multipliers: mult_num.len(),
        multiplier_dens: mult_den.len(),
        ring: ring.len(),
        back: back.len(),
        carried: carried.len(),
    };
    check(lists, room)?;
    let found = project(
        lists, carried, place_num, place_den, mult_num, mult_den, ring, back,
    );
    answered(found)
}
