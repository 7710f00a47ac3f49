// What users call: the tour of a card, taken as any bytes. Its own refusals come first; a refusal changes nothing that was lent.
#![tactic(auto)]

ghost use Rattle.std.specs.Prelude.{◌≡◌, ◌*◌, length, Ok};
ghost use Rattle.std.specs.Float.Ieee.{to_bits};
ghost use Rattle.std.specs.Float.{binary64};
ghost use Rattle.fields.specs.Layout.{contours_of};
ghost use Rattle.card.specs.Verdict.{check_of};
ghost use Rattle.instance.specs.Search.{count_on, table_on, chart_on};
ghost use Rattle.instance.specs.Prepared.{PreparedOn};
ghost use Rattle.solve.specs.Solve.{Solved};
ghost use Rattle.tour.specs.Search.{end_on};
ghost use Rattle.tour.specs.Tour.{left, room_check, toured, toured_unless, tour_of};

use answer::{Fault, Refusal};
use improve::Chart;
use instance::Prepared;
use solve::Outcome;
use table::Distances;

// The tour of a card that was accepted and prepared, into rooms of the right size.
fn run(card: &[u8], p: Prepared, room: &mut [u8], table: &mut [f64]) -> Outcome
    requires card_value { check_of card.now ≡ (Ok tt) }
    requires prepared_on { PreparedOn card.now p }
    requires room_length { length room.old ≡ contours_of card.now }
    requires table_length { length table.old ≡ count_on card.now * count_on card.now }
    ensures solved { Solved (chart_on card.now) (end_on card.now) room.old result room.new }
    ensures table_after { table.new ≡ table_on card.now }
{
    let t = p.all.count;
    let owner = &p.all.owner[..t];
    table::fill_table(table, p.all.items, t, owner);
    let chart = Chart {
        distances: Distances {
            home: &p.homes[..t],
            table,
            count: t as u8,
        },
        owner,
        first: &p.all.first[..p.all.contours + 1],
        pairs: &p.pairs[..p.seats],
    };
    solve::solve_constrained(
        &chart,
        room,
        fields::passes(card) as u32,
        fields::move_limit(card),
    )
}

// The tour of a card that was accepted, if the rooms are large enough.
fn tour_of_fine(card: &[u8], room: &mut [u8], table: &mut [f64]) -> Result<Outcome, Refusal>
    requires { check_of card.now ≡ (Ok tt) }
    ensures { let n = length room.old in
        let m = length table.old in
        left result room.new table.new
        ≡ toured_unless (room_check card.now n m) (toured card.now room.old table.old) room.old table.old }
{
    let p = instance::prepare(card);
    let n = p.all.contours;
    let t = p.all.count;
    if room.len() < n {
        return Err(Fault::Room.at(n));
    }
    let distances = t * t;
    if table.len() < distances {
        return Err(Fault::Room.at(distances));
    }
    Ok(run(card, p, &mut room[..n], &mut table[..distances]))
}

// The tour of a card: a candidate number for each contour, in the order in which they are cut, and the distances between all candidates.
pub fn tour(card: &[u8], room: &mut [u8], table: &mut [f64]) -> Result<Outcome, Refusal>
    ensures { left result room.new table.new ≡ tour_of card.now room.old table.old }
{
    card::check(card)?;
    tour_of_fine(card, room, table)
}

// A float's bits, one pattern for what is no number.
pub fn bits_of(x: f64) -> u64
    ensures { result ≡ to_bits binary64 x }
{
    if x != x {
        return 0x7ff8_0000_0000_0000;
    }
    f64::to_bits(x)
}
