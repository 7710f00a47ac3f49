// When a card goes back: the first fault of any bytes, with its place; and which contours its pairs name. What a card's fields say
// stands in the crate `fields`.
#![tactic(auto)]

ghost use Rattle.std.specs.Prelude.{◌≡◌, false, get_or, ◌+◌, ◌*◌, ◌<◌, ◌≤◌, None, Ok};
ghost use Rattle.answer.specs.Fault.{number_of};
ghost use Rattle.answer.specs.Lowest.{refuse_at};
ghost use Rattle.answer.specs.Stage.{first_refusal};
ghost use Rattle.closure.specs.Limits.{contour_limit, pair_limit};
ghost use Rattle.fields.specs.Layout.{contours_of, pairs_of};
ghost use Rattle.card.specs.Stages.{length_fault, check_fault, kind_number, kind_due, is_version, bad_start, start_fault, head_faults, head_fault, count_fault, bad_contour, contour_fault, head_used, used_in, spare_end, bad_spare, spare_fault, too_far, far_point, far_vertex, far_place, far_fault, seek_of, repeats, repeat_fault, position_of, other_tag, tag_fault};
ghost use Rattle.card.specs.Rules.{is_hole, encloses, enclosing_of};
ghost use Rattle.card.specs.Names.{written_on, pairs_on, named_as, named_pairs, AllNamed, named_of};
ghost use Rattle.card.specs.Verdict.{cycle_fault, card_stages, seat_stages, pair_stages, check_of};

use answer::{Fault, Refusal};
use block::BLOCK;
use closure::{CONTOURS, PAIRS};
use fields::{
    CANDIDATES, CARD_BYTES, CONTOUR_SIZE, CONTOURS_AT, EXTERIOR_AT, FILLER_AT, HEAD_SIZE, HOME_AT,
    INTERIOR_AT, PAIR_SIZE, PAIRS_A_BLOCK, PAIRS_AT, PART_AT, PASSES, PAYLOAD_AT, PER_CONTOUR,
    PER_CONTOUR_AT, TYPE_AT, VERTEX_COUNT_AT, VERTEX_SIZE, VERTICES, Y_AT,
};

// The bytes of a block's payload.
const PAYLOAD: usize = 500;

// The head's fields by their numbers, from 0 on; there is no field 0.
const HEAD_FIELDS: usize = 9;

// The bits of 1,048,576.
const FARTHEST: u64 = 0x4130_0000_0000_0000;

// The positions of all pairs that a card can have, two a pair: those written, and by rule one for a contour.
pub const SEATS: usize = 2 * (PAIRS + CONTOURS);

// A card's pairs as positions of contours, before and after in turn: the first count of the positions, the rest 0. They are all of
// its pairs, or those before the written one at which the work stopped. (No Result in place of both: the positions before the stop
// count too. No `Listed` inside: each reader's `named.positions[..named.count]` would be longer by a field, and nothing shorter.)
#[derive(Clone, Copy)]
pub struct Named {
    pub stopped: Option<usize>,
    pub positions: [u8; SEATS],
    pub count: usize,
}

// ---- what makes a card go back, each with the lowest place at which it does. Where a sum or a product of counts must fit, they are
// read as numbers of 16 bits, `block::u16_at(..) as usize`: `fields::contours` and the like promise the value and no bound.

// A refusal for this fault at the place found; nothing wrong where none was found.
fn refused_at(fault: Fault, f: Option<usize>) -> Result<(), Refusal>
    ensures { result ≡ refuse_at (number_of fault) f }
{
    match f {
        Some(place) => answer::refused(fault.number(), place),
        None => Ok(()),
    }
}

// 1: the length, or one more than the longest card's if larger.
#[tactic(auto, unfolding(crate::specs::Stages::length_fault_within))]
fn length_fault(card: &[u8]) -> Option<usize>
    ensures { result ≡ length_fault card.now }
{
    let count = card.len();
    if CARD_BYTES < count {
        return Some(CARD_BYTES + 1);
    }
    if count == 0 || count % BLOCK != 0 {
        return Some(count);
    }
    None
}

// 2: the first block whose check is not the one written in it.
fn check_fault(card: &[u8]) -> Option<usize>
    ensures { result ≡ check_fault card.now }
{
    (0..card.len() / BLOCK).find(|&b| !block::is_checked(card, BLOCK * b))
}

// What a block is for, by the number that its start says.
#[derive(Clone, Copy, Debug, PartialEq, Eq)]
enum BlockKind {
    Head = 1,
    Contour = 2,
    Pairs = 3,
}

// The kind that block b must be of.
fn kind_due(card: &[u8], b: usize) -> BlockKind
    ensures { kind_number result ≡ kind_due card.now b }
{
    if b == 0 {
        BlockKind::Head
    } else if b <= fields::contours(card) {
        BlockKind::Contour
    } else {
        BlockKind::Pairs
    }
}

// Whether there is such a version.
fn is_version(version: u8) -> bool
    ensures { result ≡ is_version version }
{
    version == 1 || version == 2
}

// 3: whether block b does not start as is due; its version is block 0's.
fn bad_start(card: &[u8], b: usize) -> bool
    requires { 512 * b < 18446744073709551616 }
    ensures { result ≡ bad_start card.now b }
{
    let version = fields::version(card);
    !(is_version(version) && block::starts_as(card, BLOCK * b, kind_due(card, b) as u8, version, b))
}

// 3: the first of so many blocks that does not start as is due.
fn start_fault(card: &[u8], count: usize) -> Option<usize>
    requires { 512 * count < 18446744073709551616 }
    ensures { result ≡ start_fault card.now count }
{
    (0..count).find(|&b| bad_start(card, b))
}

// Whether each of the head's fields is bad, by its number; there is no field 0.
fn head_faults(card: &[u8]) -> [bool; HEAD_FIELDS]
    ensures { result ≡ head_faults card.now }
{
    let n = block::u16_at(card, CONTOURS_AT) as usize;
    let c = block::u16_at(card, PER_CONTOUR_AT) as usize;
    let all = n * c;
    let grid = fields::grid(card);
    [
        false,
        CONTOURS < n,
        PAIRS < fields::pairs(card),
        !(1..=PER_CONTOUR).contains(&c),
        PASSES < fields::passes(card),
        2 < block::byte_at(card, EXTERIOR_AT),
        2 < block::byte_at(card, INTERIOR_AT),
        CANDIDATES < all,
        1 < grid,
    ]
}

// 4: the first field of the head that is bad.
fn head_fault(card: &[u8]) -> Option<usize>
    ensures { result ≡ head_fault card.now }
{
    let faults = head_faults(card);
    (0..HEAD_FIELDS).find(|&f| faults[f])
}

// 5: the count of blocks, where it is not the one due.
fn count_fault(card: &[u8]) -> Option<usize>
    ensures { result ≡ count_fault card.now }
{
    let blocks = card.len() / BLOCK;
    let n = block::u16_at(card, CONTOURS_AT) as usize;
    let m = block::u16_at(card, PAIRS_AT) as usize;
    if blocks != 1 + n + (m + (PAIRS_A_BLOCK - 1)) / PAIRS_A_BLOCK {
        return Some(blocks);
    }
    None
}

// 6: whether contour k has too few or too many vertices, no type, or a byte that ought to be 0.
fn bad_contour(card: &[u8], k: usize) -> bool
    ensures { result ≡ bad_contour card.now k }
{
    let v = fields::vertices(card, k);
    !(1..=VERTICES).contains(&v)
        || 1 < fields::contour_byte(card, k, TYPE_AT)
        || fields::contour_byte(card, k, FILLER_AT) != 0
}

// 6: the first such contour.
fn contour_fault(card: &[u8]) -> Option<usize>
    ensures { result ≡ contour_fault card.now }
{
    (0..fields::contours(card)).find(|&k| bad_contour(card, k))
}

// How many bytes at the front of the head's payload are fields: version 2 has one more, which asks for the grid.
fn head_used(card: &[u8]) -> usize
    ensures { result ≡ head_used card.now }
{
    if fields::is_two(card) {
        return HEAD_SIZE + 1;
    }
    HEAD_SIZE
}

// How many bytes at the front of block b's payload are fields.
fn used(card: &[u8], b: usize) -> usize
    requires { 512 * b < 18446744073709551616 }
    ensures { result ≡ used_in card.now b }
{
    if b == 0 {
        return head_used(card);
    }
    let n = block::u16_at(card, CONTOURS_AT) as usize;
    if b <= n {
        let v = block::u16_at(card, fields::contour_offset(card, b - 1, VERTEX_COUNT_AT)) as usize;
        return CONTOUR_SIZE + VERTEX_SIZE * v;
    }
    let before = PAIRS_A_BLOCK * (b - (n + 1));
    PAIR_SIZE
        * fields::pairs(card)
            .saturating_sub(before)
            .min(PAIRS_A_BLOCK)
}

// Where block b's spare bytes end: a version 2 contour has its part and copy behind them.
fn spare_end(card: &[u8], b: usize) -> usize
    ensures { result ≡ spare_end card.now b }
{
    if kind_due(card, b) == BlockKind::Contour && fields::is_two(card) {
        return PART_AT;
    }
    PAYLOAD
}

// 7: whether block b's payload has a spare byte that is not 0.
fn bad_spare(card: &[u8], b: usize) -> bool
    requires { 512 * b < 18446744073709551616 }
    ensures { result ≡ bad_spare card.now b }
{
    let u = used(card, b);
    let end = spare_end(card, b);
    u < end && !block::zeros_at(card, BLOCK * b + PAYLOAD_AT + u, end - u)
}

// 7: the first such block.
fn spare_fault(card: &[u8]) -> Option<usize>
    ensures { result ≡ spare_fault card.now }
{
    (0..card.len() / BLOCK).find(|&b| bad_spare(card, b))
}

// Whether a coordinate is not finite or too large in size: its bits without the sign are above those of 1,048,576.
fn too_far(bits: u64) -> bool
    ensures { result ≡ too_far bits }
{
    FARTHEST < bits % 0x8000_0000_0000_0000
}

// Whether one of the two coordinates at an offset is. (`|` and not `||`: no branch between the two, at every vertex of a card.)
fn far_point(card: &[u8], at: usize) -> bool
    requires { at + 8 < 18446744073709551616 }
    ensures { result ≡ far_point card.now at }
{
    too_far(block::u64_at(card, at)) | too_far(block::u64_at(card, at + Y_AT))
}

// The first vertex of contour k with such a coordinate.
fn far_vertex(card: &[u8], k: usize) -> Option<usize>
    ensures { result ≡ far_vertex card.now k }
{
    let start = fields::contour_offset(card, k, CONTOUR_SIZE);
    let v = block::u16_at(card, fields::contour_offset(card, k, VERTEX_COUNT_AT)) as usize;
    (0..v).find(|&j| far_point(card, start + VERTEX_SIZE * j))
}

// 8: whether home, at place 0, or the contour before this place has such a coordinate.
fn far_place(card: &[u8], place: usize) -> bool
    ensures { result ≡ far_place card.now place }
{
    if place == 0 {
        return far_point(card, HOME_AT);
    }
    far_vertex(card, place - 1).is_some()
}

// 8: the first such place.
fn far_fault(card: &[u8]) -> Option<usize>
    ensures { result ≡ far_fault card.now }
{
    let n = block::u16_at(card, CONTOURS_AT) as usize;
    (0..n + 1).find(|&place| far_place(card, place))
}

// Where an id stands among the first count contours.
fn seek(card: &[u8], count: usize, wanted: u32) -> Option<usize>
    ensures { result ≡ seek_of card.now count wanted }
{
    (0..count).find(|&k| fields::id(card, k) == wanted)
}

// The position of the contour that has an id.
pub fn position_of(card: &[u8], wanted: u32) -> Option<usize>
    ensures { result ≡ position_of card.now wanted }
{
    seek(card, fields::contours(card), wanted)
}

// 9: whether an earlier contour has contour k's id.
fn repeats(card: &[u8], k: usize) -> bool
    ensures { result ≡ repeats card.now k }
{
    seek(card, k, fields::id(card, k)).is_some()
}

// 9: the first such contour.
fn repeat_fault(card: &[u8]) -> Option<usize>
    ensures { result ≡ repeat_fault card.now }
{
    (0..fields::contours(card)).find(|&k| repeats(card, k))
}

// 10: the written pairs' positions; an id that no contour has ends the work.
fn named_pairs(card: &[u8]) -> Named
    requires { (contours_of card.now ≤ contour_limit) × (pairs_of card.now ≤ pair_limit) }
    ensures { result ≡ named_pairs card.now }
{
    let pairs = fields::pairs(card);
    let mut positions = [0u8; SEATS];
    for q in 0..pairs {
        let before = position_of(card, fields::before_id(card, q));
        let after = position_of(card, fields::after_id(card, q));
        let (Some(before), Some(after)) = (before, after) else {
            return Named {
                stopped: Some(q),
                positions,
                count: 2 * q,
            };
        };
        positions[2 * q] = before as u8;
        positions[2 * q + 1] = after as u8;
    }
    Named {
        stopped: None,
        positions,
        count: 2 * pairs,
    }
}

// Whether contour k is an interior of a part.
fn is_hole(card: &[u8], k: usize) -> bool
    ensures { result ≡ is_hole card.now k }
{
    fields::contour_byte(card, k, TYPE_AT) == 1 && fields::part(card, k) != 0
}

// Whether contour j is an exterior with contour k's part and copy.
fn encloses(card: &[u8], k: usize, j: usize) -> bool
    ensures { result ≡ encloses card.now k j }
{
    fields::contour_byte(card, j, TYPE_AT) == 0
        && fields::part(card, j) == fields::part(card, k)
        && fields::copy(card, j) == fields::copy(card, k)
}

// What contour k goes before by rule: a hole before the first such exterior.
fn enclosing_of(card: &[u8], k: usize) -> Option<usize>
    ensures { result ≡ enclosing_of card.now k }
{
    if !is_hole(card, k) {
        return None;
    }
    (0..fields::contours(card)).find(|&j| encloses(card, k, j))
}

// The pairs by rule, behind the written ones.
fn join_rules(card: &[u8], named: Named) -> Named
    requires { AllNamed card.now named }
    ensures { result ≡ named_as None (pairs_on card.now) }
{
    let mut positions = named.positions;
    let mut count = named.count;
    for k in 0..fields::contours(card) {
        let Some(j) = enclosing_of(card, k) else {
            continue;
        };
        positions[count] = k as u8;
        positions[count + 1] = j as u8;
        count += 2;
    }
    Named {
        stopped: None,
        positions,
        count,
    }
}

// A card's pairs as positions. Where there are more contours or pairs than a card takes, no pair is looked at.
pub fn pair_places(card: &[u8]) -> Named
    ensures { result ≡ named_of card.now }
{
    if CONTOURS < fields::contours(card) || PAIRS < fields::pairs(card) {
        return Named {
            stopped: Some(0),
            positions: [0u8; SEATS],
            count: 0,
        };
    }
    let named = named_pairs(card);
    match named.stopped {
        Some(_) => named,
        None => join_rules(card, named),
    }
}

// 11: whether written pair q has a tag that is not its contour's. The written pairs' positions are handed in.
fn other_tag(card: &[u8], seats: &[u8], q: usize) -> bool
    requires seats_value { seats.now ≡ written_on card.now }
    requires q_bound { q < pairs_of card.now }
    ensures { result ≡ other_tag card.now q }
{
    let before = seats[2 * q] as usize;
    let after = seats[2 * q + 1] as usize;
    fields::tag(card, before) != fields::before_tag(card, q)
        || fields::tag(card, after) != fields::after_tag(card, q)
}

// The first such pair.
fn tag_fault(card: &[u8], seats: &[u8]) -> Option<usize>
    requires { seats.now ≡ written_on card.now }
    ensures { result ≡ tag_fault card.now }
{
    (0..fields::pairs(card)).find(|&q| other_tag(card, seats, q))
}

// 1 to 9: the rows before the pairs', in the order in which they are looked at.
#[tactic(auto, unfolding(answer::specs::Stage::first_refusal))]
fn check_stages(card: &[u8]) -> Result<(), Refusal>
    ensures { result ≡ first_refusal (card_stages card.now) }
{
    refused_at(Fault::Length, length_fault(card))?;
    refused_at(Fault::Check, check_fault(card))?;
    refused_at(Fault::Start, start_fault(card, 1))?;
    refused_at(Fault::Field, head_fault(card))?;
    refused_at(Fault::Blocks, count_fault(card))?;
    refused_at(Fault::Start, start_fault(card, card.len() / BLOCK))?;
    refused_at(Fault::Contour, contour_fault(card))?;
    refused_at(Fault::Spare, spare_fault(card))?;
    refused_at(Fault::Coordinate, far_fault(card))?;
    refused_at(Fault::RepeatedId, repeat_fault(card))
}

// 12: the first contour that pairs, written or by rule, lead back to. The written pairs' positions are handed in.
fn cycle_fault(card: &[u8], named: Named) -> Option<usize>
    requires { AllNamed card.now named }
    ensures { result ≡ cycle_fault card.now }
{
    let joined = join_rules(card, named);
    closure::first_on_cycle(fields::contours(card), &joined.positions[..joined.count])
}

// 11, 12: the pairs, once the written ones' positions are known.
fn check_seats(card: &[u8], named: Named) -> Result<(), Refusal>
    requires { AllNamed card.now named }
    ensures { result ≡ first_refusal (seat_stages card.now) }
{
    refused_at(
        Fault::OtherTag,
        tag_fault(card, &named.positions[..named.count]),
    )?;
    refused_at(Fault::Cycle, cycle_fault(card, named))
}

// 10, 11, 12: the pairs.
fn check_pairs(card: &[u8]) -> Result<(), Refusal>
    requires { (contours_of card.now ≤ contour_limit) × (pairs_of card.now ≤ pair_limit) }
    ensures { result ≡ first_refusal (pair_stages card.now) }
{
    let named = named_pairs(card);
    refused_at(Fault::UnknownId, named.stopped)?;
    check_seats(card, named)
}

// Whether a card is fine, or which fault sends it back and where.
pub fn check(card: &[u8]) -> Result<(), Refusal>
    ensures { result ≡ check_of card.now }
{
    check_stages(card)?;
    check_pairs(card)
}
