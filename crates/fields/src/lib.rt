// A card's fields: where each stands, and what it reads on any bytes: a byte past the end reads 0. What they say is worth asking once `card::check`
// finds nothing wrong.
#![tactic(auto)]

ghost use Rattle.std.specs.Prelude.{◌≡◌, ◌+◌, ◌<◌, min, length};
ghost use Rattle.block.specs.Field.{byte_at, u32_at};
ghost use Rattle.fields.specs.Layout.{payload, version_of, is_two, job_of, contours_of, pairs_of, per_contour_of, passes_of, move_limit_of, home_offset, exterior_of, interior_of, grid_of, asks_grid, pair_size, id_of, tag_of, vertex_count_of, type_of, part_of, copy_of, vertex_offset, pair_offset, before_id_of, before_tag_of, after_id_of, after_tag_of};
ghost use Rattle.fields.specs.Values.{as_type, as_preference, point_at};

use answer::{ContourType, CutDirectionPreference, Point};
use block::BLOCK;

// The most bytes that a card has.
pub const CARD_BYTES: usize = 45568;

// The most candidates of one contour, and of all of them.
pub const PER_CONTOUR: usize = 8;

pub const CANDIDATES: usize = 80;

// The most passes.
pub const PASSES: usize = 1000;

// The most vertices of a contour.
pub const VERTICES: usize = 30;

// The pairs that a block takes.
pub const PAIRS_A_BLOCK: usize = 31;

// Where a block's payload begins in it.
pub const PAYLOAD_AT: usize = 8;

// ---- where each field stands, and how many bytes the fields take

// The version, from the card's beginning, and so the head's fields.
pub const VERSION_AT: usize = 1;

pub const JOB_AT: usize = PAYLOAD_AT;

pub const CONTOURS_AT: usize = PAYLOAD_AT + 4;

pub const PAIRS_AT: usize = PAYLOAD_AT + 6;

pub const PER_CONTOUR_AT: usize = PAYLOAD_AT + 8;

pub const PASSES_AT: usize = PAYLOAD_AT + 10;

pub const MOVE_LIMIT_AT: usize = PAYLOAD_AT + 12;

pub const HOME_AT: usize = PAYLOAD_AT + 16;

pub const EXTERIOR_AT: usize = PAYLOAD_AT + 32;

pub const INTERIOR_AT: usize = PAYLOAD_AT + 33;

pub const HEAD_SIZE: usize = 34;

// Behind them, in version 2 only: the byte that asks for the grid.
pub const GRID_AT: usize = PAYLOAD_AT + HEAD_SIZE;

// A contour's, from the beginning of its block's payload; its vertices come after them.
pub const ID_AT: usize = 0;

pub const TAG_AT: usize = 4;

pub const VERTEX_COUNT_AT: usize = 8;

pub const TYPE_AT: usize = 10;

pub const FILLER_AT: usize = 11;

pub const CONTOUR_SIZE: usize = 12;

// Behind the vertices, in version 2: the last eight bytes of the payload.
pub const PART_AT: usize = 492;

pub const COPY_AT: usize = PART_AT + 4;

// A vertex's y, from its x; likewise home's.
pub const Y_AT: usize = 8;

pub const VERTEX_SIZE: usize = 16;

// A pair's, from its own beginning.
pub const BEFORE_ID_AT: usize = 0;

pub const BEFORE_TAG_AT: usize = 4;

pub const AFTER_ID_AT: usize = 8;

pub const AFTER_TAG_AT: usize = 12;

pub const PAIR_SIZE: usize = 16;

// ---- the version

// The version of a card: its first block's.
pub fn version(card: &[u8]) -> u8
    ensures { result ≡ version_of card.now }
{
    block::byte_at(card, VERSION_AT)
}

// Whether it is of version 2: its head may ask for the grid, its contours have a part and a copy.
pub fn is_two(card: &[u8]) -> bool
    ensures { result ≡ is_two card.now }
{
    version(card) == 2
}

// ---- the head

// The job's number.
pub fn job(card: &[u8]) -> u32
    ensures { result ≡ job_of card.now }
{
    block::u32_at(card, JOB_AT)
}

// How many contours the card has.
pub fn contours(card: &[u8]) -> usize
    ensures { result ≡ contours_of card.now }
{
    block::u16_at(card, CONTOURS_AT) as usize
}

// How many pairs it has.
pub fn pairs(card: &[u8]) -> usize
    ensures { result ≡ pairs_of card.now }
{
    block::u16_at(card, PAIRS_AT) as usize
}

// How many candidates each contour is to have.
pub fn per_contour(card: &[u8]) -> usize
    ensures { result ≡ per_contour_of card.now }
{
    block::u16_at(card, PER_CONTOUR_AT) as usize
}

// How many passes the search may take.
pub fn passes(card: &[u8]) -> usize
    ensures { result ≡ passes_of card.now }
{
    block::u16_at(card, PASSES_AT) as usize
}

// How many moves the search may try; 0 is no limit.
pub fn move_limit(card: &[u8]) -> u32
    ensures { result ≡ move_limit_of card.now }
{
    block::u32_at(card, MOVE_LIMIT_AT)
}

// Where the tour starts.
pub fn home(card: &[u8]) -> Point
    ensures { result ≡ point_at card.now home_offset }
{
    Point {
        x: block::f64_at(card, HOME_AT),
        y: block::f64_at(card, HOME_AT + Y_AT),
    }
}

// Which way round exteriors are to be cut, and interiors.
pub fn exterior(card: &[u8]) -> CutDirectionPreference
    ensures { result ≡ as_preference (exterior_of card.now) }
{
    CutDirectionPreference::from(block::byte_at(card, EXTERIOR_AT))
}

pub fn interior(card: &[u8]) -> CutDirectionPreference
    ensures { result ≡ as_preference (interior_of card.now) }
{
    CutDirectionPreference::from(block::byte_at(card, INTERIOR_AT))
}

// The byte that asks for the grid; 0 in version 1.
pub fn grid(card: &[u8]) -> u8
    ensures { result ≡ grid_of card.now }
{
    if !is_two(card) {
        return 0;
    }
    block::byte_at(card, GRID_AT)
}

// Whether candidates are to be moved to the grid. On a card that was not checked, no byte but 1 asks for it.
pub fn asks_grid(card: &[u8]) -> bool
    ensures { result ≡ asks_grid card.now }
{
    grid(card) == 1
}

// ---- offsets

// Where a byte of block b's payload stands, cut off at the card's end.
fn payload_offset(card: &[u8], b: usize, offset: usize) -> usize
    ensures { result ≡ min (payload b + offset) (length card.now) }
{
    let payload = BLOCK.saturating_mul(b).saturating_add(PAYLOAD_AT);
    payload.saturating_add(offset).min(card.len())
}

// The same for contour k, whose block is the one after block k.
pub fn contour_offset(card: &[u8], k: usize, offset: usize) -> usize
    ensures { result ≡ min (payload (k + 1) + offset) (length card.now) }
{
    payload_offset(card, k.saturating_add(1), offset)
}

// Where vertex j of contour k stands, cut off likewise.
fn vertex_offset(card: &[u8], k: usize, j: usize) -> usize
    ensures { result ≡ min (vertex_offset k j) (length card.now) }
{
    let first = contour_offset(card, k, CONTOUR_SIZE);
    first
        .saturating_add(VERTEX_SIZE.saturating_mul(j))
        .min(card.len())
}

// Where pair q stands, cut off likewise.
pub fn pair_offset(card: &[u8], q: usize) -> usize
    ensures { result ≡ min (pair_offset card.now q) (length card.now) }
{
    let first = (block::u16_at(card, CONTOURS_AT) as usize) + 1;
    payload_offset(
        card,
        first + q / PAIRS_A_BLOCK,
        PAIR_SIZE * (q % PAIRS_A_BLOCK),
    )
}

// ---- a contour

// Fields of contour k's payload.
pub fn contour_byte(card: &[u8], k: usize, offset: usize) -> u8
    ensures { result ≡ byte_at card.now (payload (k + 1) + offset) }
{
    block::byte_at(card, contour_offset(card, k, offset))
}

fn contour_u32(card: &[u8], k: usize, offset: usize) -> u32
    ensures { result ≡ u32_at card.now (payload (k + 1) + offset) }
{
    block::u32_at(card, contour_offset(card, k, offset))
}

// Contour k's id.
pub fn id(card: &[u8], k: usize) -> u32
    ensures { result ≡ id_of card.now k }
{
    contour_u32(card, k, ID_AT)
}

// Contour k's tag.
pub fn tag(card: &[u8], k: usize) -> u32
    ensures { result ≡ tag_of card.now k }
{
    contour_u32(card, k, TAG_AT)
}

// How many vertices contour k has.
pub fn vertices(card: &[u8], k: usize) -> usize
    ensures { result ≡ vertex_count_of card.now k }
{
    block::u16_at(card, contour_offset(card, k, VERTEX_COUNT_AT)) as usize
}

// Whether contour k is the outline of a part or a hole in one. On a card that was not checked, any byte but 0 is a hole.
pub fn contour_type(card: &[u8], k: usize) -> ContourType
    ensures { result ≡ as_type (type_of card.now k) }
{
    ContourType::from(contour_byte(card, k, TYPE_AT))
}

// The part that contour k belongs to: 0 for none, and in version 1.
pub fn part(card: &[u8], k: usize) -> u32
    ensures { result ≡ part_of card.now k }
{
    if is_two(card) {
        contour_u32(card, k, PART_AT)
    } else {
        0
    }
}

// Which copy of its part contour k is in; 0 in version 1.
pub fn copy(card: &[u8], k: usize) -> u32
    ensures { result ≡ copy_of card.now k }
{
    if is_two(card) {
        contour_u32(card, k, COPY_AT)
    } else {
        0
    }
}

// Vertex j of contour k.
pub fn vertex(card: &[u8], k: usize, j: usize) -> Point
    ensures { result ≡ point_at card.now (vertex_offset k j) }
{
    let at = vertex_offset(card, k, j);
    Point {
        x: block::f64_at(card, at),
        y: block::f64_at(card, at + Y_AT),
    }
}

// ---- a pair

// A field of pair q.
fn pair_u32(card: &[u8], q: usize, offset: usize) -> u32
    requires { offset < pair_size }
    ensures { result ≡ u32_at card.now (pair_offset card.now q + offset) }
{
    block::u32_at(card, pair_offset(card, q) + offset)
}

// The id and the tag of pair q's first contour, and those of its second.
pub fn before_id(card: &[u8], q: usize) -> u32
    ensures { result ≡ before_id_of card.now q }
{
    pair_u32(card, q, BEFORE_ID_AT)
}

pub fn before_tag(card: &[u8], q: usize) -> u32
    ensures { result ≡ before_tag_of card.now q }
{
    pair_u32(card, q, BEFORE_TAG_AT)
}

pub fn after_id(card: &[u8], q: usize) -> u32
    ensures { result ≡ after_id_of card.now q }
{
    pair_u32(card, q, AFTER_ID_AT)
}

pub fn after_tag(card: &[u8], q: usize) -> u32
    ensures { result ≡ after_tag_of card.now q }
{
    pair_u32(card, q, AFTER_TAG_AT)
}
