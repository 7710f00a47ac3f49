// The thin reader: a slice and a place in it, which each field that is read moves on. A field is read at any place: a byte past the end
// reads 0, and the place after a field is never beyond the end. A reader walks a card's head, its contours and its pairs, in file order.
#![tactic(auto)]

ghost use Rattle.std.specs.Prelude.{◌≡◌, ◌+◌, ◌*◌, ◌-◌, ◌≤◌, min, length};
ghost use Rattle.fields.specs.Limits.{vertex_limit};
ghost use Rattle.fields.specs.Layout.{grid_of};
ghost use Rattle.reader.specs.Fields.{field_at};
ghost use Rattle.reader.specs.Walk.{walk, eights};
ghost use Rattle.reader.specs.OnCard.{filled, head_of, contour_head, group_of, contour_read, pair_read};

use fields::{GRID_AT, PART_AT, PAYLOAD_AT, VERTICES};

// The coordinates of the most vertices.
const COORDINATES: usize = 2 * VERTICES;

// A slice and the place in it where the next field begins.
#[derive(Clone, Copy)]
pub struct Reader<'a> {
    pub src: &'a [u8],
    pub at: usize,
}

// How many bytes a field has.
#[derive(Clone, Copy)]
pub enum Width {
    One,
    Two,
    Four,
    Eight,
}

// A field's value, and the place after it.
#[derive(Clone, Copy)]
pub struct Field {
    pub value: u64,
    pub after: usize,
}

// ---- on a slice and a number

// The place so many bytes on, or the end.
fn past(s: &[u8], at: usize, count: usize) -> usize
    ensures { result ≡ min (at + count) (length s.now) }
{
    at.saturating_add(count).min(s.len())
}

// The field at a place.
pub fn field_at(s: &[u8], at: usize, width: Width) -> Field
    ensures { result ≡ field_at s.now at width }
{
    match width {
        Width::One => Field {
            value: u64::from(block::byte_at(s, at)),
            after: past(s, at, 1),
        },
        Width::Two => Field {
            value: u64::from(block::u16_at(s, at)),
            after: past(s, at, 2),
        },
        Width::Four => Field {
            value: u64::from(block::u32_at(s, at)),
            after: past(s, at, 4),
        },
        Width::Eight => Field {
            value: block::u64_at(s, at),
            after: past(s, at, 8),
        },
    }
}

// How many bytes stand from a place on.
pub fn left_at(s: &[u8], at: usize) -> usize
    ensures { result ≡ length s.now - at }
{
    s.len().saturating_sub(at)
}

// The field that a reader of this slice finds at a place.
pub fn read_field(s: &[u8], at: usize, width: Width) -> Field
    ensures { result ≡ field_at s.now at width }
{
    let mut r = Reader::new(s).moved(at);
    Field {
        value: r.next(width),
        after: r.at,
    }
}

// ---- the reader

impl<'a> Reader<'a> {
    // A reader at the first byte.
    pub fn new(src: &'a [u8]) -> Reader<'a>
        ensures { result ≡ record { src = src.entry; at = 0 } }
    {
        Reader { src, at: 0 }
    }

    // The same slice, at another place.
    pub fn moved(self, at: usize) -> Reader<'a>
        ensures { result ≡ record { src = self.entry.src; at = at } }
    {
        Reader { src: self.src, at }
    }

    // The next field's value. The reader goes on to the place after it.
    pub fn next(&mut self, width: Width) -> u64
        ensures { (result ≡ (field_at self.old.src.now self.old.at width).value)
            × (self.new ≡ record { src = self.old.src; at = (field_at self.old.src.now self.old.at width).after }) }
    {
        let field = field_at(self.src, self.at, width);
        self.at = field.after;
        field.value
    }

    // How many bytes are left.
    pub fn left(&self) -> usize
        ensures { result ≡ length self.now.src.now - self.now.at }
    {
        left_at(self.src, self.at)
    }
}

// ---- a card, in file order

// A card's head: its fields as numbers, home's coordinates as the bits of theirs.
#[derive(Clone, Copy)]
pub struct Head {
    pub job: u64,
    pub contours: u64,
    pub pairs: u64,
    pub candidates: u64,
    pub passes: u64,
    pub moves: u64,
    pub x: u64,
    pub y: u64,
    pub exterior: u64,
    pub interior: u64,
}

// A contour's fields before its vertices, and the place after them.
#[derive(Clone, Copy)]
pub struct ContourHead {
    pub id: u64,
    pub tag: u64,
    pub vertices: u64,
    pub kind: u64,
    pub filler: u64,
    pub after: usize,
}

// The part that a contour belongs to, and which copy of that part.
#[derive(Clone, Copy)]
struct Group {
    part: u64,
    copy: u64,
}

// A contour: its fields, and its vertices' coordinates as bits, x and y in turn, those without a vertex zero; its part
// and its copy, zero in version 1.
#[derive(Clone, Copy)]
pub struct Contour {
    pub id: u64,
    pub tag: u64,
    pub vertices: u64,
    pub kind: u64,
    pub filler: u64,
    pub coordinates: [u64; COORDINATES],
    pub part: u64,
    pub copy: u64,
}

// A pair: the id and the tag of the contour that comes before, and those of the one after it.
#[derive(Clone, Copy)]
pub struct Pair {
    pub before_id: u64,
    pub before_tag: u64,
    pub after_id: u64,
    pub after_tag: u64,
}

// The head.
pub fn read_head(card: &[u8]) -> Head
    ensures { result ≡ head_of card.now }
{
    let mut r = Reader::new(card).moved(PAYLOAD_AT);
    Head {
        job: r.next(Width::Four),
        contours: r.next(Width::Two),
        pairs: r.next(Width::Two),
        candidates: r.next(Width::Two),
        passes: r.next(Width::Two),
        moves: r.next(Width::Four),
        x: r.next(Width::Eight),
        y: r.next(Width::Eight),
        exterior: r.next(Width::One),
        interior: r.next(Width::One),
    }
}

// The byte that asks for the grid, right behind the head's other fields. Version 1 has none: nothing is read.
pub fn read_grid(card: &[u8]) -> u64
    ensures { result ≡ grid_of card.now }
{
    if fields::is_two(card) {
        Reader::new(card).moved(GRID_AT).next(Width::One)
    } else {
        0
    }
}

// Contour k's fields before its vertices: enough for who needs no vertex.
pub fn contour_head(card: &[u8], k: usize) -> ContourHead
    ensures { result ≡ contour_head card.now k }
{
    let mut r = Reader::new(card).moved(fields::contour_offset(card, k, 0));
    ContourHead {
        id: r.next(Width::Four),
        tag: r.next(Width::Four),
        vertices: r.next(Width::Two),
        kind: r.next(Width::One),
        filler: r.next(Width::One),
        after: r.at,
    }
}

// The coordinates that are kept of so many vertices.
fn kept(vertices: u64) -> usize
    ensures { result ≡ 2 * min vertices vertex_limit }
{
    2 * (vertices.min(VERTICES as u64) as usize)
}

// So many coordinates from a place on.
fn coordinates(card: &[u8], at: usize, count: usize) -> [u64; COORDINATES]
    requires { count ≤ 2 * vertex_limit }
    ensures { result ≡ filled (walk card.now at (eights count)) }
{
    let mut read = [0; COORDINATES];
    let mut r = Reader::new(card).moved(at);
    for x in &mut read[..count] {
        *x = r.next(Width::Eight);
    }
    read
}

// Contour k's part and copy, behind its vertices. Version 1 has neither: nothing is read.
fn read_group(card: &[u8], k: usize) -> Group
    ensures { result ≡ group_of card.now k }
{
    if !fields::is_two(card) {
        return Group { part: 0, copy: 0 };
    }
    let at = fields::contour_offset(card, k, PART_AT);
    let mut r = Reader::new(card).moved(at);
    Group {
        part: r.next(Width::Four),
        copy: r.next(Width::Four),
    }
}

// Contour k, with its first vertices if it names more than a contour may have.
pub fn read_contour(card: &[u8], k: usize) -> Contour
    ensures { result ≡ contour_read card.now k }
{
    let head = contour_head(card, k);
    let corners = coordinates(card, head.after, kept(head.vertices));
    let group = read_group(card, k);
    Contour {
        id: head.id,
        tag: head.tag,
        vertices: head.vertices,
        kind: head.kind,
        filler: head.filler,
        coordinates: corners,
        part: group.part,
        copy: group.copy,
    }
}

// Pair q.
pub fn read_pair(card: &[u8], q: usize) -> Pair
    ensures { result ≡ pair_read card.now q }
{
    let mut r = Reader::new(card).moved(fields::pair_offset(card, q));
    Pair {
        before_id: r.next(Width::Four),
        before_tag: r.next(Width::Four),
        after_id: r.next(Width::Four),
        after_tag: r.next(Width::Four),
    }
}
