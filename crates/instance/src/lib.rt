// A card prepared for the search: all its candidates, contour after contour, with the contour that each belongs to and the number of
// each contour's first; how far each is from home; and the pairs as positions. Every question takes the card as any bytes; a card whose
// head asks for more than can be held has no contours here.
#![tactic(auto)]

ghost use Rattle.std.specs.Prelude.{◌≡◌, []};
ghost use Rattle.table.specs.Distances.{homed};
ghost use Rattle.candidates.specs.Generate.{filled};
ghost use Rattle.instance.specs.Gather.{outline_of, offers_of, held_of};
ghost use Rattle.instance.specs.Room.{outlined, held_at, joined, Roomy, instance_of};
ghost use Rattle.instance.specs.Prepared.{no_distances, prepared_of};

use answer::{Listed, Point};
use candidates::{BLANK, Candidate, Candidates};
use card::SEATS;
use closure::CONTOURS;
use fields::{CANDIDATES, PER_CONTOUR, VERTICES};

// The numbers of the most vertices of a contour, two each.
const NUMBERS: usize = 2 * VERTICES;

// A number for each contour, and one for the end.
const FIRSTS: usize = CONTOURS + 1;

// What is held of a card: the first `count` items are its candidates, each with the contour that it belongs to, and of `first` the
// first `contours` are the numbers of the contours' first candidates, with the count after them. (No `Listed`: two arrays share a count,
// and that of the third is one more than the contours.)
#[derive(Clone, Copy)]
pub struct Instance {
    pub items: [Candidate; CANDIDATES],
    pub owner: [u8; CANDIDATES],
    pub first: [u8; FIRSTS],
    pub contours: usize,
    pub count: usize,
}

// What every door reads of a card: what is held of it, the distances of its candidates from home, and of `pairs` the first `seats` are
// its pairs as positions of contours, before and after in turn. (No `Listed`, as in card's Named.)
#[derive(Clone, Copy)]
pub struct Prepared {
    pub all: Instance,
    pub homes: [f64; CANDIDATES],
    pub pairs: [u8; SEATS],
    pub seats: usize,
}

// A contour's vertices, two numbers each.
type Outline = Listed<f64, NUMBERS>;

// Contour k's vertices, as many as there are or can be held.
fn outline_of(card: &[u8], k: usize) -> Outline
    ensures { result ≡ outlined (outline_of card.now k) }
{
    let v = fields::vertices(card, k).min(VERTICES);
    let mut numbers = [0.0; NUMBERS];
    for j in 0..v {
        let p = fields::vertex(card, k, j);
        numbers[2 * j] = p.x;
        numbers[2 * j + 1] = p.y;
    }
    Listed {
        items: numbers,
        count: 2 * v,
    }
}

// Contour k's candidates.
fn offers(card: &[u8], k: usize) -> Candidates
    ensures { result ≡ filled (offers_of card.now k) }
{
    let o = outline_of(card, k);
    candidates::candidates_of(
        &o.items[..o.count],
        fields::per_contour(card),
        fields::asks_grid(card),
        fields::contour_type(card, k),
        fields::exterior(card),
        fields::interior(card),
    )
}

// No contours.
fn none() -> Instance
    ensures { result ≡ held_at [] 0 }
{
    Instance {
        items: [BLANK; CANDIDATES],
        owner: [0; CANDIDATES],
        first: [0; FIRSTS],
        contours: 0,
        count: 0,
    }
}

// One contour more, number k, with the candidates found.
fn joined(held: Instance, found: Candidates, k: usize) -> Instance
    requires { Roomy held found k }
    ensures { result ≡ joined held found k }
{
    let mut items = held.items;
    let mut owner = held.owner;
    let mut first = held.first;
    let count = held.count + found.count;
    items[held.count..count].copy_from_slice(&found.items[..found.count]);
    owner[held.count..count].fill(k as u8);
    first[k + 1] = count as u8;
    Instance {
        items,
        owner,
        first,
        contours: k + 1,
        count,
    }
}

// How many contours are gathered.
fn held(card: &[u8]) -> usize
    ensures { result ≡ held_of card.now }
{
    let n = fields::contours(card);
    let c = fields::per_contour(card);
    if n <= CONTOURS && 0 < c && c <= PER_CONTOUR && n * c <= CANDIDATES {
        n
    } else {
        0
    }
}

// All of a card's candidates.
pub fn gather(card: &[u8]) -> Instance
    ensures { result ≡ instance_of card.now }
{
    let mut all = none();
    for k in 0..held(card) {
        all = joined(all, offers(card, k), k);
    }
    all
}

// How far each candidate is from home.
fn homes_of(all: Instance, home: Point) -> [f64; CANDIDATES]
    ensures { result ≡ homed all.items all.count home no_distances }
{
    let mut homes = [0.0; CANDIDATES];
    table::fill_home(&mut homes, all.items, all.count, home);
    homes
}

// All that the doors read of a card.
pub fn prepare(card: &[u8]) -> Prepared
    ensures { result ≡ prepared_of card.now }
{
    let all = gather(card);
    let homes = homes_of(all, fields::home(card));
    let named = card::pair_places(card);
    // By a name: the borrow checker does not cover an array moved from field to field.
    let pairs = named.positions;
    Prepared {
        all,
        homes,
        pairs,
        seats: named.count,
    }
}
