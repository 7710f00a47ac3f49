// What C and Rust hosts call: the card's check, its tour, where a candidate is, a card fed in pieces, and the bridges of a contour. Each
// answers one number, 0 or the refusal's number times 2^32 plus its place, and tells the rest through lent numbers that a refusal keeps, but
// for a feed's state, which an asking ends unless it is refused for the byte room.
#![tactic(auto)]

ghost use Rattle.std.specs.Prelude.{◌≡◌, ◌*◌, ◌^◌, ◌<◌, ◌≤◌, length, take, Err};
ghost use Rattle.std.proofs.lemmas.List.Edits.{sets};
ghost use Rattle.answer.specs.Code.{code_of};
ghost use Rattle.card.specs.Verdict.{check_of};
ghost use Rattle.bridge.specs.Limits.{bridge_limit};
ghost use Rattle.questions.specs.Index.{located_of};
ghost use Rattle.host.specs.Hosts.{hosted, host_tour, pointed, host_place};
ghost use Rattle.host.specs.Bridges.{eight_of, numbers_of, spanned, host_bridges};
ghost use Rattle.host.specs.Feeds.{number_of, state_of, host_fed, host_feed, host_asked, host_ask};

use answer::Refusal;
use bridge::{BRIDGES, Bridge, Bridges};
use feed::Feed;
use table::ENTRIES;

// The numbers of the most bridges, eight each.
const NUMBERS: usize = 8 * BRIDGES;

// A refusal as one number. (No `From`, as at `number_of`.)
fn told(r: Refusal) -> u64
    ensures { result ≡ code_of (Err r) }
{
    answer::code(Err(r))
}

// A card's check as one number: 0, or the refusal's number times 2^32 plus its place.
pub fn jl_check(card: &[u8]) -> u64
    ensures { result ≡ code_of (check_of card.now) }
{
    answer::code(card::check(card))
}

// The tour of a card into a room of bytes, with the trials and the bits of the length through lent numbers. A refusal keeps them all.
pub fn jl_tour(card: &[u8], tour: &mut [u8], moves: &mut u64, length_bits: &mut u64) -> u64
    ensures { hosted result tour.new moves.new length_bits.new
        ≡ host_tour card.now tour.old moves.old length_bits.old }
{
    let mut table = [0.0; ENTRIES];
    match tour::tour(card, tour, &mut table) {
        Err(r) => told(r),
        Ok(o) => {
            *moves = o.moves;
            *length_bits = tour::bits_of(o.length);
            0
        }
    }
}

// Where a candidate is, through lent numbers that a refusal keeps.
pub fn jl_place(card: &[u8], candidate: u64, contour: &mut u64, within: &mut u64) -> u64
    ensures { pointed result contour.new within.new
        ≡ host_place (located_of card.now candidate) contour.old within.old }
{
    match questions::global_to_local(card, candidate as usize) {
        Err(r) => told(r),
        Ok(p) => {
            *contour = p.contour as u64;
            *within = p.within as u64;
            0
        }
    }
}

// ---- a card in pieces

// A state as the number that a host holds. (No `From`: neither `Feed` nor `u64` is of this crate, and the number is the hosts' own, which
// crate `feed` knows nothing of.)
fn number_of(f: Feed) -> u64
    requires { f.kept < 2 ^ 62 }
    ensures { result ≡ number_of f }
{
    4 * (f.kept as u64) + 2 * u64::from(f.over) + u64::from(f.ended)
}

// The state that a host's number stands for. (No `From`, as at `number_of`.)
fn state_of(n: u64) -> Feed
    ensures value { result ≡ state_of n }
    ensures kept_bound { result.kept < 2 ^ 62 }
{
    Feed {
        kept: (n / 4) as usize,
        over: n / 2 % 2 == 1,
        ended: n % 2 == 1,
    }
}

// A piece of a card, kept in a lent byte room, with the state as a lent number. A refusal keeps them both.
#[tactic(auto, unfolding(crate::specs::Feeds::host_feed))]
pub fn jl_feed(state: &mut u64, held: &mut [u8], piece: &[u8]) -> u64
    ensures { host_fed result state.new held.new
        ≡ host_feed state.old held.old piece.now }
{
    let mut feed = state_of(*state);
    let kept = feed.add(held, piece);
    *state = number_of(feed);
    match kept {
        Err(r) => told(r),
        Ok(_) => 0,
    }
}

// The end of a card in pieces: the tour, as `jl_tour` gives it of the whole. A refusal keeps what `jl_tour` would, and one for the byte room the
// state too.
pub fn jl_ask(
    state: &mut u64,
    held: &[u8],
    tour: &mut [u8],
    moves: &mut u64,
    length_bits: &mut u64,
) -> u64
    ensures { host_asked state.new (hosted result tour.new moves.new length_bits.new)
        ≡ host_ask state.old held.now tour.old moves.old length_bits.old }
{
    let mut table = [0.0; ENTRIES];
    let mut asked = state_of(*state);
    let answer = asked.ask(held, tour, &mut table);
    *state = number_of(asked);
    match answer {
        Err(why) => told(why),
        Ok(found) => {
            *moves = found.moves;
            *length_bits = tour::bits_of(found.length);
            0
        }
    }
}

// ---- bridges

// A bridge's eight numbers, at its place in the room.
fn write_bridge(b: Bridge, k: usize, room: &mut [f64; NUMBERS])
    requires { k < bridge_limit }
    ensures { room.new ≡ sets room.old (8 * k) (eight_of b) }
{
    let at = 8 * k;
    let edge = std::num::nearest_u64_to_f64(b.edge as u64);
    let numbers = [
        b.start.x, b.start.y, b.end.x, b.end.y, b.middle.x, b.middle.y, edge, b.t,
    ];
    room[at..at + 8].copy_from_slice(&numbers);
}

// The numbers of all bridges, at the front of the room.
fn write_bridges(found: Bridges, room: &mut [f64; NUMBERS])
    requires { (found.count ≤ bridge_limit) × (length found.items ≡ bridge_limit) }
    ensures { room.new ≡ sets room.old 0 (numbers_of (take found.count found.items)) }
{
    for (k, &bridge) in found.items[..found.count].iter().enumerate() {
        write_bridge(bridge, k, room);
    }
}

// The bridges of a contour, eight numbers each at the front of a room for the most there are. A refusal keeps the room.
#[tactic(auto, unfolding(crate::specs::Bridges::host_bridges))]
pub fn jl_bridges(contour: &[f64], width: f64, centres: &[f64], room: &mut [f64; NUMBERS]) -> u64
    ensures { spanned result room.new
        ≡ host_bridges contour.now width centres.now room.old }
{
    match bridge::bridges_at(contour, width, centres) {
        Err(r) => told(r),
        Ok(found) => {
            write_bridges(found, room);
            0
        }
    }
}
