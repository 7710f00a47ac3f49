// What C and Rust link: an export for each call of `host`, under the same name and with the same contract. A crate is a library
// or a static library and not both, so the exports stand above `host`, which other crates cite.
#![tactic(auto)]

ghost use Rattle.std.specs.Prelude.{◌≡◌};
ghost use Rattle.answer.specs.Code.{code_of};
ghost use Rattle.card.specs.Verdict.{check_of};
ghost use Rattle.questions.specs.Index.{located_of};
ghost use Rattle.host.specs.Hosts.{hosted, host_tour, pointed, host_place};
ghost use Rattle.host.specs.Bridges.{spanned, host_bridges};
ghost use Rattle.host.specs.Feeds.{host_fed, host_feed, host_asked, host_ask};

use bridge::BRIDGES;

// The numbers of the most bridges, eight each.
const NUMBERS: usize = 8 * BRIDGES;

// A card's check as one number: 0, or the refusal's number times 2^32 plus its place.
#[unsafe(no_mangle)]
pub extern "C" fn jl_check(card: &[u8]) -> u64
    ensures { result ≡ code_of (check_of card.now) }
{
    host::jl_check(card)
}

// The tour of a card into a room of bytes, with the trials and the bits of the length through lent numbers. A refusal keeps them all.
#[unsafe(no_mangle)]
pub extern "C" fn jl_tour(
    card: &[u8],
    tour: &mut [u8],
    moves: &mut u64,
    length_bits: &mut u64,
) -> u64
    ensures { hosted result tour.new moves.new length_bits.new
        ≡ host_tour card.now tour.old moves.old length_bits.old }
{
    host::jl_tour(card, tour, moves, length_bits)
}

// Where a candidate is, through lent numbers that a refusal keeps.
#[unsafe(no_mangle)]
pub extern "C" fn jl_place(card: &[u8], candidate: u64, contour: &mut u64, within: &mut u64) -> u64
    ensures { pointed result contour.new within.new
        ≡ host_place (located_of card.now candidate) contour.old within.old }
{
    host::jl_place(card, candidate, contour, within)
}

// A piece of a card, kept in a lent byte room, with the state as a lent number. A refusal keeps them both.
#[unsafe(no_mangle)]
pub extern "C" fn jl_feed(state: &mut u64, held: &mut [u8], piece: &[u8]) -> u64
    ensures { host_fed result state.new held.new
        ≡ host_feed state.old held.old piece.now }
{
    host::jl_feed(state, held, piece)
}

// The end of a card in pieces: the tour, as `jl_tour` gives it of the whole. A refusal keeps what `jl_tour` would, and one for the byte room the
// state too.
#[unsafe(no_mangle)]
pub extern "C" fn jl_ask(
    state: &mut u64,
    held: &[u8],
    tour: &mut [u8],
    moves: &mut u64,
    length_bits: &mut u64,
) -> u64
    ensures { host_asked state.new (hosted result tour.new moves.new length_bits.new)
        ≡ host_ask state.old held.now tour.old moves.old length_bits.old }
{
    host::jl_ask(state, held, tour, moves, length_bits)
}

// The bridges of a contour, eight numbers each at the front of a room for the most there are. A refusal keeps the room.
#[unsafe(no_mangle)]
pub extern "C" fn jl_bridges(
    contour: &[f64],
    width: f64,
    centres: &[f64],
    room: &mut [f64; NUMBERS],
) -> u64
    ensures { spanned result room.new
        ≡ host_bridges contour.now width centres.now room.old }
{
    host::jl_bridges(contour, width, centres, room)
}
