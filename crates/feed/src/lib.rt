// A card that arrives in pieces, in a byte room that the caller lends to each call; the first asking is the end. Each call decides
// its answer whatever the state says.
#![tactic(auto)]

ghost use Rattle.std.specs.Prelude.{◌≡◌, ◌<◌, ◌≤◌, length};
ghost use Rattle.fields.specs.Limits.{card_bytes};
ghost use Rattle.feed.specs.Feed.{begun, taken_of, filled, stored, add_of, reply, ask_of};

use answer::{Fault, Refusal};
use fields::CARD_BYTES;
use solve::Outcome;

// How far a card has come: the bytes kept, whether there were more than the longest card has, whether it was asked about.
#[derive(Clone, Copy)]
pub struct Feed {
    pub kept: usize,
    pub over: bool,
    pub ended: bool,
}

// Writes the bytes of a piece that are kept behind those kept before, and answers how many they are.
fn keep(kept: usize, held: &mut [u8], piece: &[u8]) -> usize
    requires { 0 < length piece.now → card_bytes ≤ length held.old }
    ensures value { result ≡ taken_of kept (length piece.now) }
    ensures held_after { held.new ≡ filled kept held.old piece.now }
{
    let n = piece.len().min(CARD_BYTES.saturating_sub(kept));
    // A state may say more than a byte room has: where nothing is taken, there is no place to write at.
    if n == 0 {
        return 0;
    }
    held[kept..kept + n].copy_from_slice(&piece[..n]);
    n
}

impl Feed {
    // Before the first piece.
    pub fn begin() -> Feed
        ensures { result ≡ begun }
    {
        Feed {
            kept: 0,
            over: false,
            ended: false,
        }
    }

    // A piece: its bytes are kept in the byte room behind those kept before, as many as the longest card takes. A refusal changes
    // nothing.
    #[tactic(auto, unfolding(crate::specs::Feed::add_of, crate::specs::Feed::piece_check, answer::specs::Stage::first_refusal))]
    pub fn add(&mut self, held: &mut [u8], piece: &[u8]) -> Result<usize, Refusal>
        ensures { stored self.new result held.new ≡ add_of self.old held.old piece.now }
    {
        if self.ended {
            return Err(Fault::Ended.at(0));
        }
        if !piece.is_empty() && held.len() < CARD_BYTES {
            return Err(Fault::Room.at(CARD_BYTES));
        }
        let n = keep(self.kept, held, piece);
        self.kept += n;
        self.over |= n < piece.len();
        Ok(self.kept)
    }

    // The end: the tour of the bytes kept. An asking in a byte room that is too small is not the end, and the state stays.
    #[tactic(auto, unfolding(crate::specs::Feed::ask_of, crate::specs::Feed::ask_check))]
    pub fn ask(
        &mut self,
        held: &[u8],
        room: &mut [u8],
        table: &mut [f64],
    ) -> Result<Outcome, Refusal>
        ensures { reply self.new result room.new table.new ≡ ask_of self.old held.now room.old table.old }
    {
        if held.len() < CARD_BYTES {
            return Err(Fault::Room.at(CARD_BYTES));
        }
        self.ended = true;
        if self.over {
            return Err(Fault::Length.at(CARD_BYTES + 1));
        }
        let n = self.kept.min(held.len());
        tour::tour(&held[..n], room, table)
    }
}
