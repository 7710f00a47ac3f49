// Reads standard input to its end and writes the list of the card on it to standard output. Of an input longer than any card's what
// comes after the first byte too many is dropped: its refusal needs no more.
#![tactic(auto)]

ghost use Rattle.std.specs.Prelude.{◌≤◌, length};

use fields::CARD_BYTES;
use std::io;
use std::io::Read;

// One byte more than the longest card has.
const ROOM: usize = CARD_BYTES + 1;

// More parts of 65,536 bytes than any input has: the reading ends with the input.
const MOST: u64 = 1_000_000_000_000;

// Reads until the room is full, the input ends or a read fails, and answers how many bytes it put to the front of the room. (As in
// `replay`, which says why it is written twice and why no method of `Read` does it.)
fn read_full<R: Read>(input: &mut R, room: &mut [u8]) -> usize
    ensures { result ≤ length room.new }
{
    let mut done = 0;
    while done < room.len() {
        match input.read(&mut room[done..]) {
            Ok(0) => return done,
            Ok(n) => done += n,
            Err(_) => return done,
        }
    }
    done
}

// Reads a part of the rest and drops it. Was there any?
fn drop_part<R: Read>(input: &mut R) -> bool {
    let mut space = [0u8; 65536];
    read_full(input, &mut space) > 0
}

// Reads the rest and drops it.
fn drop_rest<R: Read>(input: &mut R) {
    for _ in 0..MOST {
        if !drop_part(input) {
            return;
        }
    }
}

// The list of the card on standard input.
fn main(rt: HostRuntime) {
    let mut input = rt.stdin();
    let mut buffer = [0u8; ROOM];
    let n = read_full(&mut input, &mut buffer);
    if n == ROOM {
        drop_rest(&mut input);
    }
    list::show_card(&buffer[..n], &rt.stdout());
}
