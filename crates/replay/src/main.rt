// Runs over the fixed list of cards in data/ and writes the list of each; what is due was made from the original's answers. Each card
// stands after its length, a number of four bytes.
#![tactic(auto)]

ghost use Rattle.std.specs.Prelude.{◌≤◌, length};

use fields::CARD_BYTES;
use std::fs;
use std::io::{Read, Stdout};

// One byte more than the longest card has.
const ROOM: usize = CARD_BYTES + 1;

// More cards than there are: the run ends with the file.
const MOST: usize = 100_000;

// Reads until the room is full, the input ends or a read fails, and answers how many bytes it put to the front of the room. (As in
// `cutlist`: a program cannot cite a program, and as a public function of a library it would need a contract that decides its answer,
// which no read of the system gives. `read_exact` does not say how many bytes came before the end, and `read_to_end` fills a `Vec`,
// of which this library has none.)
fn read_full<R: Read>(input: &mut R, room: &mut [u8]) -> usize
    ensures { result ≤ length room.new }
{
    let mut done = 0;
    while done < room.len() {
        match input.read(&mut room[done..]) {
            Ok(0) => return done,
            Ok(n) => done += n,
            Err(_) => return done,
        }
    }
    done
}

// The list of the next card of the file, if there is one.
fn next<R: Read>(file: &mut R, out: &Stdout) -> bool {
    let mut size = [0u8; 4];
    if read_full(file, &mut size) < 4 {
        return false;
    }
    let count = block::u32_at(&size, 0) as usize;
    let mut buffer = [0u8; ROOM];
    // A length that no card has: the room stays empty.
    let n = if count <= ROOM {
        read_full(file, &mut buffer[..count])
    } else {
        0
    };
    list::show_card(&buffer[..n], out);
    true
}

// The list of each card of the file, in its order. Where the file cannot be opened, a line on standard error says why.
fn main(rt: HostRuntime) {
    let path = "cards";
    match fs::open(&rt, path) {
        Ok(mut file) => {
            let out = rt.stdout();
            for _ in 0..MOST {
                if !next(&mut file, &out) {
                    return;
                }
            }
        }
        Err(error) => {
            let _ = eprintln!(rt; "{path}: {error}");
        }
    }
}
