// A card's list as a text: the stops of its tour, one to a line, or the one line of a refusal; and that text on standard output.
#![tactic(auto)]

ghost use Rattle.std.specs.Prelude.{◌≡◌, ◌≤◌, OnOk, min, length, take, Ok};
ghost use Rattle.std.specs.Io.KnownBytes.{Appends};
ghost use Rattle.card.specs.Verdict.{check_of};
ghost use Rattle.instance.specs.Gather.{way_of};
ghost use Rattle.instance.specs.Room.{instance_of};
ghost use Rattle.text.specs.Page.{over};
ghost use Rattle.text.specs.OnPage.{Puts};
ghost use Rattle.list.specs.Lines.{head_line, way_word, name_words, place_line, stop_lines, outcome_lines, tour_lines, refusal_line, list_of};
ghost use Rattle.list.specs.Fits.{longest};

use answer::{CutDirection, Refusal};
use closure::CONTOURS;
use instance::Instance;
use questions::Local;
use solve::Outcome;
use std::io;
use std::io::{Stdout, Write};
use table::ENTRIES;
use text::Page;

// The most bytes that the first line has, a stop's line, and the two last lines.
const HEAD_LONGEST: usize = 27;

const STOP_LONGEST: usize = 29;

const OUTCOME_LONGEST: usize = 50;

// No list is longer.
const LONGEST: usize = HEAD_LONGEST + STOP_LONGEST * CONTOURS + OUTCOME_LONGEST;

// Which job it is, and how many contours it has.
fn put_head(card: &[u8], page: &mut Page)
    ensures { Puts (head_line card.now) page.old page.new }
{
    let head = reader::read_head(card);
    page.put_number(b"JOB ", head.job);
    page.put_number(b" CONTOURS ", head.contours);
    page.put(b"\n");
}

// Which way round contour k is cut.
fn way(card: &[u8], k: usize) -> CutDirection
    ensures { result ≡ way_of card.now k }
{
    candidates::determine_direction(
        fields::contour_type(card, k),
        fields::exterior(card),
        fields::interior(card),
    )
}

// The end of a stop's line.
fn put_way(page: &mut Page, direction: CutDirection)
    ensures { Puts (way_word direction) page.old page.new }
{
    match direction {
        CutDirection::Ccw => page.put(b" ccw\n"),
        CutDirection::Cw => page.put(b" cw\n"),
    }
}

// Contour k's id and tag.
fn put_name(card: &[u8], k: usize, page: &mut Page)
    ensures { Puts (name_words card.now k) page.old page.new }
{
    let name = reader::contour_head(card, k);
    page.put_decimal(name.id);
    page.put_number(b" ", name.tag);
}

// A stop: the contour's id and tag, the candidate's number within it, and which way round it is cut.
fn put_place(card: &[u8], p: Local, page: &mut Page)
    ensures { Puts (place_line card.now p) page.old page.new }
{
    put_name(card, p.contour, page);
    page.put_number(b" ", p.within as u64);
    put_way(page, way(card, p.contour));
}

// All stops of a tour, in the order in which they are cut.
fn put_stops(card: &[u8], all: Instance, tour: &[u8], page: &mut Page)
    requires card_value { check_of card.now ≡ (Ok tt) }
    requires all_value { all ≡ instance_of card.now }
    ensures { Puts (stop_lines card.now tour.now) page.old page.new }
{
    for &stop in tour {
        put_place(card, questions::locate(all, usize::from(stop)), page);
    }
}

// The trials, and the bits of the length.
fn put_outcome(o: Outcome, page: &mut Page)
    ensures { Puts (outcome_lines o) page.old page.new }
{
    page.put_number(b"MOVES ", o.moves);
    page.put(b"\nRAPID ");
    page.put_hex(tour::bits_of(o.length));
    page.put(b"\n");
}

// The list of a tour.
fn put_tour(card: &[u8], tour: &[u8], o: Outcome, page: &mut Page)
    requires { check_of card.now ≡ (Ok tt) }
    ensures { Puts (tour_lines card.now tour.now o) page.old page.new }
{
    put_head(card, page);
    put_stops(card, instance::gather(card), tour, page);
    put_outcome(o, page);
}

// The one line of a refusal.
fn put_refusal(r: Refusal, page: &mut Page)
    ensures { Puts (refusal_line r) page.old page.new }
{
    page.put_number(b"REFUSED ", u64::from(r.number));
    page.put_number(b" AT ", r.place as u64);
    page.put(b"\n");
}

// ---- the list

// The list of a card, given as any bytes: that of its tour, or the one line of its refusal.
fn put_list(card: &[u8], page: &mut Page)
    ensures { Puts (list_of card.now) page.old page.new }
{
    let mut room = [0u8; CONTOURS];
    let mut distances = [0.0; ENTRIES];
    match tour::tour(card, &mut room, &mut distances) {
        Err(r) => put_refusal(r, page),
        Ok(o) => {
            let n = reader::read_head(card).contours as usize;
            put_tour(card, &room[..n], o, page)
        }
    }
}

// Writes the list of a card, given as any bytes, to the front of a page, as far as it reaches, and answers how many bytes that are. The
// page's rest is kept.
pub fn write_list(card: &[u8], page: &mut [u8]) -> usize
    ensures page_after { page.new ≡ over (list_of card.now) page.old }
    ensures value { result ≡ min (length (list_of card.now)) (length page.old) }
{
    let mut page = Page::new(page);
    put_list(card, &mut page);
    page.at
}

// The same on a page that is long enough for every list: the whole list.
fn write_whole(card: &[u8], page: &mut [u8]) -> usize
    requires { longest ≤ length page.old }
    ensures page_after { take result page.new ≡ list_of card.now }
    ensures value { result ≡ length (list_of card.now) }
{
    write_list(card, page)
}

// The list of a card, given as any bytes, to a writer: where no write fails, all of it and nothing else.
fn hand_over<W: Write>(card: &[u8], out: &mut W) -> io::Result<()>
    ensures { OnOk result (Appends (W.contents out.old) (W.contents out.new) (list_of card.now)) }
{
    let mut page = [0u8; LONGEST];
    let n = write_whole(card, &mut page);
    out.write_all(&page[..n])
}

// The list of a card, given as any bytes, on standard output. That it could not be written is no failure: nobody reads it then.
pub fn show_card(card: &[u8], out: &Stdout) {
    let mut writer = out;
    let _ = hand_over(card, &mut writer);
}
