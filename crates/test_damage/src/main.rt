// Damaged copies of booking forms that are drawn here for every number of heads: what the desk says of them, and what the tests said
// that came before it. A line has the encoding, the damage, how many copies there were, and by the desk how many were counted with the
// heads that were ticked, how many are to be looked at by what the reading answers, by what the page is (16 to 19), by what its
// pixels are (20 to 22) and by its ticks (11 to 13), and how many were counted with other heads; last, how many were by the old tests.
// A copy that the desk counts with other heads has a line of its own, with its seed. Behind the forms that lie at their places come
// those that lie aside of them and are looked for.
#![tactic(auto)]

mod asked;
mod copies;
mod damage;
mod form;
mod sheet;
mod tally;

use crate::damage::Damage;
use crate::tally::{Outcome, Tally};
use settings::EncodingMode;
use std::io;

// How many copies have their bytes damaged in one way, and how many their picture.
const OF_BYTES: u64 = 800;

const OF_PICTURES: u64 = 200;

// The zeros before each EOL, and K.
const FILL: u32 = 3;

const K: u32 = 4;

fn name(encoding: EncodingMode) -> &'static str {
    match encoding {
        EncodingMode::Group4 => "Group 4",
        EncodingMode::Group3_1D => "Group 3 1D",
        EncodingMode::Group3_2D => "Group 3 2D",
    }
}

// What a line is about: the encoding, whether the form is looked for, and the damage.
#[derive(Clone, Copy)]
struct Kind {
    encoding: EncodingMode,
    aside: bool,
    damage: Damage,
}

impl Kind {
    fn tell(self, rt: &impl Print) -> io::Result<()> {
        let place = if self.aside { ", looked for" } else { "" };
        let damage = damage::name(self.damage);
        print!(rt; "{}{place}\t{damage}", name(self.encoding))
    }
}

// Writes a page; how many bytes it has.
fn written(encoding: EncodingMode, changes: &[u32], ends: &[u64], out: &mut [u8]) -> usize {
    let columns = sheet::COLUMNS;
    let said = match encoding {
        EncodingMode::Group4 => writer::write_page(columns, changes, ends, out),
        EncodingMode::Group3_1D => writer::write_group3_1d(columns, changes, ends, true, FILL, out),
        EncodingMode::Group3_2D => writer::write_group3_2d(columns, changes, ends, K, out),
    };
    said.bytes as usize
}

// So many numbers of heads there are, and so many numbers of which one is drawn for a picture.
const HEADS: u64 = 100;

const LOTS: u64 = 65536;

// The heads that a form is drawn for: every number in turn.
fn heads_of(seed: u64) -> u32 {
    (seed % HEADS) as u32
}

// The heads that a copy may be counted with.
fn may(damage: Damage, heads: u32) -> Option<u32> {
    match damage {
        Damage::SecondTick | Damage::NoTick => None,
        _ => Some(heads),
    }
}

// A form is drawn and written, and a copy damaged; how many bytes the copy has.
fn copy(kind: Kind, seed: u64, out: &mut [u8]) -> usize {
    let mut changes = [0u32; 2048];
    let mut ends = [0u64; 512];
    let mut page = [0u8; 8192];
    let lot = (copies::start(kind.damage, seed) / 64 % LOTS) as u32;
    let number = (seed % LOTS) as u32;
    let form = sheet::drawn_for(kind.damage, kind.aside, heads_of(seed), number, lot);
    let rows = sheet::height(form);
    sheet::draw(form, rows, &mut changes, &mut ends);
    let kept = copies::front(&ends, rows as usize);
    let size = written(kind.encoding, &changes, kept, &mut page);
    copies::damaged(copies::front(&page, size), kind.damage, seed, out)
}

fn tell_wrong(rt: &impl Print, kind: Kind, seed: u64) -> io::Result<()> {
    print!(rt; "wrong\t")?;
    kind.tell(rt)?;
    println!(rt; "\t{seed}")
}

// What came of one copy, by the desk and by the old tests.
fn try_copy(rt: &impl Print, tally: &mut Tally, kind: Kind, seed: u64) -> io::Result<()> {
    let mut out = [0u8; 8224];
    let size = copy(kind, seed, &mut out);
    let src = copies::front(&out, size);
    let may = may(kind.damage, heads_of(seed));
    let came = tally::came(asked::by_desk(src, kind.encoding, kind.aside), may);
    if let Outcome::Wrong = came {
        tell_wrong(rt, kind, seed)?;
    }
    tally.count(came);
    tally.count_old(asked::by_old_tests(src, kind.encoding), may);
    Ok(())
}

fn line(rt: &impl Print, kind: Kind, copies: u64) -> io::Result<()> {
    let mut tally = Tally::default();
    for seed in 0..copies {
        try_copy(rt, &mut tally, kind, seed)?;
    }
    kind.tell(rt)?;
    print!(rt;
        "\t{copies}\t{}\t{}\t{}",
        tally.right, tally.reading, tally.page
    )?;
    println!(rt;
        "\t{}\t{}\t{}\t{}",
        tally.pixels, tally.ticks, tally.wrong, tally.old
    )
}

fn lines(rt: &impl Print, encoding: EncodingMode, aside: bool) -> io::Result<()> {
    let of = |damage| Kind {
        encoding,
        aside,
        damage,
    };
    line(rt, of(Damage::Nothing), OF_PICTURES)?;
    line(rt, of(Damage::RowLost), OF_PICTURES)?;
    line(rt, of(Damage::RowDoubled), OF_PICTURES)?;
    line(rt, of(Damage::Slid), OF_PICTURES)?;
    line(rt, of(Damage::SecondTick), OF_PICTURES)?;
    line(rt, of(Damage::NoTick), OF_PICTURES)?;
    line(rt, of(Damage::Bit), OF_BYTES)?;
    line(rt, of(Damage::Byte), OF_BYTES)?;
    line(rt, of(Damage::Bytes), OF_BYTES)?;
    line(rt, of(Damage::Zeros), OF_BYTES)?;
    line(rt, of(Damage::Cut), OF_BYTES)?;
    line(rt, of(Damage::Lost), OF_BYTES)?;
    line(rt, of(Damage::PutIn), OF_BYTES)
}

fn main(rt: HostRuntime) -> io::Result<()> {
    lines(&rt, EncodingMode::Group4, false)?;
    lines(&rt, EncodingMode::Group3_1D, false)?;
    lines(&rt, EncodingMode::Group3_2D, false)?;
    lines(&rt, EncodingMode::Group4, true)?;
    lines(&rt, EncodingMode::Group3_1D, true)?;
    lines(&rt, EncodingMode::Group3_2D, true)
}
