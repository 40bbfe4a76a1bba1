// The booking forms of examples/, whose bytes are the standard input, one behind the other: what is ticked on them. A line has its
// name, the number and the rows of the reading, and the number, the heads and the quota left of the heads.
use heads::Box;
use settings::{DecodeSettings, EncodingMode};
use std::io;
use std::io::{Input, Read};

// The insides of the twenty boxes (examples/README.md): for each digit its tens box and its units box.
fn boxes_of(top: u32, bottom: u32) -> [Box; 2] {
    [
        Box {
            left: 202,
            right: 224,
            top,
            bottom,
        },
        Box {
            left: 702,
            right: 724,
            top,
            bottom,
        },
    ]
}

fn form() -> [[Box; 2]; 10] {
    [
        boxes_of(78, 98),
        boxes_of(109, 129),
        boxes_of(140, 160),
        boxes_of(171, 191),
        boxes_of(202, 222),
        boxes_of(233, 253),
        boxes_of(264, 284),
        boxes_of(295, 315),
        boxes_of(326, 346),
        boxes_of(357, 377),
    ]
}

fn settings(encoding: EncodingMode, end_of_line: bool) -> DecodeSettings {
    DecodeSettings {
        columns: 1728,
        rows: 0,
        end_of_block: true,
        end_of_line,
        rows_are_byte_aligned: false,
        encoding,
        strict: false,
        exact: false,
        plain: false,
    }
}

// A tick has 54 black pixels, and a box without one has none.
fn party(
    rt: &impl Print,
    name: &str,
    src: &[u8],
    settings: DecodeSettings,
    quota: i32,
) -> io::Result<()> {
    let mut changes = [0u32; 8192];
    let mut ends = [0u64; 400];
    let mut marks = [0u8; 400];
    let answer = ccitt::decode(src, settings, &mut changes, &mut ends, &mut marks);
    let said = heads::heads(settings.columns, &changes, &ends, &marks, form(), 20, quota);
    print!(rt; "{name}\t{}\t{}", answer.number, answer.rows)?;
    println!(rt; "\t{}\t{}\t{}", said.number, said.heads, said.left)
}

// Reads until `buf` is full or the input ends.
fn fill<R: Read>(reader: &mut R, buf: &mut [u8]) -> io::Result<()> {
    let mut got = 0;
    while got < buf.len() {
        let n = reader.read(&mut buf[got..])?;
        if n == 0 {
            break;
        }
        got += n;
    }
    Ok(())
}

pub(crate) fn forms(rt: &(impl Print + Input)) -> io::Result<()> {
    let mut forty = [0u8; 972];
    fill(&mut rt.reader(), &mut forty)?;
    let group4 = settings(EncodingMode::Group4, false);
    party(rt, "forty.g4, quota 100", &forty, group4, 100)?;
    party(rt, "forty.g4, quota 39", &forty, group4, 39)?;
    let mut seventeen = [0u8; 3999];
    fill(&mut rt.reader(), &mut seventeen)?;
    let group3 = settings(EncodingMode::Group3_1D, true);
    party(rt, "seventeen.g31d, quota 17", &seventeen, group3, 17)?;
    party(
        rt,
        "seventeen.g31d, quota 1000001",
        &seventeen,
        group3,
        1000001,
    )?;
    seventeen[189] = 0;
    party(
        rt,
        "seventeen.g31d, a bad line above the boxes",
        &seventeen,
        group3,
        17,
    )?;
    seventeen[1294] = 0;
    party(
        rt,
        "seventeen.g31d, a bad line under a box",
        &seventeen,
        group3,
        17,
    )
}
