// Packed rows: two rows of ten pixels with a byte between them, black 1 and black 0, and a stride that is too short; and read back, the
// second time with other bits behind the width. The number, the bytes and the six bytes after it; or the number, rows, entries, ends and
// changes.
use std::io;

fn painted(rt: &impl Print, one: bool, stride: u64) -> io::Result<()> {
    let changes = [2u32, 5, 8, 0];
    let ends = [3u64, 4];
    let mut out = [170u8; 6];
    let a = bitmap::paint(10, &changes, &ends, one, stride, &mut out);
    print!(rt; "painted\t{}\t{}", a.number, a.bytes)?;
    for byte in &out {
        print!(rt; "\t{byte}")?;
    }
    println!(rt)
}

fn read(rt: &impl Print, one: bool, src: &[u8]) -> io::Result<()> {
    let mut changes = [99u32; 4];
    let mut ends = [99u64; 2];
    let a = bitmap::unpaint(10, 2, one, 3, src, &mut changes, &mut ends);
    print!(rt; "read\t{}\t{}\t{}", a.number, a.rows, a.entries)?;
    for end in &ends {
        print!(rt; "\t{end}")?;
    }
    for change in &changes {
        print!(rt; "\t{change}")?;
    }
    println!(rt)
}

pub(crate) fn rows(rt: &impl Print) -> io::Result<()> {
    painted(rt, true, 3)?;
    painted(rt, false, 3)?;
    painted(rt, true, 1)?;
    read(rt, true, b"\x38\xc0\xaa\xff\xc0")?;
    read(rt, false, b"\xc7\x00\xaa\x00\x15")?;
    read(rt, true, b"\x38\xc0\xaa\xff")
}
