// The two lent forms (01), by their functions with plain parameters: a reader in a local that is lent to `consume`, `align` and
// `peek_u32`, and a line in a local that is lent to `push_pixels`.
use reader::cursor;
use std::io;

// The bits taken, the answer, and the word behind them.
fn show_word(rt: &impl Print, src: &[u8], n: usize) -> io::Result<()> {
    let word = reader::word_after(src, n);
    let number = cursor::number(word.answer);
    println!(rt; "word\t{n}\t{number}\t{}", word.bits)
}

// The number, the line's five fields, and the first entry.
fn show_run(rt: &impl Print, width: u32, colour: u32, count: u32, strict: bool) -> io::Result<()> {
    let mut changes = [99u32; 1];
    let pushed = lent::first_run(width, colour, &mut changes, count, strict);
    let line = pushed.line;
    print!(rt; "run\t{}\t{}\t{}", pushed.number, line.width, line.position)?;
    println!(rt;
        "\t{}\t{}\t{}\t{}",
        line.changes, line.colour, line.cut, changes[0]
    )
}

pub(crate) fn forms(rt: &impl Print) -> io::Result<()> {
    let data = b"\x12\x34\x56\x78\x9a\xbc\xde\xf0";
    show_word(rt, data, 0)?;
    show_word(rt, data, 3)?;
    show_word(rt, data, 40)?;
    show_word(rt, data, 64)?;
    show_word(rt, data, 65)?;
    show_run(rt, 10, 0, 4, true)?;
    show_run(rt, 10, 1, 4, true)?;
    show_run(rt, 10, 1, 11, true)?;
    show_run(rt, 10, 1, 11, false)?;
    show_run(rt, 4294967295, 0, 4, true)?;
    show_run(rt, 10, 2, 4, true)
}
