// Prints every code of the five tables, for the gate to hold to the tables that T.4 prints (docs/DECISIONS.md, 91). A line has the
// colour, the run and the bits.
#![tactic(auto)]

use std::io;

fn put_bit(rt: &impl Print, word: u16, place: u16) -> io::Result<()> {
    if place < 16 && (word >> place) % 2 == 1 {
        print!(rt; "1")
    } else {
        print!(rt; "0")
    }
}

// The lowest `size` bits of a word, the highest of them first.
fn put_bits(rt: &impl Print, size: u16, word: u16) -> io::Result<()> {
    for place in (0..size).rev() {
        put_bit(rt, word, place)?;
    }
    Ok(())
}

// A row of a table: its run, how many bits its code has, and the bits.
fn put_code(rt: &impl Print, colour: &str, row: [u16; 3]) -> io::Result<()> {
    print!(rt; "{colour}\t{}\t", row[0])?;
    put_bits(rt, row[1], row[2])?;
    println!(rt)
}

fn put_table(rt: &impl Print, colour: &str, table: &[[u16; 3]]) -> io::Result<()> {
    for row in table {
        put_code(rt, colour, *row)?;
    }
    Ok(())
}

fn main(rt: HostRuntime) -> io::Result<()> {
    put_table(&rt, "white", &tables::white_terminating())?;
    put_table(&rt, "white", &tables::white_makeup())?;
    put_table(&rt, "black", &tables::black_terminating())?;
    put_table(&rt, "black", &tables::black_makeup())?;
    put_table(&rt, "both", &tables::common_makeup())
}
