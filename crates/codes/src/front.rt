// The run at the front of some bits, where it is short: one terminating code, or a make-up code and one, whose bits are all there.
ghost use Rattle.std.specs.Prelude.{◌≡◌, true, ◌/◌, ◌%◌, ◌^◌, ◌≤◌, ◌<◌, length, get_or};
ghost use Rattle.rules.specs.Lookup.{lookup_table};
ghost use Rattle.tables.specs.Tables.{colour_of};
ghost use Rattle.codes.specs.Fronts.{Fronted, Joined, behind_code};

use crate::run;

// A run and the bits of its codes; no pixels and no bits where it is no such run.
#[derive(Clone, Copy)]
pub struct Front {
    pub pixels: u32,
    pub size: usize,
}

// The next 13 bits.
pub fn top13(bits: u64) -> usize
    ensures { (result ≡ bits / 2 ^ 51) × (result < 8192) }
{
    (bits >> 51) as usize
}

// Of an entry that is no terminating code, and the one of the bits behind it: a make-up code, and a terminating code.
fn joined(first: u16, last: u16) -> Front
    requires { 64 ≤ first % 4096 }
    ensures { Joined first last result }
{
    let more = run::run_in(last);
    let run = run::run_in(first);
    if run == 4095 {
        return Front { pixels: 0, size: 0 };
    }
    if 63 < more {
        return Front { pixels: 0, size: 0 };
    }
    Front {
        pixels: run + more,
        size: run::size_in(first) + run::size_in(last),
    }
}

// The 13 bits behind an entry's code.
fn behind(bits: u64, first: u16) -> usize
    ensures { (result ≡ behind_code first bits) × (result < 8192) }
{
    top13(bits << run::size_in(first))
}

// The run at the front of `bits`, of which 26 are there. `top` is the first 13 of them, which a caller may know earlier.
pub fn front_run(table: &[u16], top: usize, bits: u64) -> Front
    requires { (top < 8192) × (length table.now ≡ 8192) }
    ensures { Fronted table.now (get_or table.now top 0) bits result }
{
    let first = table[top];
    let run = run::run_in(first);
    if run < 64 {
        return Front {
            pixels: run,
            size: run::size_in(first),
        };
    }
    let last = table[behind(bits, first)];
    joined(first, last)
}

// The same run of a colour, 0 for white, for a form that is lent no table.
pub fn front_run_of(colour: usize, top: usize, bits: u64) -> Front
    requires { top < 8192 }
    ensures { Fronted (lookup_table (colour_of colour)) (get_or (lookup_table (colour_of colour)) top 0) bits result }
{
    let first = squeezed::entry(colour, top);
    let run = run::run_in(first);
    if run < 64 {
        return Front {
            pixels: run,
            size: run::size_in(first),
        };
    }
    let last = squeezed::entry(colour, behind(bits, first));
    joined(first, last)
}

// By either, for a loop that serves both: by the colour's table where it is lent.
pub fn front_run_by(lent: bool, table: &[u16], colour: usize, top: usize, bits: u64) -> Front
    requires { (top < 8192) × (lent ≡ true → table.now ≡ lookup_table (colour_of colour)) }
    ensures { Fronted (lookup_table (colour_of colour)) (get_or (lookup_table (colour_of colour)) top 0) bits result }
{
    if lent {
        return front_run(table, top, bits);
    }
    front_run_of(colour, top, bits)
}
