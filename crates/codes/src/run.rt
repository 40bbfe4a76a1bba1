// Runs of one colour, by the entries of its lookup table one by one: where runs come often the swift loops read them, by a table if one
// is lent.
ghost use Rattle.std.specs.Prelude.{◌≡◌, ◌/◌, ◌%◌, ◌≤◌, drop};
ghost use Rattle.rules.specs.Bits.{bits_of};
ghost use Rattle.rules.specs.Plain.{by_lookup};
ghost use Rattle.rules.specs.Runs.{sum, run_step};
ghost use Rattle.tables.specs.Tables.{colour_of};
ghost use Rattle.bit_reader.specs.Loaded.{Loading};
ghost use Rattle.codes.specs.Plain.{found_of};
ghost use Rattle.codes.specs.Runs.{Reading, RunRead, code_of, Addable, summed};

use crate::Fault;
use crate::plain::{Code, LostCode};
use answer::DecodeError;
use bit_reader::buffer;
use bit_reader::buffer::Buffer;

// A sum of runs, where it is counted in 64 bits.
pub(crate) const MOST_SUM: usize = answer::MOST_PIXELS as usize;

// An entry has its run in the low 12 bits, and the length of its code above them.
pub(crate) fn run_in(entry: u16) -> u32
    ensures { result ≡ entry % 4096 }
{
    (entry % 4096) as u32
}

pub(crate) fn size_in(entry: u16) -> usize
    ensures { (result ≡ entry / 4096) × (result ≤ 15) }
{
    (entry / 4096) as usize
}

// The run of a colour, and the buffer behind it: 0 is white, any other number black.
pub fn read_run(colour: usize, src: &[u8], start: Buffer) -> Result<(u32, Buffer), Fault>
    requires { Reading src.now start }
    ensures { RunRead (colour_of colour) src.now start.at result }
{
    let mut b = start;
    let mut sum: u32 = 0;
    let total = loop {
        let at = b.at;
        let top = buffer::top13(b);
        let entry = squeezed::entry(colour, top);
        let run = run_in(entry);
        // The zeros that are seen past the end never complete a code: its bits must all be there.
        let Some(next) = buffer::feed(src, b, size_in(entry)) else {
            return Err(Fault::new(DecodeError::UnexpectedEof, at));
        };
        if run == 4095 {
            return Err(Fault::new(DecodeError::InvalidCode, at));
        }
        if answer::MOST_PIXELS - run < sum {
            return Err(Fault::new(DecodeError::Overflow, at));
        }
        b = next;
        sum += run;
        if run < 64 {
            break sum;
        }
    };
    Ok((total, b))
}

// One code of a run, with the sum so far: the last code, or a make-up code, each with the bit after it.
#[derive(Clone, Copy)]
pub enum RunCode {
    Last(u32, usize),
    More(u32, usize),
}

// The code of a colour that begins at a bit, by its lookup table. The zeros that are seen past the end never complete a code: its
// bits must all be there.
pub fn look_up(colour: usize, src: &[u8], at: usize) -> Result<Code, LostCode>
    requires { Loading src.now at }
    ensures { found_of result ≡ by_lookup (colour_of colour) (drop at (bits_of src.now)) }
{
    let top = bit_reader::peek13(src, at);
    let entry = squeezed::entry(colour, top);
    let run = run_in(entry);
    let size = size_in(entry);
    let left = 8 * src.len() - at;
    if left < size {
        return Err(LostCode {
            error: DecodeError::UnexpectedEof,
            taken: left,
        });
    }
    if run == 4095 {
        return Err(LostCode {
            error: DecodeError::InvalidCode,
            taken: size,
        });
    }
    Ok(Code {
        run: run as usize,
        taken: size,
    })
}

// What a code makes of the sum so far, whichever engine found it.
pub(crate) fn add_code(
    found: Result<Code, LostCode>,
    at: usize,
    total: u32,
) -> Result<RunCode, Fault>
    requires { Addable at found }
    ensures { code_of result ≡ summed (sum at total) (found_of found) }
{
    let code = found.map_err(|lost| Fault::new(lost.error, at))?;
    let sum = total as usize + code.run;
    if MOST_SUM < sum {
        return Err(Fault::new(DecodeError::Overflow, at));
    }
    let next = at + code.taken;
    if code.run < 64 {
        return Ok(RunCode::Last(sum as u32, next));
    }
    Ok(RunCode::More(sum as u32, next))
}

// One step of `read_run`, for a form that may stop between make-up codes (A9). The page form does not call it.
pub fn read_code(colour: usize, src: &[u8], at: usize, total: u32) -> Result<RunCode, Fault>
    requires { Loading src.now at }
    ensures { code_of result ≡ run_step (colour_of colour) (bits_of src.now) (sum at total) }
{
    let found = look_up(colour, src, at);
    add_code(found, at, total)
}
