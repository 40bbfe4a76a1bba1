// Lists a page of standard input: a line of settings, and then the data.
#![tactic(auto)]

ghost use Rattle.std.specs.Prelude.{◌≤◌, length, take, IfOk};
ghost use Rattle.settings.specs.Settings.{settings_of};
ghost use Rattle.listing_text.specs.Listed.{Prints};
ghost use Rattle.listing.specs.Program.{IsPrefixLen, room, most_input, page_text, Answers, AnswersRead};

use settings::DecodeSettings;
use std::io;
use std::io::Read;

fn page(src: &[u8], settings: DecodeSettings, out: &mut [u8]) -> usize
    requires { room ≤ length out.old }
    ensures { Prints out.old (page_text (settings_of settings) src.now) result out.new }
{
    let mut changes = [0u32; 8192];
    let mut ends = [0u64; 2048];
    let mut marks = [0u8; 2048];
    let answer = ccitt::decode(src, settings, &mut changes, &mut ends, &mut marks);
    listing_text::list(out, settings.columns, answer, &changes, &ends, &marks)
}

// What the program prints for its input.
fn text(input: &[u8], out: &mut [u8]) -> usize
    requires { room ≤ length out.old }
    ensures prefix_len { IsPrefixLen result out.new }
    ensures answers { Answers input.now (take result out.new) }
{
    let Some(parsed) = listing_text::settings_line::parse(input) else {
        return listing_text::bad_input(out);
    };
    let src = &input[parsed.at..];
    if src.len() > 16384 {
        return listing_text::bad_input(out);
    }
    page(src, parsed.settings, out)
}

// What the program prints, once it has asked for as many bytes as `input` has and got the first `got` of them.
fn answer(input: &[u8], got: usize, out: &mut [u8]) -> usize
    requires { (most_input ≤ length input.now) × (got ≤ length input.now) × (room ≤ length out.old) }
    ensures prefix_len { IsPrefixLen result out.new }
    ensures answers_read { AnswersRead (length input.now) (take got input.now) (take result out.new) }
{
    text(&input[..got], out)
}

// Reads until `buf` is full or the input ends, and answers how many bytes it has then.
fn read_full<R: Read>(reader: &mut R, buf: &mut [u8]) -> io::Result<usize>
    ensures { IfOk result (λ n. IsPrefixLen n buf.new) }
{
    let mut got = 0;
    while got < buf.len() {
        let n = reader.read(&mut buf[got..])?;
        if n == 0 {
            break;
        }
        got += n;
    }
    Ok(got)
}

fn main(rt: HostRuntime) -> io::Result<()> {
    let mut input = [0u8; 16421];
    let got = read_full(&mut rt.reader(), &mut input)?;
    let mut out = [0u8; 196608];
    let n = answer(&input, got, &mut out);
    rt.write_all(&out[..n])
}
