// What a line of a form file says.
ghost use Rattle.std.specs.Prelude.{◌≡◌, List, ℕ, ◌≤◌, length, drop};
ghost use Rattle.form_file.specs.Words.{words_of, values_of};
ghost use Rattle.form_file.specs.Said.{box_said, page_said, one_said, place_said, proper_said, shift_said, by_word, line_says};
ghost use Rattle.form_file.specs.declared.said.Said.TheVariants.{Tick as tick, Doubt as doubt};
ghost use Rattle.form_file.specs.Steps.{words_in, Numbers, Valued};

use crate::words;
use heads::Box;

// The kinds of a place.
const WHITE: u32 = 0;

const BLACK: u32 = 1;

// What a line says. A box has its number, 2 x digit, and 1 more for units; a place is black (1) or white (0).
#[derive(Clone, Copy)]
pub enum Said {
    Nothing,
    Square(u32, Box),
    Page(u32, u32, u32),
    Tick(u32),
    Doubt(u32),
    Place(u32, Box, u32),
    Proper,
    Shift(u32, u32),
    Wrong,
}

// The numbers behind a line's first word: how many words there are, whether each is a number, and the first five.
#[derive(Clone, Copy)]
struct Values {
    count: usize,
    held: bool,
    n: [u32; 5],
}

// The numbers of all words from a place on. The count goes on past five, so that a line with too many words is told from one with five.
fn values_in(line: &[u8], from: usize) -> Values
    requires { from ≤ length line.now }
    ensures { Valued result (values_of (words_in (drop from line.now))) }
{
    let mut n = [0u32; 5];
    let mut count = 0;
    let mut held = true;
    let mut at = words::word_start(line, from);
    while at < line.len() {
        let end = words::word_end(line, at);
        let value = words::value(&line[at..end]);
        if words::NONE <= value {
            held = false;
        } else if count < 5 {
            n[count] = value as u32;
        }
        count += 1;
        at = words::word_start(line, end);
    }
    Values { count, held, n }
}

// `tens` and `units`: a digit and its box.
fn square(column: u32, v: Values) -> Said
    requires { column ≤ 1 }
    ensures { (ns : List ℕ) → Numbers v ns → result ≡ box_said column ns }
{
    let n = v.n;
    if v.count != 5 {
        return Said::Wrong;
    }
    if 9 < n[0] {
        return Said::Wrong;
    }
    let b = Box {
        left: n[1],
        right: n[2],
        top: n[3],
        bottom: n[4],
    };
    Said::Square(2 * n[0] + column, b)
}

// `page`: a page of one height has two numbers.
fn page_in(v: Values) -> Said
    ensures { (ns : List ℕ) → Numbers v ns → result ≡ page_said ns }
{
    let n = v.n;
    if v.count == 2 {
        return Said::Page(n[0], n[1], n[1]);
    }
    if v.count == 3 {
        return Said::Page(n[0], n[1], n[2]);
    }
    Said::Wrong
}

// `black` and `white`: a place and its number of pixels.
fn place_in(kind: u32, v: Values) -> Said
    ensures { (ns : List ℕ) → Numbers v ns → result ≡ place_said kind ns }
{
    let n = v.n;
    if v.count != 5 {
        return Said::Wrong;
    }
    let b = Box {
        left: n[0],
        right: n[1],
        top: n[2],
        bottom: n[3],
    };
    Said::Place(kind, b, n[4])
}

// `tick` and `doubt`: one function for both would take what is said as a closure, and a contract over that is no plainer than two of them.
fn tick_in(v: Values) -> Said
    ensures { (ns : List ℕ) → Numbers v ns → result ≡ one_said tick ns }
{
    let n = v.n;
    if v.count != 1 {
        return Said::Wrong;
    }
    Said::Tick(n[0])
}

fn doubt_in(v: Values) -> Said
    ensures { (ns : List ℕ) → Numbers v ns → result ≡ one_said doubt ns }
{
    let n = v.n;
    if v.count != 1 {
        return Said::Wrong;
    }
    Said::Doubt(n[0])
}

// `proper`: no number.
fn proper_in(v: Values) -> Said
    ensures { (ns : List ℕ) → Numbers v ns → result ≡ proper_said ns }
{
    if v.count != 0 {
        return Said::Wrong;
    }
    Said::Proper
}

// `shift`: to either side, and up or down.
fn shift_in(v: Values) -> Said
    ensures { (ns : List ℕ) → Numbers v ns → result ≡ shift_said ns }
{
    let n = v.n;
    if v.count != 2 {
        return Said::Wrong;
    }
    Said::Shift(n[0], n[1])
}

// What a line says whose first word is this one, and all others are numbers.
fn by_word(word: &[u8], v: Values) -> Said
    ensures { (ns : List ℕ) → Numbers v ns → result ≡ by_word word.now ns }
{
    if words::same(word, b"tens") {
        return square(0, v);
    }
    if words::same(word, b"units") {
        return square(1, v);
    }
    if words::same(word, b"page") {
        return page_in(v);
    }
    if words::same(word, b"tick") {
        return tick_in(v);
    }
    if words::same(word, b"doubt") {
        return doubt_in(v);
    }
    if words::same(word, b"black") {
        return place_in(BLACK, v);
    }
    if words::same(word, b"white") {
        return place_in(WHITE, v);
    }
    if words::same(word, b"proper") {
        return proper_in(v);
    }
    if words::same(word, b"shift") {
        return shift_in(v);
    }
    Said::Wrong
}

// A line that has no comment.
fn says(line: &[u8]) -> Said
    ensures { result ≡ line_says (words_in line.now) }
{
    let at = words::word_start(line, 0);
    if at == line.len() {
        return Said::Nothing;
    }
    let end = words::word_end(line, at);
    let v = values_in(line, end);
    if !v.held {
        return Said::Wrong;
    }
    by_word(&line[at..end], v)
}

// A line as it stands in the file.
pub(crate) fn line_says(line: &[u8]) -> Said
    ensures { result ≡ line_says (words_of line.now) }
{
    let end = words::uncommented(line);
    says(&line[0..end])
}
