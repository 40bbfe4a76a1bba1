// The words of the lines: a phrase for each thing that is said, all of them one text, a line for each.
ghost use Rattle.std.specs.Prelude.{◌≡◌, ◌≤◌};
ghost use Rattle.ledger.specs.Phrases as Phrases;
ghost use Rattle.ledger.specs.Phrases.{words, lined, plain_at, missing_at, is_of_one_number, is_of_no_line, reason_at};

use crate::Verdict;

// How many phrases stand before those of the numbers from 1 on, and the one for a number that no verdict on a page has.
const BEFORE_REASONS: usize = 7;

const NO_ANSWER: usize = 16;

// Where the phrases of some numbers begin.
const TICKS: usize = 50;

const MENDED: usize = 54;

const ROWS: usize = 58;

const UNCLEAN: usize = 59;

const DOUBT: usize = 61;

const DOUBT_ABOVE: usize = 63;

const MISSING: usize = 64;

pub(crate) const ALONE: usize = 69;

pub(crate) fn phrases() -> [u8; 2942]
    ensures { result ≡ lined words }
{
    *b"\tA\tH\tN\tcounted\n\
        \tA\tH\t-N\tover by N\n\
        \tA\t-\tN\tA: \n\
        \tA\t-\t-N\tA: \n\
        total\tK\tI\tN\tP pages, G counted, K to be looked at\n\
        total\tK\tI\t-N\tP pages, G counted, K to be looked at; over by N\n\
        total\tK\tI\tN\t1 page, G counted, K to be looked at\n\
        total\tK\tI\t-N\t1 page, G counted, K to be looked at; over by N\n\
        a code that stands in no table, or a row that does not fit, at byte B, bit E, row O\n\
        the data ends inside a code, at byte B, bit E, row O\n\
        a run or a move that is out of range, at byte B, bit E, row O\n\
        more changes of colour than the tool holds\n\
        more rows than the tool holds\n\
        no page has 4294967295 columns\n\
        more than 4294967296 bytes\n\
        the rows are out of order\n\
        no answer that a page has\n\
        no answer that a page has\n\
        the form's boxes are out of order\n\
        (said by its lines below)\n\
        (said by its lines below)\n\
        fewer rows than were asked for\n\
        no answer that a page has\n\
        the page is read C columns wide, and the form's page is L wide\n\
        bytes behind the page: C; a second page?\n\
        the page has C rows, and the form's page has L to M\n\
        (said by its lines below)\n\
        the place of the form's line F has C black pixels, and must have L or more\n\
        the place of the form's line F has C black pixels, and may have M at most\n\
        (said by its lines below)\n\
        the page's end-of-line marks stop before its end\n\
        the page's bits are not those that a writer writes for its rows: they part at bit C\n\
        the form fits at two places of the page, and they read other heads: L and M\n\
        the form's line F is none of a form\n\
        the form's line F says what a line above it says\n\
        the form's line F has numbers out of order\n\
        the form's line F is one place too many\n\
        (said by its lines below)\n\
        the form's line F lies outside its page\n\
        the form's line F overlaps another box\n\
        no room for the form's boxes\n\
        a form has at most 65536 bytes\n\
        the form has L to M rows and no black or white place: it serves exact reading alone\n\
        there is no such file\n\
        the file cannot be read\n\
        a folder, and no file\n\
        the file is empty\n\
        the file is longer than the tool holds\n\
        neither the name's ending nor --encoding says how the page is written\n\
        fewer bytes could be read than the file has\n\
        the tens column has no tick\n\
        the tens column has C ticks\n\
        the units column has no tick\n\
        the units column has C ticks\n\
        the box of tens D touches row O, which was cut to the width\n\
        the box of tens D touches row O, which was recovered\n\
        the box of units D touches row O, which was cut to the width\n\
        the box of units D touches row O, which was recovered\n\
        the page has C rows, and the form's page has L\n\
        row O was cut to the width, and the form rests on it\n\
        row O was recovered, and the form rests on it\n\
        the box of tens D has C black pixels: in doubt from L on, ticked from M on\n\
        the box of units D has C black pixels: in doubt from L on, ticked from M on\n\
        the form's doubt is above its tick\n\
        the form has no line that says its page\n\
        the form has no line that says its tick\n\
        the form has a shift, and no black or white place to find it by\n\
        the form has no box of tens D\n\
        the form has no box of units D\n\
        A: \n\
        A: done\n"
}

pub(crate) fn one(b: bool) -> usize
    ensures value { result ≡ Phrases.one b }
    ensures upper_bound { result ≤ 1 }
{
    usize::from(b)
}

// The phrase of a number by itself. From 32 on it is the next one.
fn plain_at(number: u32) -> usize
    ensures { result ≡ plain_at number }
{
    if number <= crate::OTHER_TICKS {
        return BEFORE_REASONS + number as usize;
    }
    if number < crate::NO_FORM_LINE {
        return NO_ANSWER;
    }
    if crate::CUT_FILE < number {
        return NO_ANSWER;
    }
    1 + number as usize
}

// The page, the tick, the place or the box that is missing.
fn missing_at(v: Verdict) -> usize
    ensures { result ≡ missing_at v }
{
    let which = v.which;
    let units = one(which % 2 != 0);
    if which < 20 {
        return MISSING + 3 + units;
    }
    if which == 20 {
        return MISSING;
    }
    if which == 21 {
        return MISSING + 1;
    }
    MISSING + 2
}

// Other rows than a form says that has one number of them.
fn is_of_one_number(v: Verdict) -> bool
    ensures { result ≡ is_of_one_number v }
{
    v.number == crate::OTHER_ROWS && v.least == v.most
}

// A doubt above the tick is the fault of no line.
fn is_of_no_line(v: Verdict) -> bool
    ensures { result ≡ is_of_no_line v }
{
    v.number == crate::BAD_NUMBERS && v.line == 0
}

// The phrase of a verdict's reason.
pub(crate) fn reason_at(v: Verdict) -> usize
    ensures { result ≡ reason_at v }
{
    let number = v.number;
    let count = v.count;
    let units = one(v.which % 2 != 0);
    if number == answer::NOT_ONE_TICK {
        return TICKS + 2 * units + one(0 < count);
    }
    if number == answer::MENDED_ROW {
        return MENDED + 2 * units + one(1 < count);
    }
    if number == crate::UNCLEAN_ROW {
        return UNCLEAN + one(1 < count);
    }
    if number == crate::IN_DOUBT {
        return DOUBT + units;
    }
    if number == crate::MISSING_LINE {
        return missing_at(v);
    }
    if is_of_one_number(v) {
        return ROWS;
    }
    if is_of_no_line(v) {
        return DOUBT_ABOVE;
    }
    plain_at(number)
}
