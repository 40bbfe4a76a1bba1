// What the order demands, as statements over the contracts of the public functions: see specs/. The functions here tie these
// statements to the source: each calls a public function and ensures the predicate that the promises are about. A function whose
// contract is weakened, or asks more, is refused here.
#![tactic(auto)]

pub mod of_answer;
pub mod of_bit_reader;
pub mod of_bit_reader_buffer;
pub mod of_bit_reader_zeros;
pub mod of_bitmap;
pub mod of_booking;
pub mod of_booking_reading;
pub mod of_by_row;
pub mod of_by_unit;
pub mod of_ccitt;
pub mod of_codes_eol;
pub mod of_codes_front;
pub mod of_codes_mode;
pub mod of_codes_plain;
pub mod of_codes_run;
pub mod of_context_line;
pub mod of_context_offset;
pub mod of_context_reference;
pub mod of_context_step;
pub mod of_exports;
pub mod of_form_file;
pub mod of_form_file_words;
pub mod of_group3;
pub mod of_group4;
pub mod of_heads;
pub mod of_heads_count;
pub mod of_heads_numbers;
pub mod of_ledger;
pub mod of_ledger_file;
pub mod of_lent;
pub mod of_listing_text_lines;
pub mod of_listing_text_put;
pub mod of_listing_text_settings_line;
pub mod of_listing_text_text_lines;
pub mod of_look;
pub mod of_one_line_line_1d;
pub mod of_one_line_line_2d;
pub mod of_one_line_one_code;
pub mod of_one_line_read;
pub mod of_proper;
pub mod of_reader;
pub mod of_reader_cursor;
pub mod of_row_store;
pub mod of_settings;
pub mod of_swift_loops;
pub mod of_swift_loops_lent_2d;
pub mod of_swift_loops_unlent_1d;
pub mod of_swift_units;
pub mod of_tables;
pub mod of_writer;

ghost use Rattle.std.specs.Prelude.{◌≡◌, take};
ghost use Rattle.promises.specs.Called.{HeadsOfDecoded};

use answer::Answer;
use heads::{Box, HeadsAnswer};
use settings::DecodeSettings;

// ---- A page that is decoded, and then its heads

#[derive(Clone, Copy)]
pub struct Told {
    pub page: Answer,
    pub heads: HeadsAnswer,
}

// The first row ends, and marks: all of them, where there are fewer.
fn front_ends(s: &[u64], n: usize) -> &[u64]
    ensures { result.now ≡ take n s.now }
{
    if n < s.len() {
        return &s[0..n];
    }
    s
}

fn front_marks(s: &[u8], n: usize) -> &[u8]
    ensures { result.now ≡ take n s.now }
{
    if n < s.len() {
        return &s[0..n];
    }
    s
}

pub fn heads_of_page(
    src: &[u8],
    settings: DecodeSettings,
    changes: &mut [u32],
    ends: &mut [u64],
    marks: &mut [u8],
    form: [[Box; 2]; 10],
    least: u64,
    quota: i32,
) -> Told
    ensures { HeadsOfDecoded src.now settings changes.old ends.old marks.old form least quota result changes.new ends.new marks.new }
{
    let page = ccitt::decode(src, settings, changes, ends, marks);
    let rows = page.rows as usize;
    let heads = heads::heads(
        settings.columns,
        changes,
        front_ends(ends, rows),
        front_marks(marks, rows),
        form,
        least,
        quota,
    );
    Told {
        page: page,
        heads: heads,
    }
}
