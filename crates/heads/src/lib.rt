// Heads on the form (02 A11): the boxes that are ticked on a page, the heads that they say, and the quota left.
#![tactic(auto)]

ghost use Rattle.std.specs.Prelude.{◌≡◌};
ghost use Rattle.heads.specs.Form as Form;
ghost use Rattle.heads.specs.Form.{page_in, refusal, heads_on};
ghost use Rattle.heads.specs.Steps.{Sound};

mod boxes;
pub mod count;
pub mod numbers;
mod reading;
mod store;

// The right and bottom edges are not included.
#[derive(Clone, Copy)]
pub struct Box {
    pub left: u32,
    pub right: u32,
    pub top: u32,
    pub bottom: u32,
}

// The number of the list of answers; where it is 0, the heads, and the quota left, which may be below zero.
#[repr(C)]
#[derive(Clone, Copy)]
pub struct HeadsAnswer {
    pub number: u32,
    pub heads: u32,
    pub left: i32,
}

pub(crate) fn refused(number: u32) -> HeadsAnswer
    ensures { result ≡ refusal number }
{
    HeadsAnswer {
        number,
        heads: 0,
        left: 0,
    }
}

// On a page that passed test 8: 11, then 13, and then what is ticked says 0 or 12.
pub(crate) fn on_page(
    columns: u32,
    changes: &[u32],
    ends: &[u64],
    marks: &[u8],
    form: [[Box; 2]; 10],
    least: u64,
    quota: i32,
) -> HeadsAnswer
    requires { Sound columns changes.now ends.now marks.now }
    ensures { result ≡ heads_on (page_in columns changes.now ends.now) marks.now form least quota }
{
    if !boxes::given(form, least, quota) {
        return refused(answer::BAD_FORM);
    }
    if !boxes::clean(columns, ends.len(), marks, form) {
        return refused(answer::MENDED_ROW);
    }
    let table = boxes::tick_table(columns, changes, ends, form);
    reading::heads_in(table, least, quota)
}

// A page as the decoder left it in its store, a form of ten rows of a tens box and a units box, the count from which a cell is
// ticked, and a quota.
pub fn heads(
    columns: u32,
    changes: &[u32],
    ends: &[u64],
    marks: &[u8],
    form: [[Box; 2]; 10],
    least: u64,
    quota: i32,
) -> HeadsAnswer
    ensures { result ≡ Form.heads columns changes.now ends.now marks.now form least quota }
{
    if !store::sound(columns, changes, ends, marks) {
        return refused(answer::BAD_ROWS);
    }
    on_page(columns, changes, ends, marks, form, least, quota)
}
