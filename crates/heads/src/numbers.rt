// A form as eighty numbers in one array, as C lends it: for each digit from 0 to 9 its tens box, then its units box, each as left,
// right, top and bottom.
ghost use Rattle.std.specs.Prelude.{◌≡◌, ◌+◌, ◌≤◌, length};
ghost use Rattle.heads.specs.Numbers.{box_in, form_in, heads_from};

use crate::{Box, HeadsAnswer, store};

fn box_in(numbers: &[u32], at: usize) -> Box
    requires { at + 4 ≤ length numbers.now }
    ensures { result ≡ box_in numbers.now at }
{
    Box {
        left: numbers[at],
        right: numbers[at + 1],
        top: numbers[at + 2],
        bottom: numbers[at + 3],
    }
}

fn form_in(numbers: &[u32]) -> [[Box; 2]; 10]
    requires { length numbers.now ≡ 80 }
    ensures { result ≡ form_in numbers.now }
{
    let blank = Box {
        left: 0,
        right: 0,
        top: 0,
        bottom: 0,
    };
    let mut form: [[Box; 2]; 10] = [[blank; 2]; 10];
    for digit in 0..10 {
        form[digit] = [box_in(numbers, 8 * digit), box_in(numbers, 8 * digit + 4)];
    }
    form
}

// As `heads`; an array of another length is no form, which is 11.
pub fn heads_from(
    columns: u32,
    changes: &[u32],
    ends: &[u64],
    marks: &[u8],
    boxes: &[u32],
    least: u64,
    quota: i32,
) -> HeadsAnswer
    ensures { result ≡ heads_from columns changes.now ends.now marks.now boxes.now least quota }
{
    if !store::sound(columns, changes, ends, marks) {
        return crate::refused(answer::BAD_ROWS);
    }
    if boxes.len() != 80 {
        return crate::refused(answer::BAD_FORM);
    }
    crate::on_page(columns, changes, ends, marks, form_in(boxes), least, quota)
}
