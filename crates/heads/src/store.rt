// Test 8 of a store with its marks, and where its rows lie.
ghost use Rattle.std.specs.Prelude.{◌≡◌, ◌≤◌, length};
ghost use Rattle.heads.specs.Form as Form;
ghost use Rattle.heads.specs.Steps.{end_after};

// Whether each of so many rows has a mark of the three.
fn marked(rows: usize, marks: &[u8]) -> bool
    ensures { result ≡ Form.marked rows marks.now }
{
    if marks.len() < rows {
        return false;
    }
    for k in 0..rows {
        if 2 < marks[k] {
            return false;
        }
    }
    true
}

pub(crate) fn sound(columns: u32, changes: &[u32], ends: &[u64], marks: &[u8]) -> bool
    ensures { result ≡ Form.sound columns changes.now ends.now marks.now }
{
    row_store::ascend(columns, changes, ends) && marked(ends.len(), marks)
}

// Where the first `rows` rows end.
pub(crate) fn end_after(ends: &[u64], rows: usize) -> usize
    requires { rows ≤ length ends.now }
    ensures { result ≡ end_after rows ends.now }
{
    if rows == 0 {
        return 0;
    }
    ends[rows - 1] as usize
}
