// Whether rows of a width lie in so many bytes, a stride from one to the next.
ghost use Rattle.std.specs.Prelude.{◌≡◌, ◌≤◌};
ghost use Rattle.rules.specs.Rows.{bytes_to};
ghost use Rattle.bitmap.specs.Packed.{fit_tests, reach};
ghost use Rattle.bitmap.specs.Outcome.{Refuses};

// The bytes of one row.
pub(crate) fn row_size(width: u32) -> usize
    ensures { result ≡ bytes_to width }
{
    (width as usize + 7) / 8
}

// 6, 7, 10 and 9, in this order; nothing where all are passed. The last test divides, since a product may pass 64 bits.
pub(crate) fn refused(width: u32, stride: usize, rows: usize, size: usize) -> Option<u32>
    ensures { Refuses (fit_tests width stride rows size) result }
{
    if width == 0 || width == answer::MOST_PIXELS {
        return Some(answer::BAD_WIDTH);
    }
    if answer::MOST_BYTES < size {
        return Some(answer::TOO_LONG);
    }
    let row = row_size(width);
    if stride < row {
        return Some(answer::BAD_NUMBER);
    }
    if rows == 0 {
        return None;
    }
    if size < row {
        return Some(answer::NO_FIT);
    }
    if (size - row) / stride < rows - 1 {
        return Some(answer::NO_FIT);
    }
    None
}

// The byte after so many rows.
pub(crate) fn end_of(width: u32, stride: usize, rows: usize, size: usize) -> usize
    requires { reach width stride rows ≤ size }
    ensures { result ≡ reach width stride rows }
{
    if rows == 0 {
        return 0;
    }
    (rows - 1) * stride + row_size(width)
}
