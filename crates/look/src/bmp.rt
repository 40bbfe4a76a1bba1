// A page as a bitmap file: its head; the rows are those of `bitmap::paint`, black as 1, with this stride.
ghost use Rattle.std.specs.Prelude.{◌≡◌, ◌%◌};
ghost use Rattle.look.specs.Bitmap.{stride_of, head_of, bitmap_head};

// The bytes from one row to the next.
pub fn stride(columns: u32) -> u64
    ensures { result ≡ stride_of columns }
{
    (columns as u64 + 31) / 32 * 4
}

// The byte of a number that stands for so many ones.
fn low(n: u64) -> u8
    ensures { result ≡ n % 256 }
{
    (n % 256) as u8
}

fn head_of(columns: u64, height: u64, file: u64, bytes: u64) -> [u8; 66]
    ensures { result ≡ head_of columns height file bytes }
{
    [
        b'B',
        b'M',
        low(file),
        low(file / 256),
        low(file / 65536),
        low(file / 16777216),
        0,
        0,
        0,
        0,
        66,
        0,
        0,
        0,
        40,
        0,
        0,
        0,
        low(columns),
        low(columns / 256),
        low(columns / 65536),
        low(columns / 16777216),
        low(height),
        low(height / 256),
        low(height / 65536),
        low(height / 16777216),
        1,
        0,
        1,
        0,
        0,
        0,
        0,
        0,
        low(bytes),
        low(bytes / 256),
        low(bytes / 65536),
        low(bytes / 16777216),
        0,
        0,
        0,
        0,
        0,
        0,
        0,
        0,
        2,
        0,
        0,
        0,
        2,
        0,
        0,
        0,
        255,
        255,
        255,
        0,
        0,
        0,
        0,
        0,
        0,
        0,
        0,
        0,
    ]
}

// The head of a picture of so many columns and rows.
pub fn bitmap_head(columns: u32, rows: u32) -> [u8; 66]
    ensures { result ≡ bitmap_head columns rows }
{
    let bytes = stride(columns) * rows as u64;
    head_of(columns as u64, 4294967296 - rows as u64, 66 + bytes, bytes)
}
