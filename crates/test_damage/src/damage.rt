// What happens to a form on its way: to its picture before it is written, or to its bytes.

// The picture's come first. Rows that have slid lie one box lower, as many as before: what lies in a box lies in the next one. From
// the number of a damage its copies are drawn.
#[derive(Clone, Copy)]
pub(crate) enum Damage {
    Nothing = 11,
    RowLost = 7,
    RowDoubled = 8,
    Slid = 12,
    SecondTick = 9,
    NoTick = 10,
    Bit = 0,
    Byte = 1,
    Bytes = 2,
    Zeros = 3,
    Cut = 4,
    Lost = 5,
    PutIn = 6,
}

// What a line says of it.
pub(crate) fn name(damage: Damage) -> &'static str {
    match damage {
        Damage::Nothing => "none",
        Damage::RowLost => "a row lost",
        Damage::RowDoubled => "a row doubled",
        Damage::Slid => "all rows one box lower",
        Damage::SecondTick => "a second tick in a column",
        Damage::NoTick => "no tick in a column",
        Damage::Bit => "one bit",
        Damage::Byte => "one byte",
        Damage::Bytes => "up to 16 bytes",
        Damage::Zeros => "up to 32 zeros in a row",
        Damage::Cut => "cut",
        Damage::Lost => "1 to 16 bytes lost",
        Damage::PutIn => "1 to 16 bytes put in",
    }
}
