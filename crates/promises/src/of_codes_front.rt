// Calls of the public functions of codes::front, each with the contract that its promises are about.
ghost use Rattle.std.specs.Prelude.{◌≡◌, true, ◌/◌, ◌^◌, ◌<◌, length, get_or};
ghost use Rattle.rules.specs.Lookup.{lookup_table};
ghost use Rattle.tables.specs.Tables.{colour_of};
ghost use Rattle.codes.specs.Fronts.{Fronted};

use codes::front::Front;

pub fn top13(bits: u64) -> usize
    ensures { (result ≡ bits / 2 ^ 51) × (result < 8192) }
{
    codes::front::top13(bits)
}

pub fn front_run(table: &[u16], top: usize, bits: u64) -> Front
    requires { (top < 8192) × (length table.now ≡ 8192) }
    ensures { Fronted table.now (get_or table.now top 0) bits result }
{
    codes::front::front_run(table, top, bits)
}

pub fn front_run_of(colour: usize, top: usize, bits: u64) -> Front
    requires { top < 8192 }
    ensures { Fronted (lookup_table (colour_of colour)) (get_or (lookup_table (colour_of colour)) top 0) bits result }
{
    codes::front::front_run_of(colour, top, bits)
}

pub fn front_run_by(lent: bool, table: &[u16], colour: usize, top: usize, bits: u64) -> Front
    requires { (top < 8192) × (lent ≡ true → table.now ≡ lookup_table (colour_of colour)) }
    ensures { Fronted (lookup_table (colour_of colour)) (get_or (lookup_table (colour_of colour)) top 0) bits result }
{
    codes::front::front_run_by(lent, table, colour, top, bits)
}
