// The two lookup tables made of the code tables (tables.rs): an entry for each 13 bits.
#![tactic(auto)]

ghost use Rattle.std.specs.Prelude.{◌≡◌};
ghost use Rattle.rules.specs.Codes.{white, black};
ghost use Rattle.rules.specs.Lookup.{lookup_table};

mod lookup_black;
mod lookup_white;

// What each 13 bits begin with among the white codes.
pub fn white_lookup() -> [u16; 8192]
    ensures { result ≡ lookup_table white }
{
    lookup_white::WHITE_LOOKUP
}

// And among the black ones.
pub fn black_lookup() -> [u16; 8192]
    ensures { result ≡ lookup_table black }
{
    lookup_black::BLACK_LOOKUP
}
