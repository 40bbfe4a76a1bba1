// The books.
ghost use Rattle.std.specs.Prelude.{◌≡◌};
ghost use Rattle.ledger.specs.Books.{has_room, booked_in};

use crate::{Ledger, Verdict};

// Whether the books have room for a page more.
pub fn has_room(b: Ledger, v: Verdict) -> bool
    ensures { result ≡ has_room b v }
{
    b.pages < 4294967295
        && b.looked < 4294967295
        && u64::from(b.heads) + u64::from(v.heads) <= 4294967295
}

// The books behind a page; books that have no room for it stay as they are.
pub fn book(b: Ledger, v: Verdict) -> Ledger
    ensures { result ≡ booked_in b v }
{
    if !has_room(b, v) {
        return b;
    }
    if v.number == 0 {
        return Ledger {
            heads: b.heads + v.heads,
            pages: b.pages + 1,
            ..b
        };
    }
    Ledger {
        pages: b.pages + 1,
        looked: b.looked + 1,
        ..b
    }
}
