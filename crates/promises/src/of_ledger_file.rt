// Calls of the public functions of ledger_file, each with the contract that its promises are about.
ghost use Rattle.std.specs.Prelude.{◌≡◌};
ghost use Rattle.ledger_file.specs.Page.{page_line_of};
ghost use Rattle.ledger_file.specs.Resume.{resumed};
ghost use Rattle.ledger_file.specs.Sums.{AddsUp};

use ledger::Ledger;
use ledger_file::{AddedUp, PageLine, Resumed};

pub fn page_line(line: &[u8]) -> PageLine
    ensures { result ≡ page_line_of line.now }
{
    ledger_file::page_line(line)
}

pub fn resume(line: &[u8], name: &[u8], b: Ledger) -> Resumed
    ensures { result ≡ resumed line.now name.now b }
{
    ledger_file::resume(line, name, b)
}

pub fn add_up(text: &[u8], quota: i32, starts: &mut [u64]) -> AddedUp
    ensures { AddsUp text.now quota starts.old result starts.new }
{
    ledger_file::add_up(text, quota, starts)
}
