// Calls of the public functions of context::reference, each with the contract that its promises are about.
ghost use Rattle.std.specs.Prelude.{◌≡◌, drop};
ghost use Rattle.rules.specs.Lines.{head_or};
ghost use Rattle.rules.specs.Pages.{ascends};
ghost use Rattle.tables.specs.Tables.{colour_of};
ghost use Rattle.context.specs.Places.{B1At};
ghost use Rattle.context.specs.Reference.{Searches, Finds};
ghost use Rattle.context.specs.Coding.{is_kept};

use context::reference::{FoundChanges, Reference};

pub fn change_or(row: &[u32], place: usize, width: u32) -> u32
    ensures { result ≡ head_or width (drop place row.now) }
{
    context::reference::change_or(row, place, width)
}

pub fn find(reference: &[u32], seen: usize, width: u32, position: u32, colour: u32) -> FoundChanges
    requires { Searches reference.now seen width position colour }
    ensures { Finds reference.now width position (colour_of colour) result }
{
    context::reference::find(reference, seen, width, position, colour)
}

pub fn b1_from(reference: &[u32], seen: usize, width: u32, position: u32, colour: u32) -> usize
    requires { Searches reference.now seen width position colour }
    ensures { B1At reference.now position colour result }
{
    context::reference::b1_from(reference, seen, width, position, colour)
}

pub fn ascends(row: &[u32], width: u32) -> bool
    ensures { result ≡ ascends width row.now }
{
    context::reference::ascends(row, width)
}

pub fn is_kept(place: Reference) -> bool
    ensures { result ≡ is_kept place }
{
    context::reference::is_kept(place)
}
