//! A law of cells: the contract of a function that does nothing.

ghost use Rattle.event_cells.specs.declared.cell.Cell.{Cell};
ghost use Rattle.event_cells.specs.Cells.{StandsFor, desk_in};

/// Each cell stands for an event of the theory, so that what is said of all that it stands for is said of one at least.
pub fn cells_stand<A: Drop>()
    ensures { (c : Cell A) → StandsFor c (desk_in c) }
{}
