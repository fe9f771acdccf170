//! Laws of the table of pins, and worked pins. Each law is the contract of a function that does nothing.
ghost use Rattle.dsql_pin.specs.Laws.{FirstEndStays, HoldsUntilReleased};
ghost use Rattle.dsql_pin.specs.Worked.{WorkedPins};

/// The first end of a pin stays, whatever is pinned, held, released and ended later.
#[tactic(auto, using(crate::proofs::Ends::first_end_stays))]
pub fn the_first_end_stays()
    ensures { FirstEndStays }
{}

/// A pin holds what it holds until that is released, whatever ends the pin.
#[tactic(auto, using(crate::proofs::Ends::holds_until_released))]
pub fn a_pin_holds_until_it_releases()
    ensures { HoldsUntilReleased }
{}

/// Worked pins: which are found, what ended them, and what they hold.
pub fn worked_pins()
    ensures { WorkedPins }
{}
