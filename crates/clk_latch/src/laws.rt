//! Laws of what seats have seen and drawn.
ghost use Rattle.clk_latch.specs.Laws.{ReadingsStayRight, DrawnTicketsStay};

/// A reading that is right over the records that its seat had seen is right over all lists that go on from them: so
/// over the owner's, once the two seats are joined.
pub fn readings_stay_right()
    ensures { ReadingsStayRight }
{}

/// The tickets of an owner's records stay among the blocks of its time seat as that draws more and is joined with
/// others.
pub fn drawn_tickets_stay()
    ensures { DrawnTicketsStay }
{}
