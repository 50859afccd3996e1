// The law of a listing that is written while the run goes on.
ghost use Rattle.listing_out.specs.Parts.{PartsMakeListing};

/// The lines of a run's tickets may be written part by part, and then its last lines: that is its listing.
pub fn parts_make_a_listing()
    ensures { PartsMakeListing }
{}
