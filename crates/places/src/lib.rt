// What a part of a store means: the lemmas below a window, over any rising map of places. No code runs here; the one function carries a theorem.
#![tactic(auto)]

ghost use Rattle.places.specs.Parts.{SaysAll};

// What a part means says all of the store below, also the sectors that it does not show.
pub fn places_stand()
    ensures { SaysAll }
{}
