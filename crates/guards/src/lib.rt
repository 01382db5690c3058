// What the programs of a patrol share: the cards of a shift, a round with a door skipped, and what is shown of a round.
#![tactic(auto)]

mod cards;
mod report;

pub use cards::{Wands, lay_cards};
pub use report::{SKIPPED, opened, sectors, verdict, without};
