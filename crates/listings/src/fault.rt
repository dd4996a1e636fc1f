ghost use Rattle.std.specs.Prelude.{◌≡◌};
ghost use Rattle.listings.specs.declared.fault.ListingFault.TheVariants.{Memory};

use std::alloc::AllocError;

// Why nothing was written into a row. Each layer has an error enum of its own, and takes faults up by hand: a
// clause names the one that a question mark makes, which a derived `From` does not tell.
#[derive(Clone, Copy, Debug, PartialEq, Eq)]
pub enum ListingFault {
    // The row is too short for the text.
    ShortRow,
    // Memory was wanting.
    Memory,
}

impl From<AllocError> for ListingFault {
    ghost from_gives = { λ _ r. r ≡ Memory };

    fn from(_e: AllocError) -> ListingFault {
        ListingFault::Memory
    }
}
