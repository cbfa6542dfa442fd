// The offer that a floor hands out.
use crate::ends::Ends;

// An accepted offer, which must be settled or withdrawn: it cannot be copied, and it cannot be let
// go. Its field is this crate's alone, so that no one can make one up.
pub struct Offer {
    pub(crate) ends: Ends,
}
