// A place of a rack.
use crate::held::Held;

// The places of a rack are the numbers below this.
pub const PLACES: usize = 16;

#[derive(Drop)]
pub(crate) enum Place {
    Empty,
    Opened,
    Started(Held),
}
