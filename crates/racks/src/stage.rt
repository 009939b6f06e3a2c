// What the states that a ticket can name say of a place.
ghost use Rattle.std.specs.Prelude.{◌≡◌};
ghost use Rattle.histories.specs.Model.{Stage as Named, at_opened, at_started, at_stage};
ghost use Rattle.racks.specs.Views.{cell_of};

use crate::place::Place;
use crate::ticket::{Opened, Started};

pub(crate) trait Stage: Copy {
    ghost stage: { Named };

    // Whether the place is in this state.
    fn is_of(self, place: &Place) -> bool
        ensures { result ≡ at_stage (cell_of place.now) stage };
}

impl Stage for Opened {
    ghost stage = { at_opened };

    fn is_of(self, place: &Place) -> bool {
        matches!(place, Place::Opened)
    }
}

impl Stage for Started {
    ghost stage = { at_started };

    fn is_of(self, place: &Place) -> bool {
        matches!(place, Place::Started(_))
    }
}
