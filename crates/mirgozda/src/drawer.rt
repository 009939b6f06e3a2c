// The tickets that a script has in hand, by place.
use racks::rack::{PLACES, Rack};
use racks::ticket::AnyTicket;
use std::{array, mem};

pub struct Drawer {
    slots: [Option<AnyTicket>; PLACES],
}

// Spends a ticket, and says whether that emptied its place. Any rack spends any ticket, and a ticket ends
// only by a rack, so one is made for it where there is none.
pub fn spend(rack: &mut Option<Rack>, ticket: AnyTicket) -> bool {
    match rack {
        Some(rack) => rack.abandon(ticket),
        None => Rack::new(0, 0).abandon(ticket),
    }
}

// Spends the tickets of four slots.
fn spend_four(rack: &mut Option<Rack>, slots: [Option<AnyTicket>; 4]) {
    let [a, b, c, d] = slots;
    spend_slot(rack, a);
    spend_slot(rack, b);
    spend_slot(rack, c);
    spend_slot(rack, d);
}

fn spend_slot(rack: &mut Option<Rack>, slot: Option<AnyTicket>) {
    if let Some(ticket) = slot {
        let _ = spend(rack, ticket);
    }
}

impl Drawer {
    pub fn new() -> Drawer {
        Drawer {
            slots: array::from_fn(|_| None),
        }
    }

    // Whether a ticket for a place is in hand.
    pub fn has(&self, place: usize) -> bool {
        self.slots.get(place).is_some_and(|slot| slot.is_some())
    }

    // Takes the ticket for a place out of the drawer.
    pub fn take(&mut self, place: usize) -> Option<AnyTicket> {
        self.put(place, None)
    }

    // Puts a ticket in for a place, or none, and gives back what lay there; a ticket for a place that no rack has is given back
    // itself. Both are for the caller to spend, so one answer tells enough.
    pub fn put(&mut self, place: usize, slot: Option<AnyTicket>) -> Option<AnyTicket> {
        match self.slots.get_mut(place) {
            Some(old) => mem::replace(old, slot),
            None => slot,
        }
    }

    // Ends the drawer: every ticket that is left is spent. An array goes into a loop by value only where its elements may be let go,
    // so its slots have names.
    pub fn end(self, rack: &mut Option<Rack>) {
        let Drawer { slots } = self;
        let [a, b, c, d, e, f, g, h, i, j, k, l, m, n, o, p] = slots;
        spend_four(rack, [a, b, c, d]);
        spend_four(rack, [e, f, g, h]);
        spend_four(rack, [i, j, k, l]);
        spend_four(rack, [m, n, o, p]);
    }
}
