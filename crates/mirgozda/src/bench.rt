// The present rack, the tickets in hand, and the calls that a script makes with them.
use crate::drawer::{Drawer, spend};
use crate::refusal::Refusal;
use formats::answers::Related;
use racks::rack::Rack;
use racks::refusal::{RackRefusal, Refused};
use racks::ticket::{AnyTicket, StartedTicket};

// Tickets cannot be let go, so neither can a bench: `end` spends them.
pub struct Bench {
    rack: Option<Rack>,
    drawer: Drawer,
}

impl Bench {
    pub fn new() -> Bench {
        Bench {
            rack: None,
            drawer: Drawer::new(),
        }
    }

    // A new rack takes the place of the present one; tickets in hand stay in hand.
    pub fn set_rack(&mut self, rack: Rack) {
        self.rack = Some(rack);
    }

    // Puts in what is in hand for a place whose ticket was taken out, so that none lies there.
    fn put(&mut self, place: usize, slot: Option<AnyTicket>) {
        if let Some(ticket) = self.drawer.put(place, slot) {
            let _ = spend(&mut self.rack, ticket);
        }
    }

    // Opens a place, unless its ticket is in hand already.
    pub fn open(&mut self, place: usize) -> Result<(), Refusal> {
        let rack = self.rack.as_mut().ok_or(Refusal::NoRack)?;
        if self.drawer.has(place) {
            return Err(Refusal::TicketInHand { place });
        }
        let ticket = rack.open(place)?;
        self.put(place, Some(AnyTicket::Opened(ticket)));
        Ok(())
    }

    // Trades the opened ticket for a place for a started one. It is no call of `with_started`, since both kinds of ticket can be left.
    pub fn start(&mut self, place: usize, tag: &[u8]) -> Result<(), Refusal> {
        let rack = self.rack.as_mut().ok_or(Refusal::NoRack)?;
        match self.drawer.take(place) {
            Some(AnyTicket::Opened(ticket)) => match rack.start(ticket, tag) {
                Ok(started) => {
                    self.put(place, Some(AnyTicket::Started(started)));
                    Ok(())
                }
                Err(Refused { why, ticket }) => {
                    self.put(place, Some(AnyTicket::Opened(ticket)));
                    Err(Refusal::from(why))
                }
            },
            other => {
                self.put(place, other);
                Err(Refusal::NoOpenedTicket { place })
            }
        }
    }

    // Makes a call with the started ticket for a place; what the call gives back of it stays in hand.
    fn with_started<
        T,
        F: FnOnce(&mut Rack, StartedTicket) -> (Option<StartedTicket>, Result<T, RackRefusal>),
    >(&mut self, place: usize, call: F) -> Result<T, Refusal>
        requires { F.IsAlwaysCallable call }
    {
        let slot = self.drawer.take(place);
        match (slot, &mut self.rack) {
            (Some(AnyTicket::Started(ticket)), Some(rack)) => {
                let (left, done) = call(rack, ticket);
                self.put(place, left.map(AnyTicket::Started));
                Ok(done?)
            }
            (slot, _) => {
                self.put(place, slot);
                Err(Refusal::NoStartedTicket { place })
            }
        }
    }

    // Adds a tag to what a place holds.
    pub fn add(&mut self, place: usize, tag: &[u8]) -> Result<(), Refusal> {
        if self.rack.is_none() {
            return Err(Refusal::NoRack);
        }
        self.with_started(place, |rack, ticket| {
            let added = rack.add(&ticket, tag);
            (Some(ticket), added)
        })
    }

    // Writes the tag that a place holds, and answers its length.
    pub fn held(&mut self, place: usize, room: &mut [u8]) -> Result<usize, Refusal> {
        self.with_started(place, |rack, ticket| {
            let written = rack.cover(&ticket, room);
            (Some(ticket), written)
        })
    }

    // The same, and the place is empty and the ticket spent.
    pub fn close(&mut self, place: usize, room: &mut [u8]) -> Result<usize, Refusal> {
        self.with_started(place, |rack, ticket| match rack.close(ticket, room) {
            Ok(n) => (None, Ok(n)),
            Err(Refused { why, ticket }) => (Some(ticket), Err(why)),
        })
    }

    // How the nodes of the tags that two places hold stand to each other.
    pub fn compare(&self, first: usize, second: usize) -> Result<Related, Refusal> {
        let rack = self.rack.as_ref().ok_or(Refusal::NoRack)?;
        Ok(rack.compare(first, second)?)
    }

    // Spends the ticket for a place, and says whether that emptied the place; none where no ticket is in hand.
    pub fn abandon(&mut self, place: usize) -> Option<bool> {
        let ticket = self.drawer.take(place)?;
        Some(spend(&mut self.rack, ticket))
    }

    // Spends every ticket that is in hand.
    pub fn end(self) {
        let Bench { mut rack, drawer } = self;
        drawer.end(&mut rack);
    }
}
