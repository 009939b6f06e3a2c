// A rack, and its calls.
ghost use Rattle.std.specs.Prelude.{◌≡◌, true, false, length, Some, MatchResult};
ghost use Rattle.racks.specs.Sound.{Sound};

use crate::held::Held;
pub use crate::place::PLACES;
use crate::place::Place;
use crate::refusal::{RackRefusal, Refused};
use crate::stage::Stage;
use crate::ticket::{AnyTicket, Opened, OpenedTicket, StartedTicket, Ticket};
use formats::answers::Related;
use std::array;

// Its number, the tree number of the tags that it takes, and its places. Each held tag is of that tree number.
#[derive(Drop)]
pub struct Rack {
    number: u16,
    tree: u16,
    places: [Place; PLACES],
    ghost sound: { Sound tree places },
}

// The calls. Each answers what the model answers to it in the state before, and leaves the model's state after it: that is what
// this crate promises, so that the contract of each call says it.
impl Rack {
    ghost use Rattle.formats.specs.Layout.{tree_of};
    ghost use Rattle.histories.specs.Model.{fresh, opens, starts, adds, covers, closes, compares, abandons, after, answer, refuses, hands, spends, started, traded, cell, put};
    ghost use Rattle.histories.specs.Promises.{Promises, the_rack};
    ghost use Rattle.racks.specs.Sound.{held_bytes};
    ghost use Rattle.racks.specs.Views.{state_of, opened_of, started_of, ticket_of, named, fitting, refusal_of, open_said, start_said, add_said, cover_said, close_said, compare_said, output_of};

    // A new rack: the two numbers as they are given, whatever they are, and every place empty. It keeps the promises.
    pub fn new(rack_number: u16, tree_number: u16) -> Rack
        ensures made { state_of result ≡ fresh rack_number tree_number }
        ensures promises { Promises the_rack rack_number tree_number }
    {
        Rack {
            number: rack_number,
            tree: tree_number,
            places: array::from_fn(|_| Place::Empty),
        }
    }

    // Opens an empty place.
    pub fn open(&mut self, place: usize) -> Result<OpenedTicket, RackRefusal>
        ensures answers { open_said result ≡ answer (state_of self.old) (opens place) }
        ensures leaves { state_of self.new ≡ after (state_of self.old) (opens place) }
    {
        let found = self.places.get(place).ok_or(RackRefusal::NoSuchPlace)?;
        if !matches!(found, Place::Empty) {
            return Err(RackRefusal::NotEmpty);
        }
        // By number: through `get_mut` the proof did not close, since each way out then has to show anew that the rack is sound.
        self.places[place] = Place::Opened;
        Ok(Ticket {
            rack: self.number,
            place,
            stage: Opened,
        })
    }

    // Puts a first tag on an opened place, and trades the ticket for a started one.
    pub fn start(
        &mut self,
        ticket: OpenedTicket,
        tag: &[u8],
    ) -> Result<StartedTicket, Refused<OpenedTicket>>
        ensures answers { start_said result ≡ answer (state_of self.old) (starts (opened_of ticket) tag.now) }
        ensures leaves { state_of self.new ≡ after (state_of self.old) (starts (opened_of ticket) tag.now) }
    {
        // A match: either end takes the ticket, and a closure for `map_err` would take it from the other.
        match self.first_held(&ticket, tag) {
            Ok(held) => {
                self.places[ticket.place] = Place::Started(held);
                Ok(ticket.traded())
            }
            Err(why) => Err(Refused { why, ticket }),
        }
    }

    // Replaces the held tag by its cover with one more.
    pub fn add(&mut self, ticket: &StartedTicket, tag: &[u8]) -> Result<(), RackRefusal>
        ensures answers { add_said ticket.now result ≡ answer (state_of self.old) (adds (started_of ticket.now) tag.now) }
        ensures leaves { state_of self.new ≡ after (state_of self.old) (adds (started_of ticket.now) tag.now) }
    {
        let cover = self.held(ticket)?.joined_with(tag)?;
        self.places[ticket.place] = Place::Started(cover);
        Ok(())
    }

    // Writes the held tag over the front of `out`, and answers its length.
    pub fn cover(&self, ticket: &StartedTicket, out: &mut [u8]) -> Result<usize, RackRefusal>
        ensures answers { cover_said ticket.now result out.new ≡ answer (state_of self.now) (covers (started_of ticket.now) (length out.old)) }
        ensures output { out.new ≡ output_of (answer (state_of self.now) (covers (started_of ticket.now) (length out.old))) out.old }
    {
        self.held(ticket)?.write(out)
    }

    // How the nodes of the tags on two places stand to each other; it may be one place.
    pub fn compare(&self, first: usize, second: usize) -> Result<Related, RackRefusal>
        ensures { compare_said result ≡ answer (state_of self.now) (compares first second) }
    {
        let first = self.places.get(first).ok_or(RackRefusal::NoSuchPlace)?;
        let second = self.places.get(second).ok_or(RackRefusal::NoSuchPlace)?;
        match (first, second) {
            (Place::Started(a), Place::Started(b)) => a.related_to(b),
            _ => Err(RackRefusal::NotStarted),
        }
    }

    // Writes the held tag over the front of `out`, answers its length, empties the place and spends the ticket.
    pub fn close(
        &mut self,
        ticket: StartedTicket,
        out: &mut [u8],
    ) -> Result<usize, Refused<StartedTicket>>
        ensures answers { close_said result out.new ≡ answer (state_of self.old) (closes (started_of ticket) (length out.old)) }
        ensures leaves { state_of self.new ≡ after (state_of self.old) (closes (started_of ticket) (length out.old)) }
        ensures output { out.new ≡ output_of (answer (state_of self.old) (closes (started_of ticket) (length out.old))) out.old }
    {
        // A match, as in `start`.
        match self.cover(&ticket, out) {
            Ok(len) => {
                self.places[ticket.place] = Place::Empty;
                ticket.spend();
                Ok(len)
            }
            Err(why) => Err(Refused { why, ticket }),
        }
    }

    // Spends either ticket, empties the place if the ticket fits, and says whether it did.
    pub fn abandon(&mut self, ticket: AnyTicket) -> bool
        ensures answers { spends result ≡ answer (state_of self.old) (abandons (ticket_of ticket)) }
        ensures leaves { state_of self.new ≡ after (state_of self.old) (abandons (ticket_of ticket)) }
    {
        match ticket {
            AnyTicket::Opened(opened) => self.give_up(opened),
            AnyTicket::Started(started) => self.give_up(started),
        }
    }

    // The same of one kind of ticket.
    fn give_up<S: Stage>(&mut self, ticket: Ticket<S>) -> bool
        ensures answers { spends result ≡ answer (state_of self.old) (abandons (named S.stage ticket)) }
        ensures leaves { state_of self.new ≡ after (state_of self.old) (abandons (named S.stage ticket)) }
    {
        let fits = self.fits(&ticket);
        let place = ticket.place;
        ticket.spend();
        if fits {
            self.places[place] = Place::Empty;
        }
        fits
    }

    // Whether the ticket is of this rack, and its place in the state that it names.
    fn fits<S: Stage>(&self, ticket: &Ticket<S>) -> bool
        ensures { result ≡ fitting self.now (named S.stage ticket.now) }
    {
        ticket.rack == self.number && ticket.stage.is_of(&self.places[ticket.place])
    }

    // What the ticket's place is to hold, where the ticket fits and the rack takes the tag.
    fn first_held(&self, ticket: &OpenedTicket, tag: &[u8]) -> Result<Held, RackRefusal>
        ensures { let s = state_of self.now in
            let t = opened_of ticket.now in
            let call = starts t tag.now in
            MatchResult result (λ h. (answer s call ≡ hands (traded t)) × (after s call ≡ put s t.place (started (held_bytes h))) × (tree_of (held_bytes h) ≡ self.now.tree)) (λ e. (answer s call ≡ refuses (refusal_of e) (Some t)) × (after s call ≡ s)) }
    {
        if !self.fits(ticket) {
            return Err(RackRefusal::DoesNotFit);
        }
        Held::first(self.tree, tag)
    }

    // What the ticket's place holds, where the ticket fits.
    fn held(&self, ticket: &StartedTicket) -> Result<&Held, RackRefusal>
        ensures { let t = started_of ticket.now in
            MatchResult result (λ h. (fitting self.now t ≡ true) × (cell (state_of self.now) t.place ≡ started (held_bytes h.now)) × (tree_of (held_bytes h.now) ≡ self.now.tree)) (λ e. (e ≡ RackRefusal.DoesNotFit) × (fitting self.now t ≡ false)) }
    {
        match &self.places[ticket.place] {
            Place::Started(held) if self.fits(ticket) => Ok(held),
            _ => Err(RackRefusal::DoesNotFit),
        }
    }
}
