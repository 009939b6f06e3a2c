// Tickets. A ticket cannot be copied, made outside of this crate or let go: it is traded, closed or abandoned.
ghost use Rattle.std.specs.Prelude.{◌≡◌, ◌<◌};
ghost use Rattle.histories.specs.Model.{place_count};

// The state of a place that is opened.
#[derive(Clone, Copy)]
pub struct Opened;

// The state of a place that is started.
#[derive(Clone, Copy)]
pub struct Started;

// The right to a place of a rack that is in the state `S`.
pub struct Ticket<S> {
    pub(crate) rack: u16,
    pub(crate) place: usize,
    pub(crate) stage: S,
    ghost inside: { place < place_count },
}

// The right to start an opened place.
pub type OpenedTicket = Ticket<Opened>;

// The right to a started place.
pub type StartedTicket = Ticket<Started>;

// Either of them. The variant says which, in as many words as a `From` for each kind would take.
pub enum AnyTicket {
    Opened(OpenedTicket),
    Started(StartedTicket),
}

impl<S: Copy> Ticket<S> {
    // Ends the ticket.
    pub(crate) fn spend(self) {
        let Ticket {
            rack: _,
            place: _,
            stage: _,
        } = self;
    }
}

impl OpenedTicket {
    // The ticket that this one is traded for once its place is started.
    pub(crate) fn traded(self) -> StartedTicket
        ensures rack { result.rack ≡ self.rack }
        ensures place { result.place ≡ self.place }
    {
        let Ticket {
            rack,
            place,
            stage: Opened,
        } = self;
        Ticket {
            rack,
            place,
            stage: Started,
        }
    }
}
