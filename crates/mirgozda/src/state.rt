// What a script has at hand.
use crate::any_host::{AnyHost, Source};
use crate::bench::Bench;
use crate::coding::Coding;
use crate::line::TagWord;
use crate::refusal::Refusal;
use sheets::look::look_up;
use std::alloc::Global;

// The tickets on the bench cannot be let go, so neither can this: `end` spends them.
pub struct State {
    pub heap: Global,
    pub source: Option<Source>,
    pub coding: Coding,
    pub sheet: Option<Vec<u8>>,
    pub bench: Bench,
}

impl State {
    pub fn new(heap: Global) -> State {
        State {
            heap,
            source: None,
            coding: Coding::GilbertMoore,
            sheet: None,
            bench: Bench::new(),
        }
    }

    // The present host.
    pub fn host(&self) -> Result<AnyHost<'_>, Refusal> {
        self.source
            .as_ref()
            .map(|source| source.host())
            .ok_or(Refusal::NoHost)
    }

    // The bytes of the present sheet.
    pub fn sheet(&self) -> Result<&[u8], Refusal> {
        self.sheet.as_deref().ok_or(Refusal::NoSheet)
    }

    // The bytes that a word stands for; those of a node are looked up on the present sheet.
    pub fn tag(&self, word: TagWord) -> Result<Vec<u8>, Refusal> {
        match word {
            TagWord::Bytes(bytes) => Ok(bytes),
            TagWord::Node(v) => Ok(look_up(self.sheet()?, v)?.to_vec(self.heap)?),
        }
    }

    // Spends what is in hand.
    pub fn end(self) {
        let State {
            heap: _,
            source: _,
            coding: _,
            sheet: _,
            bench,
        } = self;
        bench.end();
    }
}
