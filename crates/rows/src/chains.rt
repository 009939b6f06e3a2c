// Words of a list of weights that stand at the nodes of a chain of links.
ghost use Rattle.std.specs.Prelude.{◌≡◌, ℕ, ◌<◌, ◌≤◌, List, map, length, take, IfSome};
ghost use Rattle.std.specs.Iterator.{YieldsFirst, item_count};
ghost use Rattle.codes.specs.Weighing.{Weights};
ghost use Rattle.rows.specs.Chains.{Rising, Stored, Wide, at, link, chain, ahead};

use codes::code::Code;
use codes::item::Item;
use codes::rows::WordRows;
use std::marker::Model;

// The node that a number in a row of links stands for: 0 is none. The work memory is handed in as numbers, so links are stored so.
pub fn link(number: u16) -> Option<usize>
    ensures { result ≡ link number }
{
    match number {
        0 => None,
        node => Some(node as usize),
    }
}

// The nodes along links that rise, from one on. A proof sees the list of those that are still to come.
#[derive(Drop)]
pub struct Links<'a> {
    next: &'a [u16],
    at: Option<usize>,
}

impl<'a> Model for Links<'a> {
    ghost Value = { List ℕ };

    ghost view = { λ l. ahead l.next.now l.at };

    ghost invariant = { λ l. Rising l.next.now × IfSome l.at (λ c. c < length l.next.now) };
}

impl<'a> Links<'a> {
    // Begins at a node.
    pub fn along(next: &'a [u16], from: usize) -> Links<'a>
        requires rising { Rising next.now }
        requires inside { from < length next.now }
        ensures { result ≡ chain next.now from }
    {
        Links {
            next,
            at: Some(from),
        }
    }
}

impl<'a> Iterator for Links<'a> {
    type Item = usize;

    ghost next_gives = { YieldsFirst (λ l. l) };

    ghost remaining = { item_count (λ l. l) };

    #[tactic(auto, using(crate::proofs::Runs::chain_more))]
    fn next(&mut self) -> Option<usize> {
        let c = self.at?;
        self.at = link(self.next[c]);
        Some(c)
    }
}

// Links that rise, with a weight at each node. Many chains run along the same links, so the node where one begins is given beside them.
#[derive(Clone, Copy)]
pub struct Chains<'a> {
    pub next: &'a [u16],
    pub weight: &'a [u16],
    ghost rising: { Rising next.now },
    ghost weighed: { length weight.now ≡ length next.now },
}

// What words are made in: a list for the weights along one chain, and the rows that the words go to, of as many numbers each. The code
// is given beside it: were it in here, each function that writes here would have to say that it stays the same.
#[derive(Drop)]
pub struct Desk<'a> {
    pub list: &'a mut [u16],
    pub words: WordRows<'a>,
    pub ghost wide: { Wide (length list.now) words.high.now words.low.now words.len.now },
}

// Puts the weights of the nodes along the links to the front of a list, and answers that front.
#[tactic(auto, using(crate::proofs::Runs::listed_more))]
fn list_weights<'a>(chains: &Chains, from: usize, list: &'a mut [u16]) -> &'a [u16]
    requires inside { from < length chains.now.next.now }
    requires room { length list.old ≡ length chains.now.next.now }
    ensures { result.now ≡ map (at chains.now.weight.now) (chain chains.now.next.now from) }
{
    // How many there are is counted by hand, since the front is as long.
    let mut many = 0;
    for c in Links::along(chains.next, from) {
        list[many] = chains.weight[c];
        many += 1;
    }
    &list[..many]
}

// Stores the words of a list at the nodes along the links.
fn put_words<C: Code>(code: &C, chains: &Chains, from: usize, list: &[u16], words: &mut WordRows)
    requires inside { from < length chains.now.next.now }
    requires wide { Wide (length chains.now.next.now) words.old.high.now words.old.low.now words.old.len.now }
    requires fine { Weights list.now }
    requires many { length list.now ≡ length (chain chains.now.next.now from) }
    ensures stored { Stored (C.words code.now list.now) (chain chains.now.next.now from) words.old.high.now words.old.low.now words.old.len.now words.new.high.now words.new.low.now words.new.len.now }
    ensures wide { Wide (length chains.now.next.now) words.new.high.now words.new.low.now words.new.len.now }
{
    let mut item = Item::at(list, 0);
    for c in Links::along(chains.next, from) {
        // The list is accepted, so each of its items has a word.
        let word = code.word(&item).unwrap();
        words.put(c, word);
        item = item.next();
    }
}

// Stores at each node along the links the word of its weight among theirs.
pub fn code_chain<C: Code>(code: &C, chains: &Chains, from: usize, desk: &mut Desk)
    requires inside { from < length chains.now.next.now }
    requires room { length desk.old.list.now ≡ length chains.now.next.now }
    requires fine { Weights (map (at chains.now.weight.now) (chain chains.now.next.now from)) }
    ensures stored { Stored (C.words code.now (map (at chains.now.weight.now) (chain chains.now.next.now from))) (chain chains.now.next.now from) desk.old.words.high.now desk.old.words.low.now desk.old.words.len.now desk.new.words.high.now desk.new.words.low.now desk.new.words.len.now }
    ensures room { length desk.new.list.now ≡ length chains.now.next.now }
{
    let weights = list_weights(chains, from, desk.list);
    put_words(code, chains, from, weights, &mut desk.words);
}
