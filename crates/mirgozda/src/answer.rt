// Chooses the command of a line.
use crate::bench::Bench;
use crate::refusal::Refusal;
use crate::state::State;
use crate::{coding, hosts, jobs, pressing, scans};
use tags::queries::{cover, difference, relate};
use trees::rule::Shape;

// Carries out the command of these words. Each command takes what is at hand, its words and the output apart: of one struct of the
// three, each would borrow every part again.
pub fn carry_out(
    rt: &HostRuntime,
    state: &mut State,
    words: &[&str],
    out: &mut Vec<u8>,
) -> Result<(), Refusal> {
    let [name, rest @ ..] = words else {
        return Err(Refusal::NotUnderstood);
    };
    match *name {
        "levels" => hosts::levels(state, rest, out),
        "list" => hosts::list(rt, state, rest, out),
        "chain" => hosts::rule(state, Shape::Chain, rest, out),
        "star" => hosts::rule(state, Shape::Star, rest, out),
        "binary" => hosts::rule(state, Shape::Binary, rest, out),
        "verdict" => hosts::verdict(state, rest, out),
        "parent" => hosts::parent(state, rest, out),
        "meet" => hosts::meeting(state, rest, out),
        "code" => coding::code(state, rest, out),
        "word" => coding::word(state, rest, out),
        "read" => scans::read(state, rest, out),
        "cut" => scans::cutting(state, rest, out),
        "difference" => scans::on_two(state, rest, out, difference),
        "cover" => scans::on_two(state, rest, out, cover),
        "relate" => scans::on_two(state, rest, out, relate),
        "press" => pressing::pressing(state, rest, out),
        "sheet" => pressing::show_sheet(state, rest, out),
        "save" => pressing::save(rt, state, rest, out),
        "load" => pressing::load(rt, state, rest, out),
        "tag" => pressing::show_tag(state, rest, out),
        "rack" => jobs::rack(state, rest, out),
        "open" => jobs::open(state, rest, out),
        "start" => jobs::bring(state, rest, out, Bench::start, "started"),
        "add" => jobs::bring(state, rest, out, Bench::add, "added"),
        "held" => jobs::write_held(state, rest, out, Bench::held, "tag"),
        "compare" => jobs::compare(state, rest, out),
        "close" => jobs::write_held(state, rest, out, Bench::close, "closed"),
        "abandon" => jobs::abandon(state, rest, out),
        _ => Err(Refusal::NotUnderstood),
    }
}
