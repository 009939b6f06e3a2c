// Writing over a part of an output.
ghost use Rattle.std.specs.Prelude.{◌+◌, ◌≤◌, length};
ghost use Rattle.writing.specs.Writes.{Wrote};

// Some bytes, from a place on.
#[tactic(auto, using(crate::proofs::Puts::wrote_part))]
pub fn put(out: &mut [u8], at: usize, bytes: &[u8])
    requires { at + length bytes.now ≤ length out.old }
    ensures { Wrote at bytes.now out.old out.new }
{
    out[at..at + bytes.len()].copy_from_slice(bytes);
}
