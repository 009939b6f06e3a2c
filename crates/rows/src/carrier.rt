// The twelve rows of the work memory.
ghost use Rattle.std.specs.Prelude.{◌≡◌, ◌*◌, ◌≤◌, length};
ghost use Rattle.rows.specs.Chains.{Wide};

use codes::rows::WordRows;

// How many rows there are.
pub const ROWS: usize = 12;

// Rows of one length, each by what it holds first. They are rows of numbers side by side, and no row of structs, since the work memory is
// handed in as numbers.
#[derive(Drop)]
pub struct Rows<'a> {
    pub parent: &'a mut [u16],
    pub size: &'a mut [u16],
    pub heavy: &'a mut [u16],
    pub light: &'a mut [u16],
    pub next: &'a mut [u16],
    pub list: &'a mut [u16],
    pub path: WordRows<'a>,
    pub branch: WordRows<'a>,
    pub ghost sizes: { length size.now ≡ length parent.now },
    pub ghost heavies: { length heavy.now ≡ length parent.now },
    pub ghost lights: { length light.now ≡ length parent.now },
    pub ghost nexts: { length next.now ≡ length parent.now },
    pub ghost lists: { length list.now ≡ length parent.now },
    pub ghost wide_paths: { Wide (length parent.now) path.high.now path.low.now path.len.now },
    pub ghost wide_branches: { Wide (length parent.now) branch.high.now branch.low.now branch.len.now },
}

impl<'a> Rows<'a> {
    // Takes twelve rows of n numbers from the front of the memory.
    pub fn split(work: &'a mut [u16], n: usize) -> Rows<'a>
        requires { 12 * n ≤ length work.old }
        ensures { length result.parent.now ≡ n }
    {
        // `chunks_exact_mut` would give each row as an option, to be unwrapped as many times, and asks that n is not 0.
        let (parent, work) = work.split_at_mut(n);
        let (size, work) = work.split_at_mut(n);
        let (heavy, work) = work.split_at_mut(n);
        let (light, work) = work.split_at_mut(n);
        let (next, work) = work.split_at_mut(n);
        let (list, work) = work.split_at_mut(n);
        let (path_high, work) = work.split_at_mut(n);
        let (path_low, work) = work.split_at_mut(n);
        let (path_len, work) = work.split_at_mut(n);
        let (branch_high, work) = work.split_at_mut(n);
        let (branch_low, work) = work.split_at_mut(n);
        let (branch_len, _) = work.split_at_mut(n);
        Rows {
            parent,
            size,
            heavy,
            light,
            next,
            list,
            path: WordRows {
                high: path_high,
                low: path_low,
                len: path_len,
            },
            branch: WordRows {
                high: branch_high,
                low: branch_low,
                len: branch_len,
            },
        }
    }
}
