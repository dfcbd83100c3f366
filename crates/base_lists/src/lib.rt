// Lists in lent slices: octets or words are stored at a place.
#![tactic(auto)]

ghost use Rattle.std.specs.Prelude.{◌≡◌, ◌+◌, ◌≤◌, ◌<◌, length};
ghost use Rattle.base_lists.specs.Seq.{put, part};

// Stores all of w into t from `at` on. A loop, since copy_from_slice calls memmove, for which wtp_join and wtp_data would need more stack.
pub fn store<T: Copy>(t: &mut [T], at: usize, w: &[T])
    requires { at + length w.now ≤ length t.old }
    ensures { t.new ≡ put t.old at w.now }
{
    for j in 0..w.len() {
        t[at + j] = w[j];
    }
}

// Stores the part of src of len octets from start into t from `at` on.
pub fn copy(t: &mut [u8], at: usize, src: &[u8], start: usize, len: usize)
    requires { (at + len ≤ length t.old) × (start + len ≤ length src.now) }
    ensures { t.new ≡ put t.old at (part src.now start len) }
{
    store(t, at, &src[start..start + len]);
}
