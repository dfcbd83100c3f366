// Numbers of several octets in a lent slice, low octet first: one trait over the width.
#![tactic(auto)]

ghost use Rattle.std.specs.Prelude.{◌≡◌, ◌+◌, ◌≤◌, ℕ, length};
ghost use Rattle.base_lists.specs.Seq.{put};
ghost use Rattle.base_octets.specs.Octets.{num, gets, enc};

// A number of a fixed width.
pub trait Number: Copy {
    // How many octets it has, and which number it is.
    ghost width: { ℕ };

    ghost value: { Self → ℕ };

    // The number whose octets lie at `at`.
    fn get(t: &[u8], at: usize) -> Self
        requires { at + width ≤ length t.now }
        ensures { value result ≡ num (gets width at t.now) };

    // Stores the number's octets at `at`.
    fn put(self, t: &mut [u8], at: usize)
        requires { at + width ≤ length t.old }
        ensures { t.new ≡ put t.old at (enc width (value self)) };
}

impl Number for u16 {
    ghost width = { 2 };

    ghost value = { λ x. x };

    #[tactic(auto, unfolding(crate::specs::Octets::num, crate::specs::Octets::gets))]
    fn get(t: &[u8], at: usize) -> u16 {
        u16::from_le_bytes([t[at], t[at + 1]])
    }

    #[tactic(auto, unfolding(crate::specs::Octets::enc))]
    fn put(self, t: &mut [u8], at: usize) {
        let octets: [u8; 2] = self.to_le_bytes();
        base_lists::store(t, at, &octets);
    }
}

impl Number for u32 {
    ghost width = { 4 };

    ghost value = { λ x. x };

    #[tactic(auto, unfolding(crate::specs::Octets::num, crate::specs::Octets::gets))]
    fn get(t: &[u8], at: usize) -> u32 {
        u32::from_le_bytes([t[at], t[at + 1], t[at + 2], t[at + 3]])
    }

    #[tactic(auto, unfolding(crate::specs::Octets::enc))]
    fn put(self, t: &mut [u8], at: usize) {
        let octets: [u8; 4] = self.to_le_bytes();
        base_lists::store(t, at, &octets);
    }
}

impl Number for u64 {
    ghost width = { 8 };

    ghost value = { λ x. x };

    #[tactic(auto, unfolding(crate::specs::Octets::num, crate::specs::Octets::gets))]
    fn get(t: &[u8], at: usize) -> u64 {
        let w = &t[at..at + 8];
        u64::from_le_bytes([w[0], w[1], w[2], w[3], w[4], w[5], w[6], w[7]])
    }

    #[tactic(auto, unfolding(crate::specs::Octets::enc))]
    fn put(self, t: &mut [u8], at: usize) {
        let octets: [u8; 8] = self.to_le_bytes();
        base_lists::store(t, at, &octets);
    }
}
