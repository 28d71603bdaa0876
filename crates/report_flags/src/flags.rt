// Flags: 1 where a test passes, else 0.
ghost use Rattle.std.specs.Prelude.{◌≡◌, ℕ, nat_eq, slice_index};
ghost use Rattle.base_lists.specs.Folds.{count};

// How many of the first `n` flags are 1.
pub fn count_flags(n: u16, flags: &[u8]) -> u16
    ensures { result ≡ count n (λ (i : ℕ). nat_eq (slice_index flags.now i) 1) }
{
    let mut ones = 0;
    for i in 0..n {
        ones += u16::from(base_slices::byte(flags, i as usize) == 1);
    }
    ones
}
