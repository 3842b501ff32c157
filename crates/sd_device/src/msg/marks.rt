//! Marks on links or on receivers.
ghost use Rattle.std.specs.Prelude.{◌≡◌, ◌≤◌, ◌&&◌, ℕ, nat_eq, nat_lt, slice_index, IfOk, if◌then◌else◌};

use sd_num::NoMemory;
use std::alloc::Global;

/// For each link, or each receiver, the number of a flight: those of its flights up to this one are
/// spent. Each mark is 0 at first.
#[derive(Drop)]
pub(crate) struct Marks {
    /// By the number of the link or the receiver.
    numbers: Vec<u64>,
    /// At least each mark: few flights are swept, and nearly all numbers are greater.
    greatest: u64,
    ghost bound: { (key : ℕ) → slice_index numbers.items key ≤ greatest },
}

impl Marks {
    ghost use Rattle.sd_device.specs.msg.Marks.{mark_of, count_of};

    /// This many marks.
    pub fn new(alloc: Global, count: u32) -> Result<Marks, NoMemory>
        ensures count { IfOk result (λ m. count_of m ≡ count) }
        ensures marks { IfOk result (λ m. (key : ℕ) → mark_of m key ≡ 0) }
    {
        match vec![in alloc; 0; count as usize] {
            Ok(numbers) => Ok(Marks {
                numbers,
                greatest: 0,
            }),
            Err(_) => Err(NoMemory),
        }
    }

    /// Whether the mark, 0 where there is none, is less than the number.
    #[inline(always)]
    pub fn is_below(&self, key: u32, number: u64) -> bool
        ensures { result ≡ nat_lt (mark_of self.now key) number }
    {
        self.greatest < number || self.is_mark_below(key, number)
    }

    /// The same by the mark itself, which few flights need.
    #[inline(never)]
    fn is_mark_below(&self, key: u32, number: u64) -> bool
        ensures { result ≡ nat_lt (mark_of self.now key) number }
    {
        self.numbers.get(key as usize).copied().unwrap_or(0) < number
    }

    /// Sets a mark, if there is one.
    pub fn set(&mut self, key: u32, number: u64)
        ensures count { count_of self.new ≡ count_of self.old }
        ensures marks { (k : ℕ)
            → mark_of self.new k
            ≡ (if nat_eq key k && nat_lt key
            (count_of self.old) then number else mark_of self.old k) }
    {
        if let Some(mark) = self.numbers.get_mut(key as usize) {
            *mark = number;
        }
        self.greatest = self.greatest.max(number);
    }
}
