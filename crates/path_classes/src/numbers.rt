// Numbers in rising order, and how many of them lie below another one.
ghost use Rattle.std.specs.Prelude.{◌≡◌};
ghost use Rattle.std.specs.List.Sorted.{IsPermutation, IsNonDecreasing};
ghost use Rattle.path_classes.specs.Numbers.{count_below, count_up_to, HasAllOf};

use std::marker::Model;

/// Numbers in rising order, which may repeat. Contracts see them as a list.
#[derive(Debug, Drop)]
pub(crate) struct Sorted {
    numbers: Vec<u32>,
}

impl Model for Sorted {
    ghost use Rattle.std.specs.Prelude.{List, ℕ};
    ghost use Rattle.std.specs.List.Sorted.{IsNonDecreasing};

    ghost Value = { List ℕ };

    ghost view = { λ s. s.numbers.items };

    ghost invariant = { λ s. IsNonDecreasing s.numbers.items };
}

impl Sorted {
    /// The numbers of a list, as often as they stand there.
    pub(crate) fn from_vec(numbers: Vec<u32>) -> Sorted
        ensures { IsPermutation numbers.items result }
    {
        let mut sorted = numbers;
        sorted.sort_unstable();
        Sorted { numbers: sorted }
    }

    /// The numbers of a list, each of them once.
    pub(crate) fn once_each(numbers: Vec<u32>) -> Sorted
        ensures { HasAllOf numbers.items result }
    {
        let mut sorted = numbers;
        sorted.sort_unstable();
        sorted.dedup();
        Sorted { numbers: sorted }
    }

    /// The numbers. It takes no memory.
    pub(crate) fn as_slice(&self) -> &[u32]
        ensures value { result.now ≡ self.now }
        ensures rising { IsNonDecreasing self.now }
    {
        self.numbers.as_slice()
    }

    /// How many lie below the number. It takes no memory.
    pub(crate) fn below(&self, number: u32) -> usize
        ensures { result ≡ count_below number self.now }
    {
        self.as_slice().partition_point(|n| *n < number)
    }

    /// How many are not above the number. It takes no memory.
    pub(crate) fn up_to(&self, number: u32) -> usize
        ensures { result ≡ count_up_to number self.now }
    {
        self.as_slice().partition_point(|n| *n <= number)
    }
}
