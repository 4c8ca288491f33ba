ghost use Rattle.std.specs.Option.{option_map};
ghost use Rattle.std.specs.Prelude.{◌≡◌, ◌≤◌};

/// How many partners "at least" asks for: never 0, and at most 65,535 (`greatest_count` of specs/Limits).
#[derive(Clone, Copy, Debug, PartialEq, Eq, Hash)]
pub struct Count {
    /// The number itself.
    pub value: u16,
    ghost some: { 1 ≤ value },
}

impl Count {
    ghost use Rattle.terms.specs.Codes.{count_of};

    /// The count with this value, or `None` where it is 0.
    pub fn new(value: u16) -> Option<Count>
        ensures { option_map (λ c. c.value) result ≡ count_of value }
    {
        if value >= 1 {
            Some(Count { value })
        } else {
            None
        }
    }

    /// The number itself.
    pub fn get(self) -> u16
        ensures { result ≡ self.value }
    {
        self.value
    }
}
