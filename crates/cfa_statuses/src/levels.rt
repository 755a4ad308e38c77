// The three statuses, and their order.
ghost use Rattle.std.specs.Prelude.{◌≡◌};
ghost use Rattle.cfa_statuses.specs.Status.{swapped, lesser, greater};

/// Whether a class or a class expression holds. `No` is less than `Maybe`, and `Maybe` is less than `Yes`.
#[derive(Clone, Copy, Debug, PartialEq, Eq)]
pub enum Status {
    No,
    /// It may hold or not, depending on how the machine is found.
    Maybe,
    Yes,
}

impl Status {
    /// The status of the negation.
    pub fn swapped(self) -> Status
        ensures { result ≡ swapped self }
    {
        match self {
            Status::No => Status::Yes,
            Status::Maybe => Status::Maybe,
            Status::Yes => Status::No,
        }
    }

    /// The lesser of two statuses.
    pub fn lesser(self, other: Status) -> Status
        ensures { result ≡ lesser self other }
    {
        match (self, other) {
            (Status::No, _) => Status::No,
            (Status::Maybe, Status::No) => Status::No,
            (Status::Maybe, _) => Status::Maybe,
            (Status::Yes, other) => other,
        }
    }

    /// The greater of two statuses.
    pub fn greater(self, other: Status) -> Status
        ensures { result ≡ greater self other }
    {
        match (self, other) {
            (Status::No, other) => other,
            (Status::Maybe, Status::Yes) => Status::Yes,
            (Status::Maybe, _) => Status::Maybe,
            (Status::Yes, _) => Status::Yes,
        }
    }
}
