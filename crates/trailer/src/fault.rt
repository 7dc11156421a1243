// What a call is refused for: the kinds of refusals, in the order of the numbers that the rules give them.
ghost use Rattle.std.specs.Prelude.{◌≡◌};
ghost use Rattle.trailer.specs.Numbers.{number_of};

// What a file, a call or a question is refused for, each kind by the word for what is wrong.
#[derive(Clone, Copy, Debug, PartialEq, Eq)]
pub enum Fault {
    Short,
    Unmarked,
    RecordCount,
    EventCount,
    Distance,
    Outside,
    Name,
    NoEvent,
    Record,
    RootEnded,
    TooDeep,
    TooManyStrands,
    LeftOpen,
    ShortBuffer,
    PastEvents,
    ShortOutput,
    NoLabels,
    NotAccess,
}

impl Fault {
    // The number of the rules: 1 to 18.
    pub fn number(self) -> u32
        ensures { result ≡ number_of self }
    {
        match self {
            Fault::Short => 1,
            Fault::Unmarked => 2,
            Fault::RecordCount => 3,
            Fault::EventCount => 4,
            Fault::Distance => 5,
            Fault::Outside => 6,
            Fault::Name => 7,
            Fault::NoEvent => 8,
            Fault::Record => 9,
            Fault::RootEnded => 10,
            Fault::TooDeep => 11,
            Fault::TooManyStrands => 12,
            Fault::LeftOpen => 13,
            Fault::ShortBuffer => 14,
            Fault::PastEvents => 15,
            Fault::ShortOutput => 16,
            Fault::NoLabels => 17,
            Fault::NotAccess => 18,
        }
    }
}
