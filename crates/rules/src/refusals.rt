// Why a call is refused. specs/Refusals.antt has the number of each.
ghost use Rattle.std.specs.Prelude.{◌≡◌};
ghost use Rattle.rules.specs.Refusals.{number_of};

#[derive(Clone, Copy, Debug, PartialEq, Eq)]
pub enum Refusal {
    SmallArea = 1,
    WrongLength = 2,
    WrongType = 3,
    WrongTime = 4,
    Unsound = 5,
    NotCarried = 6,
    UnsoundRecord = 7,
    TooLarge = 8,
}

impl Refusal {
    pub fn number(self) -> u8
        ensures { result ≡ number_of self }
    {
        self as u8
    }
}
