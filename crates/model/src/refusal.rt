// Why a call is refused, by the number that it gives back.
ghost use Rattle.std.specs.Prelude.{◌≡◌};
ghost use Rattle.model.specs.Refusals.{number_of_refusal, number_given};

// Each refusal but those of a verdict (16 to 19), which stand in `answers::Judgement` with what they tell.
#[derive(Clone, Copy, Debug, PartialEq, Eq)]
pub enum Refusal {
    // The card's version, length or filling is wrong, or a batch counts over 256 requests.
    BadCard = 1,
    // The scheme breaks its sizes or rules.
    BadScheme = 2,
    // The roster's count, or a type in it, is out of range.
    BadRoster = 3,
    // The code breaks the spelling.
    Misspelled = 4,
    // Two people have one code.
    SameCode = 5,
    NoCommand = 6,
    NoPerson = 7,
    // A person's type isn't the command's.
    OtherType = 8,
    // A create or an internal with two different people.
    TwoPeople = 9,
    // A create of a code that exists.
    CodeExists = 10,
    // A create with 64 designs in the store.
    StoreFull = 11,
    NoDesign = 12,
    // The design's kind isn't the command's.
    OtherKind = 13,
    // X isn't wholly held.
    NotHeld = 14,
    // The question is out of range.
    OutOfRange = 15,
    // A lent buffer lacks room for the most that the sizes allow.
    NoRoom = 20,
    // A stored design is unsound.
    BadStore = 21,
}

impl Refusal {
    // The number that is given back.
    pub fn number(self) -> u8
        ensures { result ≡ number_of_refusal self }
    {
        self as u8
    }
}

// The number that an answer gives back: 0 where nothing is refused.
pub fn number_given<T>(answer: &Result<T, Refusal>) -> u8
    ensures { result ≡ number_given answer.now }
{
    match answer {
        Ok(_) => 0,
        Err(refusal) => refusal.number(),
    }
}
