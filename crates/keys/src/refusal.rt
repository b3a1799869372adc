// Why a call is refused.
ghost use Rattle.std.specs.Prelude.{◌≡◌};
ghost use Rattle.keys.specs.Refusals.{number, number_of};

#[derive(Clone, Copy, Debug, PartialEq, Eq)]
pub enum Refusal {
    // an entry with the key's place stands already
    Duplicate,
    // there is no room for the entry
    Full,
    // nothing was struck: no entry with the query's place stands, or the condition says no
    NotStruck,
    // the leaf that would be changed is frozen
    Frozen,
    // a find meets none: no entry with the query's place stands
    NotFound,
    // the slots are not as many as a sheet needs
    SlotCount,
    // a stored key has other than four bytes
    StoredLength,
}

impl From<Refusal> for u8 {
    ghost from_gives = { λ r n. n ≡ number r };

    fn from(refusal: Refusal) -> u8 {
        match refusal {
            Refusal::Duplicate => 1,
            Refusal::Full => 2,
            Refusal::NotStruck => 3,
            Refusal::Frozen => 4,
            Refusal::NotFound => 5,
            Refusal::SlotCount => 6,
            Refusal::StoredLength => 7,
        }
    }
}

// The number of an answer: 0, or that of the refusal.
pub fn number_of<T>(answer: &Result<T, Refusal>) -> u8
    ensures { result ≡ number_of answer.now }
{
    match answer {
        Ok(_) => 0,
        Err(refusal) => u8::from(*refusal),
    }
}
