// Why a call says no. What a call answers is a Result: the count of what was written, or the refusal.
ghost use Rattle.std.specs.Prelude.{◌≡◌};
ghost use Rattle.rules.specs.Numbers.{number_of};

#[derive(Clone, Copy, Debug, PartialEq, Eq)]
pub enum Refusal {
    NotOurs,
    OutsideLimits,
    WrongLength,
    FloatRange,
    StepUnfit,
    BadSign,
    BadVertex,
    VertexTwice,
    CellTwice,
    CrowdedFace,
    EqualSigns,
    SweptTooLarge,
    MovedOutOfRange,
    Unsound,
    NoRoom,
    StaysInPlane,
    BadMaterial,
}

// A refusal's number in the paper, section 9.
impl From<Refusal> for u8 {
    ghost from_gives = { λ refusal number. number ≡ number_of refusal };

    fn from(refusal: Refusal) -> u8 {
        match refusal {
            Refusal::NotOurs => 1,
            Refusal::OutsideLimits => 2,
            Refusal::WrongLength => 3,
            Refusal::FloatRange => 4,
            Refusal::StepUnfit => 5,
            Refusal::BadSign => 6,
            Refusal::BadVertex => 7,
            Refusal::VertexTwice => 8,
            Refusal::CellTwice => 9,
            Refusal::CrowdedFace => 10,
            Refusal::EqualSigns => 11,
            Refusal::SweptTooLarge => 12,
            Refusal::MovedOutOfRange => 13,
            Refusal::Unsound => 14,
            Refusal::NoRoom => 15,
            Refusal::StaysInPlane => 17,
            Refusal::BadMaterial => 18,
        }
    }
}
