// The refusals: each has the paper's number, and a call answers the first that holds of its tests in the paper's order.
//
// A check and a call answer a `Result` with the refusal as its error; what each tests is said where its check is.
#![tactic(auto)]

ghost use Rattle.std.specs.Prelude.{◌≡◌};
ghost use Rattle.refusals.specs.Refusals.{number_of};

// Why a call is refused: one case for each number of the paper but 11 and 17, which no call gives any more (a zero is a value like others,
// and a file may have no records).
#[derive(Clone, Copy, Debug, PartialEq, Eq)]
pub enum Refusal {
    LineKind,
    Direction,
    Length,
    Factor,
    Product,
    BufferLength,
    NotResidue,
    Group,
    VolumeTooLarge,
    Index,
    Contradiction,
    ScratchTooShort,
    Inconsistent,
    FileShape,
    FileVersion,
    OutputTooShort,
    NotCollecting,
    NoMap,
    NoFactors,
    Occupied,
    ImpossibleJob,
    Modulus,
    DifferentCells,
    Magnitude,
    UnitCell,
    FloatRange,
    Lane,
    Capacity,
    NothingRuns,
    Window,
}

// The paper's number of a refusal.
pub fn number_of(r: Refusal) -> u32
    ensures { result ≡ number_of r }
{
    match r {
        Refusal::LineKind => 1,
        Refusal::Direction => 2,
        Refusal::Length => 3,
        Refusal::Factor => 4,
        Refusal::Product => 5,
        Refusal::BufferLength => 6,
        Refusal::NotResidue => 7,
        Refusal::Group => 8,
        Refusal::VolumeTooLarge => 9,
        Refusal::Index => 10,
        Refusal::Contradiction => 12,
        Refusal::ScratchTooShort => 13,
        Refusal::Inconsistent => 14,
        Refusal::FileShape => 15,
        Refusal::FileVersion => 16,
        Refusal::OutputTooShort => 18,
        Refusal::NotCollecting => 21,
        Refusal::NoMap => 22,
        Refusal::NoFactors => 23,
        Refusal::Occupied => 24,
        Refusal::ImpossibleJob => 25,
        Refusal::Modulus => 26,
        Refusal::DifferentCells => 27,
        Refusal::Magnitude => 28,
        Refusal::UnitCell => 29,
        Refusal::FloatRange => 30,
        Refusal::Lane => 31,
        Refusal::Capacity => 32,
        Refusal::NothingRuns => 33,
        Refusal::Window => 34,
    }
}
