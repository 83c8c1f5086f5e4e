// Why a call is turned back, by its number (rules F1 to F31); what judging a call replies; and what lists of refusals are written with.
#![tactic(auto)]

ghost use Rattle.std.specs.Prelude.{◌≡◌};
ghost use Rattle.refusal.specs.Number.{number_of, code_of};
ghost use Rattle.refusal.specs.Reply.{unless};
ghost use Rattle.refusal.specs.Test.{in_range, all_in_range};

// By number: 1 to 14 because of the input, 21 to 23 because of the run; 31 because of the input, after 14.
#[derive(Clone, Copy, Debug, PartialEq, Eq)]
pub enum Refusal {
    Fcode = 1,
    Mode = 2,
    BitsPerPixel = 3,
    ReferenceSize = 4,
    ReferenceBytes = 5,
    SourceSide = 6,
    SourcePlane = 7,
    Place = 8,
    Seed = 9,
    Quantiser = 10,
    Weight = 11,
    Length = 12,
    Range = 13,
    Choice = 14,
    AfterLast = 21,
    OtherSize = 22,
    BeforeLast = 23,
    RoundingType = 31,
}

// What judging a call replies: nothing, or the first refusal on its list.
pub type Reply = Result<(), Refusal>;

impl From<Refusal> for u8 {
    ghost from_gives = { λ why n. n ≡ number_of why };

    fn from(why: Refusal) -> u8 {
        why as u8
    }
}

// 0, or the refusal's number.
pub fn code<T: Copy>(told: Result<T, Refusal>) -> u8
    ensures { result ≡ code_of told }
{
    match told {
        Ok(_) => 0,
        Err(why) => u8::from(why),
    }
}

// Refused for `why` where `holds` is not so.
pub fn require(holds: bool, why: Refusal) -> Reply
    ensures { result ≡ unless holds why (Ok tt) }
{
    if holds { Ok(()) } else { Err(why) }
}

pub fn in_range(low: i32, high: i32, x: i32) -> bool
    ensures { result ≡ in_range low high x }
{
    (low..=high).contains(&x)
}

// To the end, whatever is found: a loop without an exit is done on several numbers at once.
pub fn all_in_range(low: i32, high: i32, xs: &[i32]) -> bool
    ensures { result ≡ all_in_range low high xs.now }
{
    let mut good = true;
    for x in xs {
        good &= in_range(low, high, *x);
    }
    good
}
