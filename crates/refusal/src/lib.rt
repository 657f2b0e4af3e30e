// Answers, the reasons of refusal with their numbers, and the classes of the numbers.

#![tactic(auto)]

ghost use Rattle.std.specs.Prelude.{◌≡◌, ℕ};
ghost use Rattle.refusal.specs.Says.{number_by, value_by, class_of, reason_number, refused_by};

// Why a call refuses, with its number.
#[derive(Clone, Copy, Debug, PartialEq, Eq)]
pub enum Reason {
    // 64 jobs held already, or more than 64 in a list
    TooManyJobs = 1,
    // a start above 4,095, or a deadline above 4,096
    OutOfRange = 2,
    // a deadline at most the job's start
    NoSlot = 3,
    // no valid plan meets the deadlines
    NoPlan = 4,
    // a job that is not held; of an order, the first
    NotHeld = 5,
    // an order that closes a loop through other jobs
    Loop = 6,
    // rows of a list that do not go together
    Uneven = 7,
    // too few bytes lent
    NoRoom = 8,
    FileTooLong = 9,
    UnknownMark = 10,
    // too few bytes left for a record
    CutShort = 11,
    // an order whose second job is not held
    SecondNotHeld = 12,
    // an order of a job before itself
    BeforeItself = 13,
    NoJobs = 14,
}

impl Reason {
    pub fn number(self) -> u8
        ensures { result ≡ reason_number self }
    {
        self as u8
    }
}

// A reason, and what is returned with it.
#[derive(Clone, Copy, Debug, PartialEq, Eq)]
pub struct Refusal {
    pub reason: Reason,
    pub value: usize,
}

// Nothing but 0 is returned with it.
impl From<Reason> for Refusal {
    ghost from_gives = { λ reason refusal. refusal ≡ refused_by reason 0 };

    fn from(reason: Reason) -> Refusal {
        Refusal { reason, value: 0 }
    }
}

// What is answered, or why not.
pub type Answer = Result<usize, Refusal>;

#[derive(Clone, Copy, Debug, PartialEq, Eq)]
pub enum Class {
    Room = 1,
    Request = 2,
    Plan = 3,
    Form = 4,
}

// What tells a refusal: its number, and what is returned with it.
pub trait Refused {
    ghost number: { Self → ℕ };

    ghost value: { Self → ℕ };

    fn number(&self) -> u8
        ensures { result ≡ number self.now };

    fn value(&self) -> usize
        ensures { result ≡ value self.now };
}

impl Refused for Refusal {
    ghost number = { λ refusal. reason_number refusal.reason };

    ghost value = { λ refusal. refusal.value };

    fn number(&self) -> u8 {
        self.reason.number()
    }

    fn value(&self) -> usize {
        self.value
    }
}

// The two numbers alone, as C has them: any number, of a reason or of none.
impl Refused for (u8, usize) {
    ghost number = { λ told. told.0 };

    ghost value = { λ told. told.1 };

    fn number(&self) -> u8 {
        self.0
    }

    fn value(&self) -> usize {
        self.1
    }
}

// The number of the refusal, and 0 where nothing is refused.
pub fn number<R: Refused + Copy>(answer: Result<usize, R>) -> u8
    ensures { result ≡ number_by R.number answer }
{
    match answer {
        Ok(_) => 0,
        Err(refusal) => refusal.number(),
    }
}

// What is answered, or returned with the refusal.
pub fn value<R: Refused + Copy>(answer: Result<usize, R>) -> usize
    ensures { result ≡ value_by R.value answer }
{
    match answer {
        Ok(value) => value,
        Err(refusal) => refusal.value(),
    }
}

// The class of a refusal's number; any other number has none.
pub fn class_of(number: u8) -> Option<Class>
    ensures { result ≡ class_of number }
{
    match number {
        1 | 8..=9 => Some(Class::Room),
        2..=3 | 5..=6 | 12..=13 => Some(Class::Request),
        4 => Some(Class::Plan),
        7 | 10..=11 | 14 => Some(Class::Form),
        _ => None,
    }
}
