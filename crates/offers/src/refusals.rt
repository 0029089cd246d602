//! Why a call is refused: a code, and the values that go with it.
ghost use Rattle.std.specs.Prelude.{◌≡◌};
ghost use Rattle.offers.specs.Refusals.{code_number, code_only};

/// What was wrong. The numbers are those that a user sees.
#[derive(Clone, Copy, PartialEq, Eq, Debug)]
pub enum Code {
    /// an offer number outside its kind's
    NumberOutside = 1,
    /// a field outside its range
    FieldOutside = 2,
    /// filing on an open number
    AlreadyOpen = 3,
    /// filing or withdrawing on a withdrawn number
    AlreadyWithdrawn = 4,
    /// withdrawing a vacant number
    NotFiled = 5,
    /// a sheet that ends inside a field
    CutShort = 6,
    /// an unknown tag, or a length that is not the kind's
    Strange = 7,
    /// tag and number do not rise
    NotRising = 8,
    /// two different records under one number
    Clash = 9,
    /// a package whose price cannot be had
    PriceFault = 10,
    /// a buffer shorter than the sheet, a row for an award shorter than 64, or one for fees shorter than 16
    NoRoom = 11,
    /// a count of steps outside 1 to 1,000,000
    StepsOutside = 12,
    /// a rate of a fee above 100 hundredths of a per cent
    RateOutside = 13,
}

impl Code {
    /// The number that a user sees.
    pub fn number(self) -> u8
        ensures { result ≡ code_number self }
    {
        self as u8
    }
}

/// A refusal: its code, and 0 for each value that does not apply or was not read.
#[derive(Clone, Copy, PartialEq, Eq, Debug)]
pub struct Refusal {
    pub code: Code,
    /// the kind's tag
    pub tag: u8,
    /// the offer number
    pub number: u8,
    /// the field: 1 the status, 2 the first of the record
    pub field: u8,
    /// the byte of the sheet where the field starts
    pub byte: usize,
    /// how deep in the stack of price rules the fault arose, the lowest rule being 1
    pub depth: u8,
}

impl Refusal {
    /// A refusal that carries nothing but its code.
    pub fn code_only(code: Code) -> Refusal
        ensures { result ≡ code_only code }
    {
        Refusal {
            code,
            tag: 0,
            number: 0,
            field: 0,
            byte: 0,
            depth: 0,
        }
    }
}
