// Why a sheet is turned away: the cause, the line and the layer in which it was found.
ghost use Rattle.std.specs.Prelude.{◌≡◌};
ghost use Rattle.sheet.specs.Faults.{fault_number, fault_line, fault_layer, fault_field_of};

use kinds::ContractRefusal;

#[derive(Clone, Copy, PartialEq, Debug)]
pub enum Layer {
    Field,
    Line,
    Book,
}

// What can be wrong with the numbers of a well-formed line by themselves.
#[derive(Clone, Copy, PartialEq, Debug)]
pub enum LineCause {
    // which of the market's five numbers is outside its range, from 1
    MarketNumber(u8),
    Contract(ContractRefusal),
    Quantity,
}

// What can be wrong with a line in the book that the sheet tells.
#[derive(Clone, Copy, PartialEq, Debug)]
pub enum BookCause {
    // ceiling × size × rate is too large
    Product,
    DoesNotFit,
    // contracts in all above 10,000
    Contracts,
    // more positions than places
    Places,
    // a contract named twice
    NamedTwice,
    // more than 65,536 bytes
    TooLong,
}

#[derive(Clone, Copy, PartialEq, Debug)]
pub enum Fault {
    // a malformed line, and the field at fault
    Field(usize, usize),
    Line(usize, LineCause),
    Book(usize, BookCause),
}

impl Fault {
    // A method: a fault has a number, a line and a layer, and `u32::from(fault)` would not say which it gives.
    pub fn number(self) -> u32
        ensures { result ≡ fault_number self }
    {
        match self {
            Fault::Field(_, _) => 16,
            Fault::Line(_, LineCause::MarketNumber(_)) => 1,
            Fault::Line(_, LineCause::Contract(refusal)) => refusal.number(),
            Fault::Line(_, LineCause::Quantity) => 6,
            Fault::Book(_, BookCause::Product) => 2,
            Fault::Book(_, BookCause::DoesNotFit) => 7,
            Fault::Book(_, BookCause::Contracts) => 8,
            Fault::Book(_, BookCause::Places) => 9,
            Fault::Book(_, BookCause::NamedTwice) => 18,
            Fault::Book(_, BookCause::TooLong) => 19,
        }
    }

    // The line, counted from 1; 0 where the whole sheet is too long.
    pub fn line(self) -> usize
        ensures { result ≡ fault_line self }
    {
        match self {
            Fault::Field(line, _) => line,
            Fault::Line(line, _) => line,
            Fault::Book(line, _) => line,
        }
    }

    // The field at fault in a malformed line, counted from 1.
    pub fn field(self) -> Option<usize>
        ensures { result ≡ fault_field_of self }
    {
        match self {
            Fault::Field(_, field) => Some(field),
            _ => None,
        }
    }

    pub fn layer(self) -> Layer
        ensures { result ≡ fault_layer self }
    {
        match self {
            Fault::Field(_, _) => Layer::Field,
            Fault::Line(_, _) => Layer::Line,
            Fault::Book(_, _) => Layer::Book,
        }
    }
}
