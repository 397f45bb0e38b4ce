// Why a call is turned away.
ghost use Rattle.std.specs.Prelude.{◌≡◌, ◌∷◌, ◌++◌, None};
ghost use Rattle.std.specs.Option.{option_to_list};
ghost use Rattle.sheet.specs.Faults.{fault_line, fault_values};
ghost use Rattle.book.specs.Refusals.{refusal_number, refusal_values};
ghost use Rattle.book.specs.declared.refusal.Refusal.TheVariants.{Sheet};

use kinds::ContractRefusal;
use sheet::{Fault, LineCause};

#[derive(Clone, Copy, PartialEq, Debug)]
pub enum Refusal {
    // which of the market's five numbers is the first outside its range, from 1
    MarketNumber(u8),
    // ceiling × size × rate is too large
    Product,
    // places not 1 to 128
    Places,
    // a contract is not made
    Contract(ContractRefusal),
    // a quantity outside its range
    Quantity,
    DoesNotFit,
    // contracts in all above 10,000
    Contracts,
    // a new position, and all places are taken
    AllPlacesTaken,
    // the first held position whose contract does not fit the new market, from 0
    HeldDoesNotFit(usize),
    // scenarios not 1 to 405
    Scenarios,
    // the table's length is not scenarios × positions
    TableLength,
    // the first table place whose scenario value is too large, from 0
    ScenarioValue(usize),
    // no position of that index
    NoPosition,
    // a price above the ceiling
    AboveCeiling,
    // a sheet is turned away
    Sheet(Fault),
    // an output buffer is too short for this many bytes
    Buffer(usize),
}

impl From<Fault> for Refusal {
    ghost from_gives = { λ f e. e ≡ Sheet f };

    fn from(cause: Fault) -> Refusal {
        Refusal::Sheet(cause)
    }
}

impl Refusal {
    // A method: a refusal has a number and values, and `u32::from(refusal)` would not say which it gives.
    pub fn number(self) -> u32
        ensures { result ≡ refusal_number self }
    {
        match self {
            Refusal::MarketNumber(_) => 1,
            Refusal::Product => 2,
            Refusal::Places => 3,
            Refusal::Contract(refusal) => refusal.number(),
            Refusal::Quantity => 6,
            Refusal::DoesNotFit => 7,
            Refusal::Contracts => 8,
            Refusal::AllPlacesTaken => 9,
            Refusal::HeldDoesNotFit(_) => 10,
            Refusal::Scenarios => 11,
            Refusal::TableLength => 12,
            Refusal::ScenarioValue(_) => 13,
            Refusal::NoPosition => 14,
            Refusal::AboveCeiling => 15,
            Refusal::Sheet(fault) => fault.number(),
            Refusal::Buffer(_) => 17,
        }
    }

    // What is returned beside the number: none, one or two values. A pair of options, since a list would want memory.
    pub fn values(self) -> (Option<usize>, Option<usize>)
        ensures told { option_to_list result.0 ++ option_to_list result.1 ≡ refusal_values self }
        ensures first { result.0 ≡ None → result.1 ≡ None }
    {
        match self {
            Refusal::MarketNumber(which) => (Some(usize::from(which)), None),
            Refusal::HeldDoesNotFit(index) => (Some(index), None),
            Refusal::ScenarioValue(place) => (Some(place), None),
            Refusal::Buffer(needed) => (Some(needed), None),
            Refusal::Sheet(fault) => (Some(fault.line()), in_line(fault)),
            _ => (None, None),
        }
    }
}

// What a sheet's fault tells beside its line: the field, or which market number.
fn in_line(fault: Fault) -> Option<usize>
    ensures { fault_line fault ∷ option_to_list result ≡ fault_values fault }
{
    match fault {
        Fault::Field(_, field) => Some(field),
        Fault::Line(_, LineCause::MarketNumber(which)) => Some(usize::from(which)),
        _ => None,
    }
}
