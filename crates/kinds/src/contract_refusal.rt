// Why a contract is not made.
ghost use Rattle.std.specs.Prelude.{◌≡◌};
ghost use Rattle.kinds.specs.ContractRefusals.{contract_refusal_number};

#[derive(Clone, Copy, PartialEq, Eq, Debug)]
pub enum ContractRefusal {
    Strike,
    Limiter,
}

impl ContractRefusal {
    // A method, as of every refusal: `u32::from(refusal)` would not say that it gives the number of the cause.
    pub fn number(self) -> u32
        ensures { result ≡ contract_refusal_number self }
    {
        match self {
            ContractRefusal::Strike => 4,
            ContractRefusal::Limiter => 5,
        }
    }
}
