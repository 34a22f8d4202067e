// What is measured and watched, by name: quantities, causes of faults, limits and status registers. Their table is a definition, in specs/: the
// crates that watch limits and write settings hold their code against it.
#![tactic(auto)]

ghost use Rattle.std.specs.Prelude.{◌≡◌};
ghost use Rattle.cause.specs.Causes.{limit_of};
ghost use Rattle.cause.specs.Kinds.{NamesQuantity, quantity_number, cause_number, limit_number};

// A quantity, by the place of its word on a page.
#[derive(Clone, Copy, PartialEq, Eq)]
pub enum Quantity {
    Vout,
    Iout,
    Vin,
    Temperature,
}

// A cause of faults, by the place of its response and its machine on a page.
#[derive(Clone, Copy, PartialEq, Eq)]
pub enum Cause {
    VoutOv,
    IoutOc,
    Ot,
    Ut,
    VinOv,
    VinUv,
}

// A limit, by its place on a page: those of the causes in their order, then those of the warnings.
#[derive(Clone, Copy, PartialEq, Eq)]
pub enum Limit {
    VoutOvFault,
    IoutOcFault,
    OtFault,
    UtFault,
    VinOvFault,
    VinUvFault,
    VoutOvWarn,
    IoutOcWarn,
    OtWarn,
    VinOvWarn,
    VinUvWarn,
}

impl Limit {
    // The quantity that is held against the limit.
    #[tactic(auto, unfolding(crate::specs::Causes::causes, crate::specs::Causes::warnings))]
    pub fn quantity(self) -> Quantity
        ensures { quantity_number result ≡ (limit_of (limit_number self)).quantity }
    {
        match self {
            Limit::VoutOvFault | Limit::VoutOvWarn => Quantity::Vout,
            Limit::IoutOcFault | Limit::IoutOcWarn => Quantity::Iout,
            Limit::VinOvFault | Limit::VinUvFault | Limit::VinOvWarn | Limit::VinUvWarn =>
                Quantity::Vin,
            Limit::OtFault | Limit::UtFault | Limit::OtWarn => Quantity::Temperature,
        }
    }
}

// A status register of a page, by its place there.
#[derive(Clone, Copy, PartialEq, Eq)]
pub enum Register {
    Vout,
    Iout,
    Input,
    Temperature,
}

// A number that names no quantity.
#[derive(Clone, Copy, PartialEq, Eq)]
pub struct UnknownQuantity(pub u8);

impl TryFrom<u8> for Quantity {
    type Error = UnknownQuantity;

    ghost try_from_gives = { NamesQuantity };

    fn try_from(number: u8) -> Result<Self, UnknownQuantity> {
        match number {
            0 => Ok(Quantity::Vout),
            1 => Ok(Quantity::Iout),
            2 => Ok(Quantity::Vin),
            3 => Ok(Quantity::Temperature),
            _ => Err(UnknownQuantity(number)),
        }
    }
}

impl From<Quantity> for u8 {
    ghost from_gives = { λ quantity number. number ≡ quantity_number quantity };

    fn from(quantity: Quantity) -> u8 {
        quantity as u8
    }
}

impl From<Cause> for u8 {
    ghost from_gives = { λ cause number. number ≡ cause_number cause };

    fn from(cause: Cause) -> u8 {
        cause as u8
    }
}
