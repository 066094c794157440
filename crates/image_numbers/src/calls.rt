// The calls that give a number, each by the record that its image holds.
ghost use Rattle.std.specs.Prelude.{◌≡◌, false, MatchResult};
ghost use Rattle.refusal.specs.Ranges.{count_in_range};
ghost use Rattle.refusal.specs.declared.Refusal.TheVariants.{Sheet};
ghost use Rattle.image_numbers.specs.Calls.{call_number};

use refusal::Refusal;

// Of a sheet.
#[derive(Clone, Copy, Debug, PartialEq, Eq, Hash)]
pub enum SheetCall {
    DS,
    SpecificArea,
    Ocp,
    DocpDtheta,
}

// Of a particle.
#[derive(Clone, Copy, Debug, PartialEq, Eq, Hash)]
pub enum ParticleCall {
    DtStable,
    ThetaSurface,
    ThetaAvg,
    CAvg,
    OcpSurface,
}

// Of a single-particle cell.
#[derive(Clone, Copy, Debug, PartialEq, Eq, Hash)]
pub enum CellCall {
    Ocv,
    SocEstimate,
}

// Of an electrolyte's parameters.
#[derive(Clone, Copy, Debug, PartialEq, Eq, Hash)]
pub enum RateCall {
    DE,
    Kappa,
    DEEff,
    KappaEff,
}

// Of an electrolyte.
#[derive(Clone, Copy, Debug, PartialEq, Eq, Hash)]
pub enum ElectrolyteCall {
    NTotal,
    CAvg,
    DtStable,
}

// A call that gives a number; a sphere's volume needs no image.
#[derive(Clone, Copy, Debug, PartialEq, Eq, Hash)]
pub enum NumberCall {
    OfSheet(SheetCall),
    SphereVolume,
    OfParticle(ParticleCall),
    OfCell(CellCall),
    OfRates(RateCall),
    OfElectrolyte(ElectrolyteCall),
}

// The call with a number of C's, 1 to 19.
impl TryFrom<u64> for NumberCall {
    type Error = Refusal;

    ghost try_from_gives = { λ n r. MatchResult r (λ call. n ≡ call_number call) (λ e. (e ≡ Sheet) × (count_in_range n 1 19 ≡ false)) };

    fn try_from(n: u64) -> Result<NumberCall, Refusal> {
        match n {
            1 => Ok(NumberCall::OfSheet(SheetCall::DS)),
            2 => Ok(NumberCall::OfSheet(SheetCall::SpecificArea)),
            3 => Ok(NumberCall::OfSheet(SheetCall::Ocp)),
            4 => Ok(NumberCall::OfSheet(SheetCall::DocpDtheta)),
            5 => Ok(NumberCall::SphereVolume),
            6 => Ok(NumberCall::OfParticle(ParticleCall::DtStable)),
            7 => Ok(NumberCall::OfParticle(ParticleCall::ThetaSurface)),
            8 => Ok(NumberCall::OfParticle(ParticleCall::ThetaAvg)),
            9 => Ok(NumberCall::OfParticle(ParticleCall::CAvg)),
            10 => Ok(NumberCall::OfParticle(ParticleCall::OcpSurface)),
            11 => Ok(NumberCall::OfCell(CellCall::Ocv)),
            12 => Ok(NumberCall::OfCell(CellCall::SocEstimate)),
            13 => Ok(NumberCall::OfRates(RateCall::DE)),
            14 => Ok(NumberCall::OfRates(RateCall::Kappa)),
            15 => Ok(NumberCall::OfRates(RateCall::DEEff)),
            16 => Ok(NumberCall::OfRates(RateCall::KappaEff)),
            17 => Ok(NumberCall::OfElectrolyte(ElectrolyteCall::NTotal)),
            18 => Ok(NumberCall::OfElectrolyte(ElectrolyteCall::CAvg)),
            19 => Ok(NumberCall::OfElectrolyte(ElectrolyteCall::DtStable)),
            _ => Err(Refusal::Sheet),
        }
    }
}
