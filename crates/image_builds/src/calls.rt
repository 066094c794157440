// The calls that give a record, ready or new.
ghost use Rattle.std.specs.Prelude.{◌≡◌, false, MatchResult};
ghost use Rattle.refusal.specs.Ranges.{count_in_range};
ghost use Rattle.refusal.specs.declared.Refusal.TheVariants.{Sheet};
ghost use Rattle.image_builds.specs.Calls.{call_number};

use refusal::Refusal;

// A record that needs no image.
#[derive(Clone, Copy, Debug, PartialEq, Eq, Hash)]
pub enum Ready {
    GraphiteAnode,
    LfpCathode,
    NmcCathode,
    Lipf6EcDmc,
    NmcGraphite,
    LfpGraphite,
}

// A single-particle cell: with one of two ready pairs of sheets, or with the image's.
#[derive(Clone, Copy, Debug, PartialEq, Eq, Hash)]
pub enum NewCell {
    GraphiteLfp,
    GraphiteNmc,
    FromSheets,
}

// A record that is built from an image.
#[derive(Clone, Copy, Debug, PartialEq, Eq, Hash)]
pub enum New {
    Particle,
    Cell(NewCell),
    Electrolyte,
    Dfn,
}

// A call that gives a record.
#[derive(Clone, Copy, Debug, PartialEq, Eq, Hash)]
pub enum BuildCall {
    OfReady(Ready),
    OfNew(New),
}

// The call with a number of C's, 1 to 12.
impl TryFrom<u64> for BuildCall {
    type Error = Refusal;

    ghost try_from_gives = { λ n r. MatchResult r (λ call. n ≡ call_number call) (λ e. (e ≡ Sheet) × (count_in_range n 1 12 ≡ false)) };

    fn try_from(n: u64) -> Result<BuildCall, Refusal> {
        match n {
            1 => Ok(BuildCall::OfReady(Ready::GraphiteAnode)),
            2 => Ok(BuildCall::OfReady(Ready::LfpCathode)),
            3 => Ok(BuildCall::OfReady(Ready::NmcCathode)),
            4 => Ok(BuildCall::OfReady(Ready::Lipf6EcDmc)),
            5 => Ok(BuildCall::OfReady(Ready::NmcGraphite)),
            6 => Ok(BuildCall::OfReady(Ready::LfpGraphite)),
            7 => Ok(BuildCall::OfNew(New::Particle)),
            8 => Ok(BuildCall::OfNew(New::Cell(NewCell::GraphiteLfp))),
            9 => Ok(BuildCall::OfNew(New::Cell(NewCell::GraphiteNmc))),
            10 => Ok(BuildCall::OfNew(New::Cell(NewCell::FromSheets))),
            11 => Ok(BuildCall::OfNew(New::Electrolyte)),
            12 => Ok(BuildCall::OfNew(New::Dfn)),
            _ => Err(Refusal::Sheet),
        }
    }
}
