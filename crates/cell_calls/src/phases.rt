// The eight phases of a cycle from their image: each is two words, its kind and its number.
// The kind is a number, as C writes it.
ghost use Rattle.std.specs.Prelude.{◌≡◌, ◌≤◌, is_some, IfSome};
ghost use Rattle.cell_calls.specs.Phases.{kind_listed, phase_of, phase_at, kinds_fit, phases_at};

use cycle_run::phases::Phase;
use image_layout::{PHASE_KIND, PHASE_NUMBER, PHASE_WORDS};

// The phase of a kind and a number, where the kind is listed: 1 charge, 2 rest, 3 discharge.
#[tactic(auto, unfolding(crate::specs::Phases::phase_of))]
fn listed_phase(kind: u64, number: f64) -> Option<Phase>
    ensures listed { is_some result ≡ kind_listed kind }
    ensures phase { IfSome result (λ p. p ≡ phase_of kind number) }
{
    match kind {
        1 => Some(Phase::Charge(number)),
        2 => Some(Phase::Rest(number)),
        3 => Some(Phase::Discharge(number)),
        _ => None,
    }
}

// The phase of a kind and a number. A kind that is not listed refuses its cycle, or is not looked at; it stands as a rest.
#[tactic(auto, unfolding(crate::specs::Phases::phase_of))]
fn phase_of(kind: u64, number: f64) -> Phase
    ensures { result ≡ phase_of kind number }
{
    listed_phase(kind, number).unwrap_or(Phase::Rest(number))
}

// The phase whose first word is word `at`.
#[tactic(auto, unfolding(crate::specs::Phases::phase_at))]
fn phase_at(s: &[u8], at: usize) -> Phase
    requires { at ≤ 1024 }
    ensures { result ≡ phase_at s.now at }
{
    phase_of(
        codec::read_word(s, at + PHASE_KIND),
        codec::read_f64(s, at + PHASE_NUMBER),
    )
}

// Whether the kinds of the first `count` phases are listed.
// By number: a phase is known by the place of its words.
pub(crate) fn kinds_fit(s: &[u8], count: usize) -> bool
    ensures { result ≡ kinds_fit s.now count }
{
    let mut fit = true;
    for k in 0..8 {
        fit = fit
            & ((count <= k)
                | listed_phase(codec::read_word(s, k * PHASE_WORDS + PHASE_KIND), 0.0).is_some());
    }
    fit
}

// The eight phases.
#[tactic(auto, unfolding(crate::specs::Phases::phases_at))]
pub(crate) fn phases_at(s: &[u8]) -> [Phase; 8]
    ensures { result ≡ phases_at s.now }
{
    [
        phase_at(s, 0),
        phase_at(s, 2),
        phase_at(s, 4),
        phase_at(s, 6),
        phase_at(s, 8),
        phase_at(s, 10),
        phase_at(s, 12),
        phase_at(s, 14),
    ]
}
