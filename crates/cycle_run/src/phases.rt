// The phases of a charger: the current that each applies, when it ends, and what is asked of its number.
ghost use Rattle.std.specs.Prelude.{◌≡◌};
ghost use Rattle.cycle_run.specs.Phases.{current_of, phase_over, phase_load_fits, phase_time_fits, loads_fit, times_fit};

// A charge with its current, a rest with its time, a discharge with its current.
#[derive(Clone, Copy)]
pub enum Phase {
    Charge(f64),
    Rest(f64),
    Discharge(f64),
}

// The current that a phase applies: a charge's negated, a rest's +0.
pub fn current_of(p: Phase) -> f64
    ensures { result ≡ current_of p }
{
    match p {
        Phase::Charge(i) => -i,
        Phase::Rest(_) => 0.0,
        Phase::Discharge(i) => i,
    }
}

// Whether a step was the phase's last: a rest's by its clock, whatever the cutoff.
pub fn phase_over(p: Phase, cutoff: bool, clock: f64) -> bool
    ensures { result ≡ phase_over p cutoff clock }
{
    match p {
        Phase::Charge(_) => cutoff,
        Phase::Rest(t) => !(clock < t),
        Phase::Discharge(_) => cutoff,
    }
}

// Whether a phase's current, where it has one, is above 0 and at most 1e6 A.
pub fn load_fits(p: Phase) -> bool
    ensures { result ≡ phase_load_fits p }
{
    match p {
        Phase::Charge(i) => (0.0 < i) & (i <= 1e6),
        Phase::Rest(_) => true,
        Phase::Discharge(i) => (0.0 < i) & (i <= 1e6),
    }
}

// Whether a phase's time, where it has one, is 0 to 1e9 s.
pub fn time_fits(p: Phase) -> bool
    ensures { result ≡ phase_time_fits p }
{
    match p {
        Phase::Charge(_) => true,
        Phase::Rest(t) => (0.0 <= t) & (t <= 1e9),
        Phase::Discharge(_) => true,
    }
}

// Whether the currents of the first `count` phases are fit.
pub(crate) fn loads_fit(phases: [Phase; 8], count: usize) -> bool
    ensures { result ≡ loads_fit phases count }
{
    phases.iter().take(count).all(|p| load_fits(*p))
}

// Whether the times of the first `count` phases are fit.
pub(crate) fn times_fit(phases: [Phase; 8], count: usize) -> bool
    ensures { result ≡ times_fit phases count }
{
    phases.iter().take(count).all(|p| time_fits(*p))
}
