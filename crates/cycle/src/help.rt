// What the program takes: the phases, the two counts and the list of names, with units, ranges and what a run starts from.
use csv_rows::OUT;
use setting_messages::{Instead, say};

pub(crate) fn write_help() {
    say(
        OUT,
        b"cycle [lfp | nmc | CELL FILE] PHASE=NUMBER .. [repeat=N] [budget=N] [NAME=VALUE ..]\n\nTakes a cell through the phases of a charger, 1 to 8 in the order given, ",
    );
    say(
        OUT,
        b"and writes its rows as CSV, with the repeat and the phase of each. A phase is one of\n\n    charge=AMPERES  (above 0 to 1000000 A)\n    rest=SECONDS  (0 to 1000000000 s)\n",
    );
    say(
        OUT,
        b"    discharge=AMPERES  (above 0 to 1000000 A)\n\nA charge or discharge ends with its first row beyond v_min or v_max, a rest when its time has passed, whatever the voltage. ",
    );
    say(
        OUT,
        b"How often the phases are repeated, and the most rows:\n\n    repeat = 1  (1 to 1000, whole)\n    budget = 10000  (1 to 100000, whole)\n",
    );
    say(
        OUT,
        b"\nThe other names, what each starts from for nmc, and its range; dt is the time between rows:\n\n",
    );
    setting_messages::write_names(Instead::Phases);
    say(
        OUT,
        b"What it sets for current or time is taken and has no effect: the phases have them.\n",
    );
}
