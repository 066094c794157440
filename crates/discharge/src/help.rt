// What the program takes: the list of names, with units, ranges and what a run starts from.
use csv_rows::OUT;
use setting_messages::{Instead, say};

pub(crate) fn write_help() {
    say(
        OUT,
        b"discharge [lfp | nmc | CELL FILE] [NAME=VALUE ..]\n\n",
    );
    say(
        OUT,
        b"Discharges a cell at a constant current and writes its rows as CSV. The names, what each starts from for nmc, and its range:\n\n",
    );
    setting_messages::write_names(Instead::Nothing);
}
