// What the program takes: the load file and the list of names, with units, ranges and what a run starts from.
use csv_rows::OUT;
use setting_messages::{Instead, range, say};
use setting_table::names::{CURRENT, DT, Place};

pub(crate) fn write_help() {
    say(
        OUT,
        b"replay [lfp | nmc | CELL FILE] load=FILE [NAME=VALUE ..]\n\n",
    );
    say(
        OUT,
        b"Replays a recorded load on a cell, a step for each line of the load file, and writes its rows as CSV. A line has the interval (",
    );
    range(OUT, Some(Place::at(DT)));
    say(OUT, b") and the current\n(");
    range(OUT, Some(Place::at(CURRENT)));
    say(
        OUT,
        b"; a charge is negative), each as the 16 hexadecimal digits, in upper case, of its binary64, with one tab between them and a line feed at the end;\n",
    );
    say(
        OUT,
        b"tools/drive_cycle.py makes such lines from decimals. A load file has at most 65,536 bytes, which are 1,927 lines.\n",
    );
    say(
        OUT,
        b"\nThe names, what each starts from for nmc, and its range:\n\n",
    );
    setting_messages::write_names(Instead::Load);
    say(
        OUT,
        b"What it sets for current, dt or time is taken and has no effect: the load file has them.\n",
    );
}
