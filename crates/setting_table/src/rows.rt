// The table: a row for each number of run and config, then one for each number of a sheet.

// A name, filled up with spaces, and the ends of its range, both of which are in it.
#[derive(Clone, Copy)]
pub struct Row {
    pub name: [u8; 12],
    pub low: f64,
    pub high: f64,
}

// Both sheets have the same rows. An interval is above 0: the least number above it is its low end; the time limit is any number.
pub const ROWS: [Row; 21] = [
    Row {
        name: *b"current     ",
        low: -1e6,
        high: 1e6,
    },
    Row {
        name: *b"dt          ",
        low: 5e-324,
        high: 86400.0,
    },
    Row {
        name: *b"temperature ",
        low: 200.0,
        high: 400.0,
    },
    Row {
        name: *b"time        ",
        low: -1.7976931348623157e308,
        high: 1.7976931348623157e308,
    },
    Row {
        name: *b"n_nodes     ",
        low: 3.0,
        high: 64.0,
    },
    Row {
        name: *b"v_min       ",
        low: -10.0,
        high: 10.0,
    },
    Row {
        name: *b"v_max       ",
        low: -10.0,
        high: 10.0,
    },
    Row {
        name: *b"faraday     ",
        low: 9e4,
        high: 1e5,
    },
    Row {
        name: *b"r_gas       ",
        low: 8.0,
        high: 9.0,
    },
    Row {
        name: *b"resistance  ",
        low: 0.0,
        high: 1.0,
    },
    Row {
        name: *b"chemistry   ",
        low: 1.0,
        high: 3.0,
    },
    Row {
        name: *b"r_particle  ",
        low: 1e-8,
        high: 1e-3,
    },
    Row {
        name: *b"d_s_ref     ",
        low: 1e-20,
        high: 1e-8,
    },
    Row {
        name: *b"c_s_max     ",
        low: 1.0,
        high: 131072.0,
    },
    Row {
        name: *b"theta_init  ",
        low: 0.0,
        high: 1.0,
    },
    Row {
        name: *b"thickness   ",
        low: 1e-7,
        high: 1e-2,
    },
    Row {
        name: *b"epsilon_s   ",
        low: 0.01,
        high: 1.0,
    },
    Row {
        name: *b"area        ",
        low: 1e-6,
        high: 1e4,
    },
    Row {
        name: *b"e_a_ds      ",
        low: 0.0,
        high: 1e5,
    },
    Row {
        name: *b"k_bv        ",
        low: 1e-16,
        high: 1.0,
    },
    Row {
        name: *b"t_ref       ",
        low: 200.0,
        high: 400.0,
    },
];
