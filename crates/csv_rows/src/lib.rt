// A run's rows as lines of CSV: the time first, then the report's other fields in their order.
// They are written by `io`: `println!` asks for a runtime and may fail, which the functions here never did.
#![tactic(auto)]

ghost use Rattle.std.specs.Prelude.{◌≡◌, ◌<◌};
ghost use Rattle.decimal_spelling.specs.Spelling.{put_all};
ghost use Rattle.csv_rows.specs.Row.{field_of, number_at, separator_of, columns_by};

use decimal_spelling::Line;

// Standard output.
pub const OUT: i32 = 1;

// How many numbers a row has.
pub const FIELDS: usize = 8;

// The field in column k.
fn field(k: usize) -> usize
    requires { k < 8 }
    ensures { (result ≡ field_of k) × (result < 8) }
{
    match k {
        0 => 6,
        7 => 7,
        _ => k - 1,
    }
}

// The number of a row in column k; a row past the last whole one has zeros.
fn number_at(rows: &[f64], row: usize, k: usize) -> f64
    requires { k < 8 }
    ensures { result ≡ number_at rows.now row k }
{
    if row >= rows.len() / FIELDS {
        return 0.0;
    }
    rows[row * FIELDS + field(k)]
}

fn separator(k: usize, last: u8) -> u8
    ensures { result ≡ separator_of last k }
{
    if k == 7 { last } else { b',' }
}

// Puts a row of a run's rows, with the byte behind its last column.
// By number: the columns are in another order than the fields.
pub fn put_row(line: &mut Line, rows: &[f64], row: usize, last: u8)
    ensures { line.new ≡ put_all line.old (columns_by 8 rows.now row last) }
{
    for k in 0..FIELDS {
        line.put_number(number_at(rows, row, k));
        line.put(separator(k, last));
    }
}

// Writes a line; nothing where it says that it has more bytes than there is room for.
pub fn write_line(fd: i32, line: &Line) {
    if line.used() <= 4096 {
        io::write_all(fd, line.bytes());
    }
}

fn write_row(rows: &[f64], row: usize) {
    let mut line = Line::new();
    put_row(&mut line, rows, row, b'\n');
    write_line(OUT, &line);
}

// Writes the names of the columns with their units, and what follows in that line, to standard output.
pub fn write_header(end: &[u8]) {
    io::write_all(
        OUT,
        b"time [s],voltage [V],current [A],theta_neg [1],theta_pos [1],theta_neg_avg [1],theta_pos_avg [1],cutoff [1]",
    );
    io::write_all(OUT, end);
}

// Writes the names of the columns, and a line for each of the first rows.
// The slice may have room for more rows than there are: docs/CLAIMS.md names this function.
// By number: a row past the last whole one has a line too, of zeros.
pub fn write_rows(rows: &[f64], count: usize) {
    write_header(b"\n");
    for row in 0..count {
        write_row(rows, row);
    }
}
