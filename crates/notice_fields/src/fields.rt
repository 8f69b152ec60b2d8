// The field table, and what follows from it: which fields a kind has, where each stands, how long a notice is.
// Writer and reader both go by this table; a length stands nowhere else.

ghost use Rattle.std.specs.Prelude.{◌≡◌, ◌<◌, ◌≤◌, ltb};
ghost use Rattle.rules.specs.Refusals.{pick};
ghost use Rattle.notice_fields.specs.Fields.{rows, field_of, is_carried, span_of, start_of};

// A row: bit k of kinds is set where kind k carries the field.
#[derive(Clone, Copy)]
pub struct Field {
    pub tag: u8,
    pub size: usize,
    pub kinds: u8,
}

pub const ROWS: usize = 8;

// The rows by what they hold.
pub const KIND: usize = 0;

pub const SEQUENCE: usize = 1;

pub const TITLE: usize = 2;

pub const TIME: usize = 3;

pub const LENGTH: usize = 4;

pub const FLOOR: usize = 5;

pub const CAP: usize = 6;

pub const COUNT: usize = 7;

// Tag and two bytes of length stand before each value.
pub const HEAD: usize = 3;

// The bits of the rows that every kind carries: one for each kind that there is.
const ALL: u8 = 0b0111_1110;

// The table, row by row. Its rows are no array: one that is indexed would be laid out anew at every look.
const KIND_FIELD: Field = Field {
    tag: 1,
    size: 1,
    kinds: ALL,
};

const SEQUENCE_FIELD: Field = Field {
    tag: 2,
    size: 4,
    kinds: ALL,
};

const TITLE_FIELD: Field = Field {
    tag: 3,
    size: 1,
    kinds: ALL,
};

const TIME_FIELD: Field = Field {
    tag: 4,
    size: 8,
    kinds: ALL,
};

const LENGTH_FIELD: Field = Field {
    tag: 5,
    size: 4,
    kinds: 0b0100_0010,
};

const FLOOR_FIELD: Field = Field {
    tag: 6,
    size: 1,
    kinds: 0b0000_0010,
};

const CAP_FIELD: Field = Field {
    tag: 7,
    size: 1,
    kinds: 0b0000_0010,
};

const COUNT_FIELD: Field = Field {
    tag: 8,
    size: 1,
    kinds: 0b0100_0110,
};

// The bytes of the longest notice, an open, which has every field of the table.
pub const LONGEST: usize = ROWS * HEAD
    + KIND_FIELD.size
    + SEQUENCE_FIELD.size
    + TITLE_FIELD.size
    + TIME_FIELD.size
    + LENGTH_FIELD.size
    + FLOOR_FIELD.size
    + CAP_FIELD.size
    + COUNT_FIELD.size;

pub fn entry(row: usize) -> Field
    requires { row < rows }
    ensures { result ≡ field_of row }
{
    match row {
        KIND => KIND_FIELD,
        SEQUENCE => SEQUENCE_FIELD,
        TITLE => TITLE_FIELD,
        TIME => TIME_FIELD,
        LENGTH => LENGTH_FIELD,
        FLOOR => FLOOR_FIELD,
        CAP => CAP_FIELD,
        _ => COUNT_FIELD,
    }
}

// Whether a notice of the kind has the row's field. The table has no bit for a kind from 8 on.
pub fn carried(kind: u8, row: usize) -> bool
    requires { row < rows }
    ensures { result ≡ is_carried kind row }
{
    let f = entry(row);
    kind < 8 && (f.kinds >> kind) % 2 == 1
}

// How many bytes the row takes in a notice of the kind.
pub fn span(kind: u8, row: usize) -> usize
    requires { row < rows }
    ensures { result ≡ span_of kind row }
{
    let f = entry(row);
    if carried(kind, row) { HEAD + f.size } else { 0 }
}

// How many bytes a row takes before another one: none where it stands behind it.
fn span_before(kind: u8, i: usize, row: usize) -> usize
    requires { i < rows }
    ensures { (result ≡ pick (ltb i row) (span_of kind i) 0) × (result ≤ 11) }
{
    if i < row { span(kind, i) } else { 0 }
}

// The spans of all rows before one.
fn spans_before(kind: u8, row: usize) -> usize
    requires { row ≤ rows }
    ensures { result ≡ start_of kind row }
{
    let a = span_before(kind, KIND, row);
    let b = span_before(kind, SEQUENCE, row);
    let c = span_before(kind, TITLE, row);
    let d = span_before(kind, TIME, row);
    let e = span_before(kind, LENGTH, row);
    let f = span_before(kind, FLOOR, row);
    let g = span_before(kind, CAP, row);
    let h = span_before(kind, COUNT, row);
    a + b + c + d + e + f + g + h
}

// Where the row stands in a notice of the kind; past the last row, how long the notice is. Each kind has an arm of its own, so that
// the place of a row that is known is a number, and no sum when the code runs.
pub fn start(kind: u8, row: usize) -> usize
    requires { row ≤ rows }
    ensures { result ≡ start_of kind row }
{
    match kind {
        1 => spans_before(1, row),
        2 => spans_before(2, row),
        3 => spans_before(3, row),
        4 => spans_before(4, row),
        5 => spans_before(5, row),
        6 => spans_before(6, row),
        _ => 0,
    }
}
