// Bytes into a lent row.

ghost use Rattle.std.specs.Prelude.{◌≡◌, length};
ghost use Rattle.text.specs.Output.{page, put as laid, Written};

// One byte, where there is room for it.
pub fn put_byte(out: &mut [u8], at: usize, b: u8) -> usize
    ensures { page out.new result ≡ laid (page out.old at) b }
{
    if at < out.len() {
        out[at] = b;
        return at + 1;
    }
    at
}

// One number, into a row of numbers.
pub fn put_value(row: &mut [u64], at: usize, value: u64) -> usize
    ensures { page row.new result ≡ laid (page row.old at) value }
{
    if at < row.len() {
        row[at] = value;
        return at + 1;
    }
    at
}

// kept: std's copy of as many bytes as are known when it runs is compiled to memmove, which who links the C library need not have (docs/LIBRARY.md)
// Bytes over as many others.
fn lay(row: &mut [u8], bytes: &[u8])
    requires { length row.old ≡ length bytes.now }
    ensures { row.new ≡ bytes.now }
{
    for i in 0..bytes.len() {
        row[i] = bytes[i];
    }
}

// Bytes in their order, as many as have room: counted before, so that a compiler copies many at once.
pub fn put(out: &mut [u8], at: usize, bytes: &[u8]) -> usize
    ensures { Written out.old at bytes.now out.new result }
{
    if out.len() < at {
        return at;
    }
    let n = bytes.len().min(out.len() - at);
    lay(&mut out[at..at + n], &bytes[..n]);
    at + n
}
