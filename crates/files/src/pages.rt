// A row that was written from its start up to a place, to standard output.

ghost use Rattle.std.specs.Prelude.{◌≡◌, min, length};
ghost use Rattle.std.specs.Counts.{IsPrefixLen};

// A place of a row, or its end.
pub fn within_row(place: usize, row: &[u8]) -> usize
    ensures prefix_len { IsPrefixLen result row.now }
    ensures value { result ≡ min place (length row.now) }
{
    place.min(row.len())
}

pub fn write_page(rt: &HostRuntime, row: &[u8], place: usize) {
    let n = within_row(place, row);
    streams::write_all(rt, &row[..n]);
}
