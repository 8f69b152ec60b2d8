// A file's entry in its folder, forced to disk: without it a file that was just made may be gone after a loss of power.

ghost use Rattle.std.specs.Counts.{IsPrefixLen};

use files::pages::within_row;
use files::paths::path;
use std::fs::File;
use std::io::Result;
use streams::ports::fail;

// How many bytes of a name are its folder's, the last slash among them; 0 where it names none.
fn folder_size(name: &[u8]) -> usize
    ensures { IsPrefixLen result name.now }
{
    let last = name.iter().rposition(|b| *b == b'/');
    within_row(last.map_or(0, |i| i + 1), name)
}

fn open_folder(rt: &HostRuntime, name: &[u8]) -> Result<File> {
    let n = folder_size(name);
    if n == 0 {
        return File::open(rt, ".");
    }
    File::open(rt, path(&name[..n])?)
}

fn force_entries(rt: &HostRuntime, name: &[u8]) -> Result<()> {
    let folder = open_folder(rt, name)?;
    folder.sync_all()
}

// Forces the entries of the folder in which a file stands, and answers whether that was done; standard error says why not.
pub fn force_folder(rt: &HostRuntime, name: &[u8]) -> bool {
    if let Err(error) = force_entries(rt, name) {
        fail(rt, b"? the folder of JOURNAL", error);
        return false;
    }
    true
}
