// A reader of a file's contents: it holds the file and the number of the next entry. `entries`, whose parameters
// are plain, walks a file forward with it.
#![tactic(auto)]

ghost use Rattle.std.specs.Prelude.{◌≡◌, ◌+◌, ◌*◌, ◌≤◌, length, take, drop};
ghost use Rattle.refusals.specs.Refusals.{fine};
ghost use Rattle.dutyfile.specs.File.{columns_in, bodies_at, entry_of, entries};
ghost use Rattle.dutyfile.specs.Faults.{header_fault};

use dutyfile::Entry;

#[derive(Clone, Copy)]
pub struct Reader<'a> {
    pub file: &'a [u8],
    // The number of the next entry.
    pub next: usize,
}

impl<'a> Reader<'a> {
    // At the start of the contents.
    pub fn new(file: &'a [u8]) -> Reader<'a>
        ensures { (result.file ≡ file.entry) × (result.next ≡ 0) }
    {
        Reader { file, next: 0 }
    }

    // The next entry.
    pub fn entry(self) -> Entry
        requires { (self.next ≤ 255) × (16 + 8 * self.next ≤ length self.file.now) }
        ensures { result ≡ entry_of (drop (bodies_at self.entry.next) self.entry.file.now) }
    {
        dutyfile::entry_at(self.file, self.next)
    }

    // In the same file, with the following entry next.
    pub fn advanced(self) -> Reader<'a>
        requires { self.next ≤ 255 }
        ensures { (result.file ≡ self.entry.file) × (result.next ≡ self.entry.next + 1) }
    {
        Reader {
            file: self.file,
            next: self.next + 1,
        }
    }
}

// A table of 256 places.
fn blank() -> [Entry; 256] {
    [Entry {
        cost: 0,
        start: 0,
        size: 0,
    }; 256]
}

// The entries of a file with so many columns, at the front of a table. The file is walked forward, one entry after another.
pub fn entries(file: &[u8], columns: usize) -> [Entry; 256]
    requires { (header_fault file.now ≡ fine) × (columns ≡ columns_in file.now) }
    ensures { take columns result ≡ entries file.now }
{
    let mut reader = Reader::new(file);
    let mut table = blank();
    while reader.next < columns {
        table[reader.next] = reader.entry();
        reader = reader.advanced();
    }
    table
}
