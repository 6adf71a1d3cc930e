// The rows of a table from anyone.
ghost use Rattle.std.specs.Prelude.{◌≡◌, ◌+◌, ◌*◌, ◌≤◌, ◌<◌, length};
ghost use Rattle.checker.specs.Rows.{row_at};
ghost use Rattle.checker.specs.LeafMore.{Cell, RowHere};

// A row: a record's seven numbers.
#[derive(Clone, Copy, Drop)]
pub struct Row {
    pub kind: usize,
    pub flag: usize,
    pub start: usize,
    pub end: usize,
    pub count: usize,
    pub from: usize,
    pub length: usize,
}

// The number at a place of the table.
fn cell(table: &[u16], at: usize) -> usize
    requires { at < length table.now }
    ensures { Cell table.now at result }
{
    usize::from(table[at])
}

// The place of a row in a table that has it: the table, and the row's number.
#[derive(Clone, Copy, Drop)]
pub struct Spot<'a> {
    pub table: &'a [u16],
    pub i: usize,
    ghost within: { 7 * i + 7 ≤ length table.now },
}

impl<'a> Spot<'a> {
    // The row's kind.
    pub fn kind(self) -> u16
        ensures { result ≡ (row_at self.entry.table.now self.entry.i).kind }
    {
        self.table[7 * self.i]
    }

    // The row's flag.
    pub fn flag(self) -> usize
        ensures { (result ≡ (row_at self.entry.table.now self.entry.i).flag) × (result ≤ 65535) }
    {
        cell(self.table, 7 * self.i + 1)
    }

    // Where the row starts.
    pub fn start(self) -> usize
        ensures { (result ≡ (row_at self.entry.table.now self.entry.i).start) × (result ≤ 65535) }
    {
        cell(self.table, 7 * self.i + 2)
    }

    // Where the row ends.
    pub fn end(self) -> usize
        ensures { (result ≡ (row_at self.entry.table.now self.entry.i).end) × (result ≤ 65535) }
    {
        cell(self.table, 7 * self.i + 3)
    }

    // How many rows there are, of itself and of those below it.
    pub fn count(self) -> usize
        ensures { (result ≡ (row_at self.entry.table.now self.entry.i).count) × (result ≤ 65535) }
    {
        cell(self.table, 7 * self.i + 4)
    }

    // Where its text is.
    pub fn from(self) -> usize
        ensures { (result ≡ (row_at self.entry.table.now self.entry.i).from) × (result ≤ 65535) }
    {
        cell(self.table, 7 * self.i + 5)
    }

    // How long its text is.
    pub fn length(self) -> usize
        ensures { (result ≡ (row_at self.entry.table.now self.entry.i).length) × (result ≤ 65535) }
    {
        cell(self.table, 7 * self.i + 6)
    }

    // The row.
    pub fn row(self) -> Row
        ensures { RowHere self.entry.table.now self.entry.i result }
    {
        let at = 7 * self.i;
        Row {
            kind: cell(self.table, at),
            flag: cell(self.table, at + 1),
            start: cell(self.table, at + 2),
            end: cell(self.table, at + 3),
            count: cell(self.table, at + 4),
            from: cell(self.table, at + 5),
            length: cell(self.table, at + 6),
        }
    }
}
