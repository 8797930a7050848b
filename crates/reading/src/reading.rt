//! The rows of a part of the file.
ghost use Rattle.std.specs.Prelude.{◌≡◌, ◌+◌, ◌-◌, ◌<◌, ◌≤◌, length, take, Some, None};
ghost use Rattle.tags.specs.Marks.{marks_of};
ghost use Rattle.tags.specs.Reads.{kind_of, name_of};
ghost use Rattle.rows.specs.Pieces.{Content, Inside, put};
ghost use Rattle.rows.specs.Stretches.{row_of, action_of, lone, one, content};
ghost use Rattle.rows.specs.Places.{stored, paired, Based};
ghost use Rattle.rows.specs.Lists.{RowRule, Leaves};
ghost use Rattle.rows.specs.Same.{SameLists};
ghost use Rattle.reading.specs.Opens.{items, Chain, ChainAt};
ghost use Rattle.reading.specs.Reading.{so_far, sealed, Ready, Under};

use crate::opens::Opens;
use machine::Machine;
use rows::part::Kept;
use rows::putting::add_entry;
use rows::tagging::{own_plain, row_of};
use rows::{Lists, PieceFault, Row, RowKind, Source};
use tags::{Tag, next_mark, read_tag};

/// What was read so far: how many rows there are, where their base stands, and the open rows below it.
#[derive(Drop)]
pub struct Reader {
    pub rows: usize,
    pub base: Option<usize>,
    pub opens: Opens,
}

/// The base once the one at `i` is closed.
fn base_below<P: Copy>(opens: &mut Opens, lists: &Lists<'_, P>, i: usize) -> Option<usize>
    requires within { i ≤ length lists.now.rows.now }
    requires chain { Chain lists.now.rows.now i (items opens.old) opens.old.complete }
    ensures based { Based lists.now.rows.now i result }
    ensures chain { ChainAt lists.now.rows.now result opens.new }
{
    opens.next_base(lists.rows, i)
}

impl Reader {
    fn new() -> Reader
        ensures rows { result.rows ≡ 0 }
        ensures base { result.base ≡ None }
    {
        Reader {
            rows: 0,
            base: None,
            opens: Opens::new(),
        }
    }

    /// The row at `n`, after those read so far, is open: it is the base from now on.
    fn open(&mut self, n: usize)
        ensures rows { self.new.rows ≡ self.old.rows }
        ensures base { self.new.base ≡ Some n }
        ensures under { Under self.old.opens self.new.opens self.old.base }
    {
        match self.base {
            Some(i) => self.opens.push(i),
            None => self.opens.clear(),
        }
        self.base = Some(n);
    }

    /// Adds a row that closes no base.
    fn add<M: Machine>(
        &mut self,
        source: &Source<'_, M>,
        lists: &mut Lists<'_, M::Plain>,
        row: Row,
        plain: &M::Plain,
    )
        requires room { self.old.rows < length lists.old.rows.now }
        requires ready { Ready source.now.file.now lists.old.rows.now self.old }
        requires own { Inside source.now.file.now row }
        requires adds { row.kind ≡ RowKind.Close → self.old.base ≡ None }
        ensures put { so_far lists.new self.new ≡ put source.now.file.now (stored (M.model source.now.machine.now)) (so_far lists.old self.old) (lone row plain.now) }
        ensures ready { Ready source.now.file.now lists.new.rows.now self.new }
        ensures rows { self.new.rows ≡ self.old.rows + 1 }
        ensures opens { (row.kind ≡ RowKind.Open → ⊥) → (self.new.base ≡ self.old.base) × (self.new.opens ≡ self.old.opens) }
        ensures same { SameLists lists.old lists.new }
    {
        let n = self.rows;
        add_entry(source.machine, lists, n, self.base, row, plain);
        if let RowKind::Open = row.kind {
            self.open(n);
        }
        self.rows = n + 1;
    }

    /// Closes the base at `i` by the end tag `row`.
    fn close<M: Machine>(
        &mut self,
        source: &Source<'_, M>,
        lists: &mut Lists<'_, M::Plain>,
        i: usize,
        row: Row,
    ) -> Result<(), PieceFault>
        requires room { self.old.rows < length lists.old.rows.now }
        requires ready { Ready source.now.file.now lists.old.rows.now self.old }
        requires own { Inside source.now.file.now row }
        requires closes { row.kind ≡ RowKind.Close }
        requires base { self.old.base ≡ Some i }
        ensures put { (p : M.Plain) → sealed lists.new self.new result ≡ put source.now.file.now (stored (M.model source.now.machine.now)) (so_far lists.old self.old) (lone row p) }
        ensures ready { Ready source.now.file.now lists.new.rows.now self.new }
        ensures rows { self.new.rows ≡ self.old.rows }
        ensures same { SameLists lists.old lists.new }
    {
        lists.close_base(source.file, i, row)?;
        self.base = base_below(&mut self.opens, lists, i);
        Ok(())
    }

    /// Puts the row of the tag at `mark` after those read so far. An end tag that closes the base needs no action.
    fn put_tag<M: Machine>(
        &mut self,
        source: &Source<'_, M>,
        lists: &mut Lists<'_, M::Plain>,
        mark: usize,
        tag: Tag<'_>,
    ) -> Result<(), PieceFault>
        requires room { self.old.rows < length lists.old.rows.now }
        requires ready { Ready source.now.file.now lists.old.rows.now self.old }
        requires own { Inside source.now.file.now (row_of mark (kind_of tag) (name_of tag)) }
        ensures put { sealed lists.new self.new result ≡ put source.now.file.now (stored (M.model source.now.machine.now)) (so_far lists.old self.old) (lone (row_of mark (kind_of tag.entry) (name_of tag.entry)) ((M.model source.now.machine.now).plain (action_of (M.model source.now.machine.now) (kind_of tag.entry) (name_of tag.entry)))) }
        ensures ready { Ready source.now.file.now lists.new.rows.now self.new }
        ensures few { self.new.rows ≤ self.old.rows + 1 }
        ensures same { SameLists lists.old lists.new }
    {
        let row = row_of(mark, tag);
        match (row.kind, self.base) {
            (RowKind::Close, Some(i)) => self.close(source, lists, i, row),
            _ => {
                let plain = own_plain(source.machine, tag);
                self.add(source, lists, row, &plain);
                Ok(())
            }
        }
    }

    /// Reads the stretch from `mark` up to the next mark at `to`, and puts its row after those read so far.
    fn read_stretch<M: Machine>(
        &mut self,
        source: &Source<'_, M>,
        lists: &mut Lists<'_, M::Plain>,
        mark: usize,
        to: usize,
    ) -> Result<(), PieceFault>
        requires room { self.old.rows < length lists.old.rows.now }
        requires ready { Ready source.now.file.now lists.old.rows.now self.old }
        ensures put { sealed lists.new self.new result ≡ put source.now.file.now (stored (M.model source.now.machine.now)) (so_far lists.old self.old) (one source.now.file.now (stored (M.model source.now.machine.now)) (mark, to)) }
        ensures ready { Ready source.now.file.now lists.new.rows.now self.new }
        ensures few { self.new.rows ≤ self.old.rows + 1 }
        ensures same { SameLists lists.old lists.new }
    {
        let tag = read_tag(source.file, mark, to)?;
        self.put_tag(source, lists, mark, tag)
    }
}

/// Reads the rows of the bytes from `from` up to but without `to` into the beginning of the lists.
fn read_rows<M: Machine>(
    source: &Source<'_, M>,
    lists: &mut Lists<'_, M::Plain>,
    from: usize,
    to: usize,
) -> Kept
    requires within { to ≤ length source.now.file.now }
    requires room { length (marks_of source.now.file.now from to) ≤ length lists.old.rows.now }
    ensures read { ◌≡◌ {A = Content _} (record { rows = take result.rows (paired lists.new.rows.now lists.new.actions.now); fault = result.fault }) (content source.now.file.now (stored (M.model source.now.machine.now)) from to) }
    ensures few { result.rows ≤ length (marks_of source.now.file.now from to) - 1 }
    ensures same { SameLists lists.old lists.new }
{
    let mut reader = Reader::new();
    let mut mark = next_mark(source.file, from, to);
    let mut next = next_mark(source.file, mark + 1, to);
    while next < to {
        if let Err(fault) = reader.read_stretch(source, lists, mark, next) {
            let n = lists.keep_closes(reader.rows);
            return Kept {
                rows: n,
                fault: Some(fault),
            };
        }
        mark = next;
        next = next_mark(source.file, mark + 1, to);
    }
    Kept {
        rows: reader.rows,
        fault: None,
    }
}

/// The same, where the lists lie apart.
fn read_into<M: Machine>(
    source: &Source<'_, M>,
    rows: &mut [Row],
    actions: &mut [M::Plain],
    from: usize,
    to: usize,
) -> Kept
    requires within { to ≤ length source.now.file.now }
    requires beside { length rows.old ≡ length actions.old }
    requires room { length (marks_of source.now.file.now from to) ≤ length rows.old }
    ensures read { ◌≡◌ {A = Content _} (record { rows = take result.rows (paired rows.new actions.new); fault = result.fault }) (content source.now.file.now (stored (M.model source.now.machine.now)) from to) }
    ensures few { result.rows ≤ length (marks_of source.now.file.now from to) - 1 }
{
    let mut lists = Lists { rows, actions };
    read_rows(source, &mut lists, from, to)
}

/// Reads the bytes from `from` up to but without `to`, which have `marks` marks: the rows are written from `used` on.
pub fn read<M: Machine>(
    source: &Source<'_, M>,
    rows: &mut [Row],
    actions: &mut [M::Plain],
    used: usize,
    from: usize,
    to: usize,
    marks: usize,
) -> Kept
    requires within { to ≤ length source.now.file.now }
    requires marks { marks ≡ length (marks_of source.now.file.now from to) }
    requires room { (used + marks ≤ length rows.old) × (used + marks ≤ length actions.old) }
    ensures left { Leaves used marks (content source.now.file.now (stored (M.model source.now.machine.now)) from to) result rows.old rows.new actions.old actions.new }
    ensures few { result.rows ≤ marks - 1 }
    ensures rule { RowRule source.now.file.now rows.new used result.rows }
{
    let end = used + marks;
    read_into(
        source,
        &mut rows[used..end],
        &mut actions[used..end],
        from,
        to,
    )
}
