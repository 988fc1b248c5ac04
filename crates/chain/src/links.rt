// Cells name each other by index, since the engine and what is below it have no heap: all memory is lent.
// Functions over lent slices and no methods of the store: while links are moved, its ghost fields do not hold.
ghost use Rattle.std.specs.Prelude.{◌≡◌, ◌^◌, ◌<◌, map, length, Some, None, slice_index_or, slice_set};
ghost use Rattle.std.specs.Option.{ForSome};
ghost use Rattle.versions.specs.Stores.{as_of, AreFalling, pair_of};
ghost use Rattle.chain.specs.Links.{Ends, HasNoRepeat, list_from, version_at, version_of, first_below, link_behind, ended_at, given_back, cell_at, filled, before, laid};
ghost use Rattle.chain.specs.Store.{IsWellLinked, IsPruned, chain_versions};

use crate::cell::{Cell, Link};
use versions::store::Version;

/// Clears all cells and links them as unused, each to the one before it. Answers the link to the last of them.
pub fn link_all(cells: &mut [Cell]) -> Link
    requires { length cells.old < 2 ^ 16 }
    ensures unused { result ≡ before (length cells.old) }
    ensures after { cells.new ≡ laid (length cells.old) }
{
    let mut unused = None;
    for (i, cell) in cells.iter_mut().enumerate() {
        *cell = Cell {
            next: unused,
            ..Cell::CLEARED
        };
        // The bound on the cells shows that it fits.
        unused = Some(i as u16);
    }
    unused
}

/// Stamp and value at a link, or those of the base version.
pub fn version(cells: &[Cell], link: Link) -> (u32, u64)
    requires { ForSome link (λ i. i < length cells.now) }
    ensures { result ≡ pair_of (version_of cells.now link) }
{
    link.map_or((0, 0), |i| {
        let cell = cells[usize::from(i)];
        (cell.stamp, cell.value)
    })
}

// A list of links is walked by `while let`: the library's `successors` has no end that a proof knows.
/// The first cell of the list from a link on whose stamp is below the tick.
pub fn find_below(cells: &[Cell], from: Link, tick: u32) -> Link
    requires { Ends cells.now from }
    ensures { result ≡ first_below tick cells.now (list_from cells.now from) }
{
    let mut link = from;
    while let Some(i) = link {
        let cell = cells[usize::from(i)];
        if cell.stamp < tick {
            return link;
        }
        link = cell.next;
    }
    None
}

/// Stamp and value of the newest version below the tick in the list from a link on.
pub fn version_below(cells: &[Cell], from: Link, tick: u32) -> (u32, u64)
    requires { Ends cells.now from }
    ensures { result ≡ pair_of (as_of tick
        (map (version_at cells.now) (list_from cells.now from))) }
{
    let found = find_below(cells, from, tick);
    version(cells, found)
}

/// Fills an unused cell with a version, in front of its key's chain, and answers where the unused cells went on there.
pub fn push(heads: &mut [Link], cells: &mut [Cell], cell: u16, version: Version) -> Link
    requires known { version.key < length heads.old }
    requires low { cell < length cells.old }
    ensures rest { result ≡ (cell_at cells.old cell).next }
    ensures head { heads.new ≡ slice_set heads.old version.key (Some cell) }
    ensures filled { cells.new ≡ slice_set cells.old cell
        (filled version (slice_index_or heads.old version.key None)) }
{
    let Version { key, stamp, value } = version;
    let rest = cells[usize::from(cell)].next;
    cells[usize::from(cell)] = Cell {
        stamp,
        value,
        next: heads[usize::from(key)],
    };
    heads[usize::from(key)] = Some(cell);
    rest
}

/// Ends the list from a link on behind its first cell stamped below the tick, and answers where it went on there.
pub fn cut_below(cells: &mut [Cell], from: Link, tick: u32) -> Link
    requires { Ends cells.old from }
    ensures tail { result ≡ link_behind cells.old
        (first_below tick cells.old (list_from cells.old from)) }
    ensures after { cells.new ≡ ended_at cells.old
        (first_below tick cells.old (list_from cells.old from)) }
{
    let found = usize::from(find_below(cells, from, tick)?);
    cells[found].next.take()
}

/// Clears each cell of the list from a link on and puts it in front of the unused ones.
/// Answers the link to the unused cells, and how many came to them.
pub fn give_back(cells: &mut [Cell], from: Link, unused: Link) -> (Link, u16)
    requires ended { Ends cells.old from }
    requires once { HasNoRepeat (list_from cells.old from) }
    requires few { length cells.old < 2 ^ 16 }
    ensures unused { result.0 ≡ (given_back cells.old (list_from cells.old from) unused).1 }
    ensures count { result.1 ≡ length (list_from cells.old from) }
    ensures after { cells.new ≡ (given_back cells.old (list_from cells.old from) unused).0 }
{
    let mut unused = unused;
    let mut count = 0;
    let mut link = from;
    while let Some(i) = link {
        link = cells[usize::from(i)].next;
        cells[usize::from(i)] = Cell {
            next: unused,
            ..Cell::CLEARED
        };
        unused = Some(i);
        count += 1;
    }
    (unused, count)
}

/// Cuts the outdated versions off every key's chain and gives their cells back.
/// Answers the link to the unused cells, and how many came to them.
pub fn prune_chains(heads: &[Link], cells: &mut [Cell], unused: Link, horizon: u32) -> (Link, u16)
    requires sound { IsWellLinked heads.now cells.old unused }
    requires falling { AreFalling (chain_versions heads.now cells.old) }
    requires few { length cells.old < 2 ^ 16 }
    ensures { IsPruned horizon heads.now cells.old cells.new result.0 result.1 }
{
    let mut unused = unused;
    let mut freed = 0;
    for head in heads {
        let tail = cut_below(cells, *head, horizon);
        let (link, count) = give_back(cells, tail, unused);
        unused = link;
        freed += count;
    }
    (unused, freed)
}
