ghost use Rattle.std.specs.Prelude.{◌≡◌, [], IfOk, Some, None, length};
ghost use Rattle.path_patterns.specs.declared.row_steps.Room.TheVariants.{Unreached};
ghost use Rattle.path_patterns.specs.Rows.{start_row, one_less, still_needed, is_start, later_places, reached_now, row_behind, exactly, is_reached, room_behind, room_at, spread, room_between, row_step, ends_reached};

use route_types::{Memory, Row};
use std::alloc::Global;

/// How many more numbers may be taken at a place of a path.
#[derive(Clone, Copy, Debug, PartialEq, Eq)]
pub(crate) enum Room {
    /// The place is not reached.
    Unreached,
    /// Up to so many.
    UpTo(u32),
    /// Any count.
    Unlimited,
}

/// The row before any item. Its one error is want of memory.
#[tactic(auto, unfolding(crate::specs::Rows::start_row))]
pub(crate) fn start_row(alloc: Global, path: &[u32]) -> Result<Row<bool>, Memory>
    ensures { IfOk result (λ r. r ≡ start_row path.now) }
{
    let mut row = Row::new(alloc);
    row.push(true)?;
    let mut rest = path;
    while let [_, tail @ ..] = rest {
        row.push(false)?;
        rest = tail;
    }
    Ok(row)
}

fn one_less(count: u32) -> u32
    ensures { result ≡ one_less count }
{
    count.saturating_sub(1)
}

fn still_needed(least: u32, need: u32, fit: bool) -> u32
    ensures { result ≡ still_needed least need fit }
{
    if fit { one_less(need) } else { least }
}

fn is_start(row: &[bool]) -> bool
    ensures { result ≡ is_start row.now }
{
    match row {
        [] => false,
        [first, ..] => *first,
    }
}

fn later_places(row: &[bool]) -> &[bool]
    ensures { result.now ≡ later_places row.now }
{
    match row {
        [] => row,
        [_, tail @ ..] => tail,
    }
}

fn reached_now(wait: u32, need: u32, row: &[bool]) -> bool
    ensures { result ≡ reached_now wait need row.now }
{
    wait == 0 && is_start(row) && need == 0
}

fn row_behind(wait: u32, row: &[bool]) -> &[bool]
    ensures { result.now ≡ row_behind wait row.now }
{
    if wait > 0 { row } else { later_places(row) }
}

// The places that lie exactly `least` fitting numbers behind one of the row.
#[tactic(auto, unfolding(crate::specs::Rows::exactly))]
fn exactly(alloc: Global, least: u32, fits: &[bool], row: &[bool]) -> Result<Row<bool>, Memory>
    ensures { IfOk result (λ r. r ≡ exactly least least least fits.now row.now) }
{
    let mut found = Row::new(alloc);
    let mut wait = least;
    let mut need = least;
    let mut starts = row;
    let mut rest = fits;
    while let [fit, tail @ ..] = rest {
        found.push(reached_now(wait, need, starts))?;
        starts = row_behind(wait, starts);
        wait = one_less(wait);
        need = still_needed(least, need, *fit);
        rest = tail;
    }
    Ok(found)
}

fn is_reached(room: Room) -> bool
    ensures { result ≡ is_reached room }
{
    !matches!(room, Room::Unreached)
}

fn room_behind(room: Room, fit: bool) -> Room
    ensures { result ≡ room_behind room fit }
{
    if !fit {
        return Room::Unreached;
    }
    match room {
        Room::Unreached => Room::Unreached,
        Room::UpTo(0) => Room::Unreached,
        Room::UpTo(more) => Room::UpTo(more - 1),
        Room::Unlimited => Room::Unlimited,
    }
}

fn room_at(room: Room, left: Room, start: bool) -> Room
    ensures { result ≡ room_at room left start }
{
    if start { room } else { left }
}

fn room_between(least: u32, most: Option<u32>) -> Room
    ensures { result ≡ room_between least most }
{
    match most {
        None => Room::Unlimited,
        Some(most) => {
            if most < least {
                return Room::Unreached;
            }
            Room::UpTo(most - least)
        }
    }
}

// The places that lie as many more fitting numbers behind one of the row as there is room for.
#[tactic(auto, unfolding(crate::specs::Rows::spread))]
fn spread(alloc: Global, room: Room, fits: &[bool], row: &[bool]) -> Result<Row<bool>, Memory>
    ensures { IfOk result (λ r. r ≡ spread room Unreached fits.now row.now) }
{
    let mut found = Row::new(alloc);
    let mut left = Room::Unreached;
    let mut starts = row;
    let mut rest = fits;
    while let [fit, tail @ ..] = rest {
        let here = room_at(room, left, is_start(starts));
        found.push(is_reached(here))?;
        left = room_behind(here, *fit);
        starts = later_places(starts);
        rest = tail;
    }
    Ok(found)
}

/// The row behind an item that takes `least` to `most` numbers, which fit as told: of each place
/// whether the number behind it does. Its one error is want of memory.
pub(crate) fn row_step(
    alloc: Global,
    least: u32,
    most: Option<u32>,
    fits: &[bool],
    row: &[bool],
) -> Result<Row<bool>, Memory>
    ensures { IfOk result (λ r. r ≡ row_step least most fits.now row.now) }
{
    let starts = exactly(alloc, least, fits, row)?;
    spread(alloc, room_between(least, most), fits, starts.as_slice())
}

/// Whether a row reaches the last place of a path.
pub(crate) fn ends_reached(path: &[u32], row: &[bool]) -> bool
    ensures { result ≡ ends_reached path.now row.now }
{
    match row.get(path.len()) {
        Some(end) => *end,
        None => false,
    }
}
