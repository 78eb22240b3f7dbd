//! Windows and columns worked out by hand.

use std::alloc::Global;
use tui_cells::Mem;
use tui_layout::Constraint::{Fill, Length, Max, Min, Percentage, Ratio};
use tui_layout::{Constraint, Flex, Segment, Sums, Window, split, window_of};

fn sums_of(alloc: Global, heights: &[u64]) -> Mem<Sums> {
    let mut sums = Sums::with_capacity(alloc, heights.len())?;
    for height in heights {
        sums.push(*height)?;
    }
    Ok(sums)
}

/// Returns whether a list of items of these heights shows the items from `first` up to `end`, which is not shown.
fn is_window(
    alloc: Global,
    heights: &[u64],
    (height, offset, selected, padding): (u64, usize, Option<usize>, usize),
    (first, end): (usize, usize),
) -> Mem<bool> {
    let sums = sums_of(alloc, heights)?;
    let found = window_of(alloc, &sums, height, offset, selected, padding);
    Ok(sums.len() == heights.len() && found == Window { first, end })
}

const MOST: usize = usize::MAX;

const TEN_ROWS: [u64; 10] = [1; 10];

/// Heights of items; the height of the list, its offset, the selected item and the padding; the window.
const WINDOWS: [(&[u64], (u64, usize, Option<usize>, usize), (usize, usize)); 20] = [
    (&[2, 2, 1], (3, 0, Some(1), 0), (1, 3)),
    // An item that is taller than the list, from two offsets.
    (&[1, 5, 1], (3, 0, Some(1), 0), (1, 1)),
    (&[1, 5, 1], (3, 1, Some(1), 0), (1, 1)),
    (&[1, 1, 1], (9, 0, Some(1), MOST), (0, 3)),
    (&TEN_ROWS, (4, 0, Some(5), 1), (3, 7)),
    // Shown already; from below; with a padding; with the widest that fits.
    (&TEN_ROWS, (4, 2, Some(3), 0), (2, 6)),
    (&TEN_ROWS, (4, 5, Some(2), 0), (2, 6)),
    (&TEN_ROWS, (4, 5, Some(2), 1), (1, 5)),
    (&TEN_ROWS, (3, 0, Some(5), 9), (4, 7)),
    // At the ends of the list there are fewer items for the padding.
    (&TEN_ROWS, (4, 9, Some(0), 1), (0, 4)),
    (&TEN_ROWS, (4, 0, Some(9), 1), (6, 10)),
    // Without a selection; an offset and a selection past the end.
    (&TEN_ROWS, (4, 3, None, 2), (3, 7)),
    (&[1, 1, 1], (2, MOST, None, 0), (2, 3)),
    (&[1, 1, 1], (2, 0, Some(MOST), 0), (1, 3)),
    // No rows, and items without rows.
    (&[1, 1], (0, 0, Some(1), 0), (1, 1)),
    (&[0, 0, 0], (0, 2, Some(0), 0), (0, 3)),
    (&[], (5, 7, Some(2), 1), (0, 0)),
    // Sums that overflow 64 bits.
    (&[u64::MAX, u64::MAX, 1], (u64::MAX, 0, Some(1), 0), (1, 2)),
    (&[1, u64::MAX, u64::MAX], (u64::MAX, 2, None, 0), (2, 3)),
    (&[u64::MAX, 1, 2], (u64::MAX, 0, Some(2), MOST), (1, 3)),
];

#[test]
fn windows_move_least(rt: HostRuntime) -> Mem<()> {
    for &(heights, list, window) in &WINDOWS {
        assert!(&rt; is_window(rt.alloc(), heights, list, window)?);
    }
    Ok(())
}

/// Whether a length is split into columns that begin and are as wide as these pairs say.
fn is_split(
    alloc: Global,
    (length, spacing): (u16, u16),
    constraints: &[Constraint],
    flex: Flex,
    expected: &[(u16, u16)],
) -> Mem<bool> {
    let columns = split(alloc, length, spacing, constraints, flex)?;
    Ok(are_columns(&columns, expected))
}

fn are_columns(columns: &[Segment], expected: &[(u16, u16)]) -> bool {
    for (column, expected) in columns.iter().zip(expected) {
        if (column.start, column.width) != *expected {
            return false;
        }
    }
    columns.len() == expected.len()
}

/// Constraints, the length and the spacing, and the columns.
const COLUMNS: [(&[Constraint], (u16, u16), &[(u16, u16)]); 11] = [
    (
        &[Length(10), Min(5), Length(10)],
        (40, 1),
        &[(0, 10), (11, 18), (30, 10)],
    ),
    (&[Fill(1), Fill(2)], (10, 0), &[(0, 3), (3, 7)]),
    (&[Length(2), Length(2)], (3, 5), &[(0, 0), (3, 0)]),
    // Weights that are all 0; a Fill before a Min; two Mins.
    (&[Fill(0), Fill(0)], (7, 0), &[(0, 3), (3, 4)]),
    (&[Fill(1), Min(2)], (10, 0), &[(0, 8), (8, 2)]),
    (&[Min(2), Min(3)], (10, 0), &[(0, 4), (4, 6)]),
    // Parts of the length, rounded down; the rest is 37 less 13, 13 and 4.
    (
        &[Percentage(33), Ratio(1, 3), Max(4), Fill(9)],
        (40, 1),
        &[(0, 13), (14, 13), (28, 4), (33, 7)],
    ),
    (&[Ratio(1, 0), Length(3)], (7, 0), &[(0, 7), (7, 0)]),
    (
        &[Ratio(u32::MAX, 1), Percentage(u16::MAX)],
        (65535, 0),
        &[(0, 65535), (65535, 0)],
    ),
    (
        &[Fill(u16::MAX), Fill(u16::MAX), Fill(u16::MAX)],
        (65535, 65535),
        &[(0, 0), (65535, 0), (65535, 0)],
    ),
    (&[], (7, 1), &[]),
];

#[test]
fn columns_share_their_length(rt: HostRuntime) -> Mem<()> {
    for &(constraints, length, expected) in &COLUMNS {
        assert!(&rt; is_split(rt.alloc(), length, constraints, Flex::End, expected)?);
    }
    Ok(())
}

const THREE: [Constraint; 3] = [
    Constraint::Length(2),
    Constraint::Max(3),
    Constraint::Length(1),
];

/// The columns in a length of 40 and in the longest one.
const WIDE: [(Flex, u16, [(u16, u16); 3]); 14] = [
    (Flex::Legacy, 40, [(0, 2), (3, 3), (7, 33)]),
    (Flex::Legacy, 65535, [(0, 2), (3, 3), (7, 65528)]),
    (Flex::Start, 40, [(0, 2), (3, 3), (7, 1)]),
    (Flex::Start, 65535, [(0, 2), (3, 3), (7, 1)]),
    (Flex::End, 40, [(32, 2), (35, 3), (39, 1)]),
    (Flex::End, 65535, [(65527, 2), (65530, 3), (65534, 1)]),
    (Flex::Center, 40, [(16, 2), (19, 3), (23, 1)]),
    (Flex::Center, 65535, [(32763, 2), (32766, 3), (32770, 1)]),
    (Flex::SpaceBetween, 40, [(0, 2), (19, 3), (39, 1)]),
    (Flex::SpaceBetween, 65535, [(0, 2), (32766, 3), (65534, 1)]),
    (Flex::SpaceEvenly, 40, [(8, 2), (19, 3), (31, 1)]),
    (
        Flex::SpaceEvenly,
        65535,
        [(16381, 2), (32766, 3), (49152, 1)],
    ),
    (Flex::SpaceAround, 40, [(5, 2), (19, 3), (33, 1)]),
    (
        Flex::SpaceAround,
        65535,
        [(10921, 2), (32766, 3), (54612, 1)],
    ),
];

// Three columns of 2, 3 and 1 with a spacing of 1. At 40 the space is 38 and the rest 32, at 65535 they are 65533 and
// 65527.
#[test]
fn flexes_move_columns(rt: HostRuntime) -> Mem<()> {
    for (flex, length, expected) in &WIDE {
        assert!(&rt; is_split(rt.alloc(), (*length, 1), &THREE, *flex, expected)?);
    }
    Ok(())
}
