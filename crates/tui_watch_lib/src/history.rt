//! The values of a number over the last minutes.

/// The number of points in a history: five minutes at a tick a second.
pub const POINTS: usize = 300;

/// The last points of a number, the newest first. A point is None if the value was not available, or before the first
/// reading.
#[derive(Clone, Copy)]
pub struct History {
    points: [Option<u64>; POINTS],
}

impl History {
    /// Returns a history without points.
    pub(crate) fn new() -> History {
        History {
            points: [None; POINTS],
        }
    }

    /// Adds a point, and drops the oldest one.
    pub(crate) fn push(&mut self, point: Option<u64>) {
        self.points.rotate_right(1);
        self.points[0] = point;
    }

    /// Returns the points, the newest first.
    pub(crate) fn points(&self) -> &[Option<u64>] {
        &self.points
    }

    /// Returns the newest point.
    pub(crate) fn newest(&self) -> Option<u64> {
        self.points[0]
    }

    /// Returns the greatest point, or `least` if that is greater.
    pub(crate) fn greatest(&self, least: u64) -> u64 {
        let mut greatest = least;
        for point in self.points.iter() {
            greatest = greatest.max(point.unwrap_or(0));
        }
        greatest
    }
}
