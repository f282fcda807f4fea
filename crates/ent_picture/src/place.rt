//! Where things stand in a picture, in pixels.

/// What stands left of the first column.
const LEFT: u64 = 84;

/// What stands above the first lane.
const TOP: u64 = 96;

/// What stands right of the last column, for the fates.
const RIGHT: u64 = 130;

/// The least width of a picture: that of the legend.
pub(crate) const LEAST_WIDTH: u64 = 1000;

/// The least and the greatest width of a column.
const NARROW: u64 = 20;

const WIDE: u64 = 56;

/// The measures of a picture.
#[derive(Clone, Copy, Debug)]
pub(crate) struct Measures {
    pub(crate) columns: u64,
    pub(crate) lanes: u64,
    pub(crate) column: u64,
    pub(crate) lane: u64,
    pub(crate) bar: u64,
    pub(crate) strip: u64,
}

impl Measures {
    /// The measures for so many columns and lanes: few columns share what the least width leaves them.
    pub(crate) fn new(columns: u64, lanes: u64) -> Self {
        let share = LEAST_WIDTH.saturating_sub(LEFT).saturating_sub(RIGHT) / columns.max(1);
        let (lane, bar, strip) = match lanes {
            0..=8 => (44, 22, 6),
            9..=20 => (36, 18, 5),
            _ => (30, 16, 4),
        };
        Measures {
            columns,
            lanes,
            column: (share.max(NARROW).min(WIDE) / 2).saturating_mul(2),
            lane,
            bar,
            strip,
        }
    }

    pub(crate) fn top(self) -> u64 {
        TOP
    }

    /// Where the columns end.
    pub(crate) fn right(self) -> u64 {
        LEFT.saturating_add(self.columns.max(1).saturating_mul(self.column))
    }

    /// Where the lanes end.
    pub(crate) fn bottom(self) -> u64 {
        self.lane_top(self.lanes)
    }

    pub(crate) fn width(self) -> u64 {
        self.right().saturating_add(RIGHT).max(LEAST_WIDTH)
    }

    /// The middle of a column.
    pub(crate) fn middle(self, column: u64) -> u64 {
        self.edge(column).saturating_add(self.column / 2)
    }

    /// The left edge of a column.
    pub(crate) fn edge(self, column: u64) -> u64 {
        LEFT.saturating_add(column.saturating_mul(self.column))
    }

    /// Where a bar begins that begins in a column.
    pub(crate) fn start(self, column: u64) -> u64 {
        self.edge(column).saturating_add(self.column / 10)
    }

    /// Where a bar ends that ends in a column.
    pub(crate) fn end(self, column: u64) -> u64 {
        self.edge(column.saturating_add(1))
            .saturating_sub(self.column / 10)
    }

    /// Where a bar ends that ends before a column, or in its first one.
    pub(crate) fn end_before(self, from: u64, to: u64) -> u64 {
        self.end(from).max(self.edge(to).saturating_sub(2))
    }

    pub(crate) fn lane_top(self, lane: u64) -> u64 {
        TOP.saturating_add(lane.saturating_mul(self.lane))
    }

    /// Where the strip of a group stands in a lane.
    pub(crate) fn strip_top(self, lane: u64) -> u64 {
        self.lane_top(lane)
            .saturating_add(self.lane)
            .saturating_sub(self.strip)
            .saturating_sub(2)
    }

    /// Where the bars of a lane begin.
    pub(crate) fn bar_top(self, lane: u64) -> u64 {
        let room = self
            .lane
            .saturating_sub(self.bar)
            .saturating_sub(self.strip);
        self.lane_top(lane).saturating_add(room / 2)
    }

    /// The height at which things stand in a lane.
    pub(crate) fn height(self, lane: u64) -> u64 {
        self.bar_top(lane).saturating_add(self.bar / 2)
    }

    /// Where the text of a bar stands.
    pub(crate) fn text(self, lane: u64) -> u64 {
        self.height(lane).saturating_add(4)
    }
}

/// The colour of a group: one of seven that colour-blind people can tell apart.
pub(crate) fn colour(group: u64) -> &'static str {
    match group % 7 {
        0 => "#0072B2",
        1 => "#E69F00",
        2 => "#009E73",
        3 => "#CC79A7",
        4 => "#56B4E9",
        5 => "#D55E00",
        _ => "#F0E442",
    }
}

/// The lines of the pattern of a group, over a ground of its colour: one of six, so that no two of 42 groups that
/// follow each other have both in common.
pub(crate) fn pattern(group: u64) -> &'static str {
    match group % 6 {
        0 => "",
        1 => "<path d=\"M-2 8L8 -2M2 12L12 2\" stroke=\"#fff\" stroke-width=\"3\"/>",
        2 => "<circle cx=\"5\" cy=\"3\" r=\"2\" fill=\"#fff\"/>",
        3 => "<path d=\"M5 0V10\" stroke=\"#fff\" stroke-width=\"4\"/>",
        4 => "<path d=\"M-2 2L8 12M2 -2L12 8\" stroke=\"#222\" stroke-width=\"2\"/>",
        _ => "<path d=\"M0 2.5H10\" stroke=\"#fff\" stroke-width=\"2\"/>",
    }
}
